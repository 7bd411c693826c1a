//! Rows of the generator of scripts and of the summary of a run. They show what no contract says:
//! that there is an answer if there is memory.

mod scripts;
mod summaries;

//! Rows of the text of journals. They show what no contract says.

mod read;
mod tables;
mod written;

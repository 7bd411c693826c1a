//! Rows of scripts: their text, their generator and the summary of a run, the nets that play them,
//! and the echo server over them; of the words of the command line; and of the writes of lines.
#![tactic(auto)]

#[cfg(test)]
mod asserts;
#[cfg(test)]
mod echo;
#[cfg(test)]
mod generator;
#[cfg(test)]
mod line_rows;
#[cfg(test)]
mod nets;
#[cfg(test)]
mod scripts;
#[cfg(test)]
mod words;

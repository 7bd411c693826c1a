//! The summary of a run of the logging server: how many connections, records, bytes and lines its
//! journal has, and the four lines that tell it.
#![tactic(auto)]

mod summary;

pub use summary::Summary;

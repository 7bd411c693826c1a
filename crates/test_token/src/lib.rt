//! What a token keeps, tried on two values: a log that two threads write, and a desk whose notes
//! begin and end events and which counts its faults.
#![tactic(auto)]

mod desk;
mod log;

pub use desk::{Desk, Note, begin, settle};
pub use log::{Entry, Log, add, add_many, two_writers};

//! The statuses of the program `logd`: the code that each ends with, the number that goes with it,
//! and the line that tells it.
#![tactic(auto)]

pub mod laws;
mod status;

pub use status::Status;

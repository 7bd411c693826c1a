//! The command `logd forward`: the client logging daemon, which sends the records of a source to a
//! peer, and the status of its run.
#![tactic(auto)]

mod command;
pub mod laws;
mod outcome;
mod running;
mod totals;
mod words;

pub use command::{Forwarded, forward_main};
pub use outcome::Outcome;
pub use words::ForwardOptions;

//! The command `logd gen`: a script of so many connections is generated from a seed, the logging
//! server is run over a net that plays it, and the summary of the run is written (scripts, their
//! generator and the summary are this project's own).
#![tactic(auto)]

mod ends;
mod generating;
mod preparing;
mod summing;

pub use cmd_replay::{Played, ReplayEnd, Replayed, replay};
pub use ends::{GenerateEnd, Generated};
pub use generating::generate;

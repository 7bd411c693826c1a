//! The command `logd one`: one connection on a source, to its closing line, and the status of its
//! run.
#![tactic(auto)]

mod connection;
mod ending;

pub use connection::{Ran, one};
pub use ending::OneEnding;

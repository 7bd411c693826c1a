//! The words of the program `logd` that its commands do not see: help, the version, and options
//! that say what the top call is handed (an address to listen to or to dial, a host that standard
//! input ends, input of clients that use ACE 7 as it stands).
#![tactic(auto)]

mod address;
mod called;
pub mod laws;
mod parting;
mod takes;
mod texts;

pub use called::{Called, Own, call_of};
pub use texts::{HELP, USAGE, VERSION};

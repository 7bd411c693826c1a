//! The words that every crate of the framework shares: handles, masks, the kinds of report, the
//! upcalls of an event handler with their answers, and the two plain refusals.
#![tactic(auto)]

mod refusal;
mod upcall;

pub use refusal::{NetFailed, NoMemory};
pub use upcall::{Answer, Handle, Kind, Mask, Upcall, Why};

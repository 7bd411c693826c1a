//! What a reactor has to keep of its journal to go on: the live handles, the events that wait or
//! are open, the armed timers and a few numbers. The summary stands in `specs/`, kept entry by
//! entry, with the laws that it says of a legal journal what the journal says.
#![tactic(auto)]

pub mod laws;
mod parts;
mod words;

pub use parts::{ArmedTimer, DueTimer, LiveHandle, OpenEvent, WaitingEvent};
pub use words::{has_kind, is_timeout_of, upcall_of};

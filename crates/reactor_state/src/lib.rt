//! What a one-thread reactor keeps beside its journal, in tables that are fast to ask: the live
//! handles, the waiting events in a queue for each class, the open events, the armed timers, and
//! numbers (POSA2, Reactor, "demultiplexing table"; C++NPv2 chapter 3). It stands for a summary of
//! the journal, and each step keeps it so.
#![tactic(auto)]

mod armed;
mod handles;
mod masks;
mod opens;
mod places;
mod state;
mod steps;
mod timing;
mod waiting;

pub use places::{Pick, Places};
pub use state::ReactorState;

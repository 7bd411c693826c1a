//! The journal of a reactor: its entries, which entry may follow which, and what holds of every
//! journal that keeps to that. The machine is the reactor of C++NPv2 (chapters 3 and 4) and POSA2,
//! seen as the list of what it did; the definitions stand in `specs/`.
#![tactic(auto)]

mod entry;
mod journal;
pub mod laws;

pub use entry::Entry;
pub use journal::Journal;

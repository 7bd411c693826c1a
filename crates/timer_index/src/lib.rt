//! The index of a timer queue: a key for each timer by its number, so that a timer is found without
//! a look at the others.
#![tactic(auto)]

mod index;

pub use index::{Numbered, entry_of, put, sort};

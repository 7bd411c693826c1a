//! Finds a handle in a slice whose elements stand in rising order of their handles.
#![tactic(auto)]

mod guess;
mod search;

pub use search::{HasHandle, first_from, place_of};

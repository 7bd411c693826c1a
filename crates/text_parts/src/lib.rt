//! The parts of a text between separators.
#![tactic(auto)]

mod parts;

pub use parts::{cut, is_word};

//! An input of which a command reads so many bytes at most, in parts or whole. That one byte more
//! is there is met by a read of it, and told apart from the end.
#![tactic(auto)]

mod bounded;
mod whole;

pub use bounded::{BoundedInput, Part};
pub use whole::{Ending, Whole, read_whole};

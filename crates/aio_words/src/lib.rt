//! The words of the command `aio`, an echo service made of operations.
#![tactic(auto)]

mod words;

pub use words::{AioWords, aio_words};

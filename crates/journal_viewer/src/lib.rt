//! The text of a journal, read, checked and drawn as a picture (this project's own).
#![tactic(auto)]

mod ending;
pub mod laws;
mod viewing;

pub use ending::ViewEnd;
pub use viewing::{Viewed, view};

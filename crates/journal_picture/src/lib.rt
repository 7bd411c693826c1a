//! The picture of a journal of the logging server, as an SVG text: a lane for each handle, time
//! running to the right by the number of the entry, and one mark for each entry (this project's
//! own).
#![tactic(auto)]

mod header;
pub mod laws;
mod layout;
mod legend;
mod marks;
mod picture;
mod pieces;
mod seen;
mod words;

pub use picture::{Drawn, draw};

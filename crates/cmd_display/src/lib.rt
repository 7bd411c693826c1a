//! The command `logd display`: log records, back to back on an input, are written as text, a line
//! for each (C++NPv2 chapters 6 and 9: messages go through active tasks, which format them and end
//! them with a line feed).
#![tactic(auto)]

mod pipeline;
mod second;
mod showing;
mod spares;
mod window;

pub use showing::{DisplayEnd, Displayed, display};

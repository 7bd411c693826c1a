//! The watch that writes the lines of a journal to a sink, for any notes: what lines an entry has
//! is a parameter. With it go what a handler whose notes have lines is written with: the handler's
//! trait, and what takes texts.
#![tactic(auto)]

mod journal_lines;
mod sink;

pub use journal_lines::JournalLines;
pub use reactor_model::{Entry, EventHandler, Turn, Watch};
pub use sink::LineSink;
pub use sink_buffer::{GrowingText, ShortText, TextOut};

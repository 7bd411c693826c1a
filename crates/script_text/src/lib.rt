//! The reader of the text of a script of network events: it gives the groups of steps that a
//! demultiplexer plays, and what the listener and each end of a connection have to tell.
#![tactic(auto)]

mod laws;
mod line;
mod parse;
mod reading;
mod refusal;
mod words;

pub use laws::{scripts_are_playable, texts_have_one_reading};
pub use parse::parse_script;
pub use refusal::ScriptRefused;

//! The command `logd replay`: the text of a script on an input is read whole, and the logging
//! server is run over a net that plays it (C++NPv2 chapter 4; scripts are this project's own).
#![tactic(auto)]

mod ends;
mod forms;
mod playing;
mod replaying;

pub use ends::{Played, ReplayEnd, Replayed};
pub use playing::play;
pub use replaying::{replay, run_script};
pub use server_run::{Asked, Ending, Entry, Journal, NoWatch, Parts, Served, ServerNote, Volumes};

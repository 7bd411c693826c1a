//! A run of one worker over a script has the serial journal of that script.
#![tactic(auto)]

pub mod laws;

pub use laws_script_calls::ServerNote;
pub use tp_reactor::{Desk, EventHandler, Means, Net, TimerQueue, Volumes, Watch};

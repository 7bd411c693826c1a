//! What the connections of a run over a script took and noted, and how they were closed, however
//! the run ended.
#![tactic(auto)]

pub mod laws;

pub use laws_script_complete::{EventHandler, ServerNote};

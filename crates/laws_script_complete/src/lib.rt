//! What a run over a script has done when it is over: all connections were accepted, and what was
//! to be read was read.
#![tactic(auto)]

pub mod laws;

pub use laws_script_runs::{EventHandler, ServerNote};

//! Whole runs of the logging server over a script: which journals they have, and what those say.
#![tactic(auto)]

pub mod laws;

pub use laws_script_told::ServerNote;
pub use reactor_model::EventHandler;

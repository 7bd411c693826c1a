//! A net that plays a script, and tells its calls, has a reactor follow the script.
#![tactic(auto)]

pub mod laws;

pub use laws_script_runs::ServerNote;

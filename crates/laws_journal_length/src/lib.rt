//! A run of one worker over a script makes few entries.
#![tactic(auto)]

pub mod laws;

//! That the journal of a run over a script is within the limits of a journal's text.
#![tactic(auto)]

pub mod laws;

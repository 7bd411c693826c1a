//! Generated scripts and runs of the logging server over them: what a reader makes of their texts,
//! and what the summaries of the runs are.
#![tactic(auto)]

pub mod laws;

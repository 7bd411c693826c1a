//! The journal of a server with one worker over a script: each entry is fixed by those before it,
//! so there is one such journal.
#![tactic(auto)]

pub mod laws;

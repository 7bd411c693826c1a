//! How many turns a handler has for the reports that it was given: laws over the definitions of the
//! journal.
#![tactic(auto)]

pub mod laws;

//! Laws over the definitions of the journal: what the turns of a handler have to do with its life,
//! and which events are open.
#![tactic(auto)]

pub mod laws;

//! What the turns of a handler come to whose end tells the story that a script has of it: laws over
//! the definitions.
#![tactic(auto)]

pub mod laws;

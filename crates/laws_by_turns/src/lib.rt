//! Journals that go by turns: they have what waits, notifications and the turns of handlers bring,
//! and nothing that a caller asked for. Definitions, and laws over them.
#![tactic(auto)]

pub mod laws;

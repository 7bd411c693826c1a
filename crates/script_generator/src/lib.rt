//! The generator of scripts of network events: of so many connections and a seed it makes the text
//! of a script in which each connection brings 125 log records, in two pieces each. The text, the
//! script, its records and its numbers are defined in `specs/`.
#![tactic(auto)]

mod generator;
pub mod laws;
mod lines;
mod record;

pub use generator::gen_script;

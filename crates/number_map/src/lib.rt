//! Maps from numbers that begin at 0 and have few gaps, in vectors.
#![tactic(auto)]

mod map;
mod place_list;

pub use map::NumberMap;

//! Log records with their messages packed one after another, so that a list of them takes two
//! allocations, however many they are, and one alone whose message is short takes none.
#![tactic(auto)]

mod gathered;
mod packed;
mod short;

pub use gathered::{Gathered, GatheredRecords};
pub use packed::{PackedRecords, Unpacked};
pub use short::ShortRecord;

//! What contracts alone see, at no cost in a run: a log of entries, a whole number without a bound,
//! and the ends that a net took back.
#![tactic(auto)]

mod count;
mod ends;
mod log;

pub use count::Tally;
pub use ends::EndLog;
pub use log::{Entry, GhostLog};

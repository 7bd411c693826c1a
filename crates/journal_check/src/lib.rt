//! Whether a journal of a reactor is legal, and at which entry it is not.
//!
//! The check reads the journal once, front to back. Handles, timers, events and starts have numbers
//! without gaps, so what is found by number stands in vectors: the live handles, the timers, the
//! waiting events, and the open events, which are also found by their handles. Ordered maps and
//! sets have the armed timers by deadline and by handle; the waiting events by handle and class,
//! and by timer; of each handle whose events may be started the one that goes first; and the
//! handles that wait for their close. So an entry costs some steps, and some look-ups, each of
//! which grows with the logarithm of how many timers are armed and events waiting. An entry that
//! takes several timers or waiting events away costs as many look-ups as it takes away; each is
//! taken away once. The vectors have a place for each number, also of what is gone.
#![tactic(auto)]

mod checker;
mod handles;
pub mod laws;
mod machine;
mod opens;
mod reading;
mod timers;
mod waiting;
mod words;

pub use reading::{CheckRefused, check};

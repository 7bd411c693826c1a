//! A ring of notifications that needs no lock: posters put them in from any thread, and one drainer
//! takes them out in the order of their numbers.
//!
//! It is what `ACE_Reactor::notify` and its pipe are for (C++NPv2, section 4.4): a thread that has
//! work for a handler posts it, and the reactor's own threads make the upcall. The ring holds 256
//! postings. Neither `post` nor `next` waits or takes memory.
#![tactic(auto)]

mod parts;
mod plays;
mod posting;
mod ring;
mod start;
mod view;
mod words;

pub use parts::{Drainer, Poster, Ring};
pub use plays::RingRule;
pub use posting::{Full, Posting};
pub use view::{Ended, Flight, Stage, View};

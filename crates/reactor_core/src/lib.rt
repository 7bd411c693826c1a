//! The one-thread reactor (POSA2, Reactor: Initiation Dispatcher; C++NPv2 chapter 3,
//! `ACE_Reactor`).
#![tactic(auto, using(crate::proofs::Frames::rest_goes_on))]

mod acting;
mod append;
mod closing;
mod job;
pub mod laws;
mod marks;
mod means;
mod polling;
mod postings;
mod reactor;
mod registering;
mod removing;
mod requests;
mod room;
mod settling;
mod timers;
mod upcalls;
mod volumes;

pub use acting::Settled;
pub use job::{Done, Job};
pub use means::Means;
pub use polling::{PollRefused, Polled};
pub use postings::PostRefused;
pub use reactor::{Core, Parts};
pub use registering::RegisterRefused;
pub use removing::NotLive;
pub use requests::{LiveRefused, StateRefused};
pub use timers::CancelRefused;
pub use upcalls::StartRefused;
pub use volumes::HandOverRefused;

//! The synchronous layer of a pool (POSA2, Half-Sync/Half-Async): writers on threads of their own,
//! which take items out of the pool, and sleep while there is none.
//!
//! What no contract can say, and is only tested: that a writer is woken when an item was put, that
//! the writers run at the same time, and that each ends after the workers are back.
#![tactic(auto)]

mod given;
mod seat;
mod service;
mod serving;
mod shared;
mod writer;

pub use given::GivenItems;
pub use seat::{Seat, Serves};
pub use service::Service;
pub use shared::Shared;
pub use writer::{Ended, Writer};

//! A pool: a bounded queue of items between the asynchronous layer of a server and its synchronous
//! one (POSA2, Half-Sync/Half-Async; C++NPv2 chapter 6, `ACE_Task` and its message queue).
//!
//! Putters put items in and takers take them out, each from a thread of its own. A put or a take
//! makes one try at the queue and never sleeps. What each of them moved is known: each item has its
//! place in the order of all puts, which is the order of all takes too.
#![tactic(auto)]

mod item;
mod left;
mod pool;
mod rule;
mod sides;

pub use item::Item;
pub use pool::{Full, PLACES};
pub use rule::{Log, Numbered, PoolRule, View};
pub use sides::{Found, Left, Pool, Putter, Taker};

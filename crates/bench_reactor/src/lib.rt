//! What an event costs in the one-thread reactor, and in a pool of workers.
#![tactic(auto)]

mod one_thread;
mod pool;

pub use one_thread::{Asked, report_runs};
pub use pool::report_pools;

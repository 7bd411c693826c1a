//! A pool of members over nets in memory, with its callers.
#![tactic(auto)]

mod callers;
mod member;

pub use callers::{
    Answered, Left, NoPool, Pool, PoolWorker, Still, cancel, close, dismiss, hire, lead, post,
    register, remove, resume, run_pool, schedule, settle, share, stop, suspend,
};
pub use member::{Meeting, Member, next_number};
pub use tp_reactor::Ran;

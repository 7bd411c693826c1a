//! The command `logd pool`: a logging server whose workers read records and hand them to writers,
//! which make their lines (POSA2, Half-Sync/Half-Async; C++NPv2 chapter 6).
#![tactic(auto)]

mod ending;
mod layers;
mod line;
mod made;
mod making;
mod observing;
mod places;
mod putter;
mod putting;
mod serving;
mod top;
mod words;

pub use serving::PoolCore;
pub use top::{Pooled, pool_main};
pub use words::{PoolOptions, read_words};

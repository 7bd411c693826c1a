//! The run of the logging server over any host that listens: the command `logd serve` (C++NPv2
//! chapter 4; POSA2, Leader/Followers).
#![tactic(auto)]

mod ending;
mod serving;

pub use ending::{HostEnd, HostServed};
pub use serving::{HostCore, serve_host};

//! The logging server's commands, over any source, sink, host and keeper of volumes.
#![tactic(auto)]

mod fault;
pub mod laws;
mod runs;
mod served;
mod statuses;
mod texts;
mod top;

pub use cmd_line::{Command, Form, Options, Timers};
pub use fault::{FaultLine, fault_line};
pub use one_net::OneEnd;
pub use served::Served;
pub use top::logd_main;

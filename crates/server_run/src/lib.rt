//! The run of the logging server by a pool of workers: over any net, with an acceptor as its first
//! handler, until nothing can be reported any more, a notice ends it, or one of its parts fails.
#![tactic(auto)]

mod asked;
mod ending;
mod finishing;
mod opening;
mod running;

pub use acceptor::ServerHandler;
pub use asked::{Asked, Ground};
pub use ending::{Ending, Served};
pub use log_handler::{LineSink, LoggedRecords, ServerNote, put_entry_lines};
pub use running::{serve, serve_observed};
pub use tp_reactor::{
    Core, Done, DropVolumes, Entry, Journal, Means, NoWatch, Observer, Parts, TimerQueue, Volumes,
    Watch,
};

//! Two lines of messages between a thread and its caller, each a queue of at most 64 items, of
//! which one end puts and the other takes: what comes is what was sent, in order (C++NPv2 chapter
//! 6, the queue of an `ACE_Task` that is an active object). Whoever waits for the other looks a few
//! times and then sleeps. An item is a message, or up to 256 of them together, or the end.
#![tactic(auto)]

mod batch;
mod exchange;
mod inbox;
mod line;
mod lines;
mod wait;

pub use batch::{Batch, MOST_TOGETHER};
pub use inbox::Inbox;
pub use line::{End, Ends, InOrder, Item, Line, Log, Total, receive, send};
pub use lines::{Lines, Side, open};
pub use wait::Waits;

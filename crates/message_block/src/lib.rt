//! Messages of blocks of bytes, and queues of messages with a high and a low mark (C++NPv2 chapter
//! 6, `ACE_Message_Block` and `ACE_Message_Queue`).
#![tactic(auto)]

mod block;
mod laws;
mod message;
mod queue;

pub use block::{Block, NoSpace};
pub use laws::equal_messages_leave_in_order_of_arrival;
pub use message::Message;
pub use queue::{DequeueRefused, Dequeued, EnqueueRefused, HIGH, LOW, MessageQueue};

//! What comes out of a task for one message.
ghost use Rattle.std.specs.Prelude.{◌≡◌, IfOk};
ghost use Rattle.module_stream.specs.Passing.{passed_on};

use crate::messages::Messages;
use ev_types::NoMemory;
use message_block::Message;
use std::alloc::Global;

/// What comes out of a task for one message: one message, for which no list is made, or a list.
#[derive(Drop)]
pub enum Passed {
    /// One message.
    One(Message),
    /// Messages in order.
    Many(Messages),
}

impl Passed {
    /// The messages as a list. It takes memory if there is no list yet.
    pub fn into_messages(self, alloc: Global) -> Result<Messages, NoMemory>
        ensures { IfOk result (λ messages. messages ≡ passed_on self) }
    {
        match self {
            Passed::One(message) => {
                let mut items = Vec::with_capacity(alloc, 1)?;
                items.push(message)?;
                Ok(Messages::new(items))
            }
            Passed::Many(messages) => Ok(messages),
        }
    }
}

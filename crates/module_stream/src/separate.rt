//! The task that ends messages with a line feed.
ghost use Rattle.std.specs.Prelude.{◌≡◌, IfOk, map};
ghost use Rattle.module_stream.specs.Tasks.{separated};

use crate::messages::Messages;
use crate::passed::Passed;
use crate::task::Task;
use ev_types::NoMemory;
use message_block::Message;
use std::alloc::Global;

/// How many blocks a message has at most.
const MOST_BLOCKS: usize = 1_024;

/// A task that adds a block of one line feed, without space, to each message of fewer than 1,024
/// blocks, and gives a message of 1,024 blocks as it is.
#[derive(Drop)]
pub struct SeparateTask {
    alloc: Global,
}

impl SeparateTask {
    /// The task. It takes no memory.
    pub fn new(alloc: Global) -> SeparateTask {
        SeparateTask { alloc }
    }
}

impl Task for SeparateTask {
    ghost gives = { λ _ messages. map separated messages };

    fn put(&mut self, m: Message) -> Result<Messages, NoMemory> {
        self.pass(m)?.into_messages(self.alloc)
    }

    fn finish(&mut self) -> Result<Messages, NoMemory> {
        Ok(Messages::new(Vec::new(self.alloc)))
    }

    fn pass(&mut self, m: Message) -> Result<Passed, NoMemory> {
        Ok(Passed::One(end_line(self.alloc, m)?))
    }
}

/// Adds a line feed to a message that has a place for its block.
fn end_line(alloc: Global, message: Message) -> Result<Message, NoMemory>
    ensures { IfOk result (λ ended. ended ≡ separated message) }
{
    let mut message = message;
    if message.blocks().len() >= MOST_BLOCKS {
        return Ok(message);
    }
    message.cont_bytes(alloc, b"\n")?;
    Ok(message)
}

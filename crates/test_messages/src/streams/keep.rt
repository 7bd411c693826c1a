//! A task that keeps its messages.
ghost use Rattle.std.specs.Prelude.{◌≡◌, ◌++◌};

use ev_base::NoMemory;
use message_block::Message;
use module_stream::{Messages, Task};
use std::alloc::Global;
use std::mem;

/// A task that gives nothing until it is finished, and then all messages. After want of memory it
/// has lost the message.
#[derive(Drop)]
pub struct KeepTask {
    kept: Vec<Message>,
}

impl KeepTask {
    /// The task, which keeps nothing yet. It takes no memory.
    pub fn new(alloc: Global) -> KeepTask {
        KeepTask {
            kept: Vec::new(alloc),
        }
    }
}

impl Task for KeepTask {
    ghost gives = { λ task messages. task.kept.items ++ messages };

    fn put(&mut self, m: Message) -> Result<Messages, NoMemory> {
        self.kept.push(m)?;
        Ok(Messages::new(Vec::new(*self.kept.allocator())))
    }

    fn finish(&mut self) -> Result<Messages, NoMemory> {
        let none = Vec::new(*self.kept.allocator());
        Ok(Messages::new(mem::replace(&mut self.kept, none)))
    }
}

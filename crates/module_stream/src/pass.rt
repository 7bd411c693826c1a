//! The task that passes messages on.
ghost use Rattle.std.specs.Prelude.{◌≡◌};

use crate::messages::Messages;
use crate::passed::Passed;
use crate::task::Task;
use ev_types::NoMemory;
use message_block::Message;
use std::alloc::Global;

/// A task that gives each message as it was put.
#[derive(Drop)]
pub struct PassTask {
    alloc: Global,
}

impl PassTask {
    /// The task. It takes no memory.
    pub fn new(alloc: Global) -> PassTask {
        PassTask { alloc }
    }
}

impl Task for PassTask {
    ghost gives = { λ _ messages. messages };

    fn put(&mut self, m: Message) -> Result<Messages, NoMemory> {
        self.pass(m)?.into_messages(self.alloc)
    }

    fn finish(&mut self) -> Result<Messages, NoMemory> {
        Ok(Messages::new(Vec::new(self.alloc)))
    }

    fn pass(&mut self, m: Message) -> Result<Passed, NoMemory> {
        Ok(Passed::One(m))
    }

    fn is_passing(&self) -> bool {
        true
    }
}

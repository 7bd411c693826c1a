//! The memory of messages that were written, which is used again.
ghost use Rattle.std.specs.Prelude.{◌≡◌, []};

use message_block::Message;
use std::alloc::Global;
use std::mem;

/// Messages that were written, and a list that such came in, which is empty.
#[derive(Drop)]
pub(crate) struct Spares {
    messages: Vec<Message>,
    list: Vec<Message>,
}

impl Spares {
    /// None. It takes no memory.
    pub(crate) fn new(alloc: Global) -> Spares {
        Spares {
            messages: Vec::new(alloc),
            list: Vec::new(alloc),
        }
    }

    /// Keeps a message for its memory, if there is memory for its place.
    pub(crate) fn keep(&mut self, message: Message) {
        let _ = self.messages.push(message);
    }

    /// Keeps a list for its memory, if there is no other.
    pub(crate) fn keep_list(&mut self, list: Vec<Message>) {
        if self.list.capacity() == 0 {
            self.list = list;
        }
    }

    /// A message whose memory is used again, if there is one.
    pub(crate) fn message(&mut self) -> Option<Message> {
        self.messages.pop()
    }

    /// A list of no messages, in memory that is used again, if there is some.
    pub(crate) fn list(&mut self) -> Vec<Message>
        ensures { result.items ≡ [] }
    {
        let none = Vec::new(*self.list.allocator());
        let mut list = mem::replace(&mut self.list, none);
        list.clear();
        list
    }
}

//! What came back.
ghost use Rattle.std.specs.Prelude.{◌≡◌, ◌<◌, [], ◌∷◌, ◌++◌, List, true, false, vec_len};
ghost use Rattle.std.specs.Prelude.{vec_capacity, OnOk};
ghost use Rattle.message_block.specs.Messages.{MessageState};
ghost use Rattle.message_lines.specs.declared.line.Item.{Item};
ghost use Rattle.message_lines.specs.Boxes.{IsIn, HasRoom, each_of, ones};

use crate::batch::{Batch, MOST_TOGETHER};
use crate::line::Item;
use ev_types::NoMemory;
use message_block::Message;
use std::alloc::Global;
use std::mem;

/// Messages that came back and were not answered yet.
#[derive(Drop)]
pub struct Inbox {
    pub messages: Vec<Message>,
    /// Whether there was no memory for a message. All that came since were dropped.
    pub lost: bool,
    /// Whether nothing more comes.
    pub over: bool,
}

impl Inbox {
    /// An inbox that holds nothing. It takes no memory.
    pub(crate) fn new(alloc: Global) -> Inbox
        ensures messages { result.messages.items ≡ [] }
        ensures lost { result.lost ≡ false }
        ensures over { result.over ≡ false }
    {
        Inbox {
            messages: Vec::new(alloc),
            lost: false,
            over: false,
        }
    }

    /// Makes room for whatever comes next. If nothing is held that is a place for one message,
    /// since many come in a list of their own, which is taken over.
    pub(crate) fn make_room(&mut self) -> Result<(), NoMemory>
        ensures room { OnOk result (HasRoom self.new) }
        ensures messages { self.new.messages.items ≡ self.old.messages.items }
        ensures lost { self.new.lost ≡ self.old.lost }
        ensures over { self.new.over ≡ self.old.over }
    {
        let places = if self.messages.is_empty() {
            1
        } else {
            MOST_TOGETHER
        };
        self.messages.reserve(places)?;
        Ok(())
    }

    /// Accepts what came. If there is no memory for a message it is lost, and all after it.
    pub(crate) fn accept(&mut self, item: Item)
        requires { self.old.over ≡ false }
        ensures accepted { (got : List Item) (base : List MessageState) → IsIn got base self.old
            → IsIn (got ++ each_of item) base self.new }
        ensures kept { HasRoom self.old → self.new.lost ≡ self.old.lost }
    {
        match item {
            Item::Stop => self.over = true,
            Item::One(message) => self.keep(message),
            Item::Many(batch) => self.keep_all(batch),
        }
    }

    /// Keeps a message after the others.
    fn keep(&mut self, message: Message)
        requires { self.old.over ≡ false }
        ensures accepted { (got : List Item) (base : List MessageState) → IsIn got base self.old
            → IsIn (got ++ Item.One message ∷ []) base self.new }
        ensures kept { vec_len self.old.messages < vec_capacity self.old.messages
            → self.new.lost ≡ self.old.lost }
    {
        if self.lost {
            return;
        }
        match self.messages.push(message) {
            Ok(()) => return,
            Err(_) => self.lost = true,
        }
    }

    /// Keeps messages after the others. If there are none, their list is taken over.
    fn keep_all(&mut self, batch: Batch)
        requires { self.old.over ≡ false }
        ensures accepted { (got : List Item) (base : List MessageState) → IsIn got base self.old
            → IsIn (got ++ ones batch.messages.items) base self.new }
        ensures kept { HasRoom self.old → self.new.lost ≡ self.old.lost }
    {
        if self.lost {
            return;
        }
        let Batch { mut messages } = batch;
        if self.messages.is_empty() {
            self.messages = messages;
            return;
        }
        match self.messages.append(&mut messages) {
            Ok(()) => return,
            Err(_) => self.lost = true,
        }
    }

    /// Gives the messages, and holds none from now on. If there are none, the memory for the
    /// next is kept.
    pub fn take(&mut self) -> Vec<Message>
        ensures given { result.items ≡ self.old.messages.items }
        ensures messages { self.new.messages.items ≡ [] }
        ensures lost { self.new.lost ≡ self.old.lost }
        ensures over { self.new.over ≡ self.old.over }
    {
        let none = Vec::new(*self.messages.allocator());
        if self.messages.is_empty() {
            return none;
        }
        mem::replace(&mut self.messages, none)
    }
}

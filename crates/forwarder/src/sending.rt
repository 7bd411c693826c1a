//! What waits to be sent.
ghost use Rattle.std.specs.Prelude.{◌≡◌, ◌≤◌, ◌^◌, ◌==◌, [], ◌∷◌, length, drop, OnOk, OnErr};
ghost use Rattle.std.specs.Prelude.{IfOk};
ghost use Rattle.message_block.specs.Messages.{block_of};
ghost use Rattle.forwarder.specs.Waiting.{most_held, front_bytes};

use ev_base::NoMemory;
use message_block::{Block, HIGH, LOW, Message, MessageQueue};
use std::alloc::Global;
use std::marker::Model;

/// What waits to be sent: the message that is being sent, with the place up to which it was, and
/// then the messages of a queue.
#[derive(Drop)]
pub(crate) struct Sending {
    front: Option<Message>,
    at: usize,
    queue: MessageQueue,
    alloc: Global,
}

impl Model for Sending {
    ghost use Rattle.forwarder.specs.Waiting.{SendingState, sending_by, IsSending};

    ghost Value = { SendingState };

    ghost view = { λ s. sending_by s.front s.at s.queue };

    ghost invariant = { λ s. IsSending s.front s.at s.queue };
}

impl Sending {
    /// Nothing waits.
    pub(crate) fn new(alloc: Global) -> Sending
        ensures { result ≡ record { waiting = []; held = 0 } }
    {
        Sending {
            front: None,
            at: 0,
            queue: MessageQueue::new(alloc, HIGH, LOW),
            alloc,
        }
    }

    /// Whether nothing waits.
    pub(crate) fn is_empty(&self) -> bool
        ensures { result ≡ (length self.now.waiting == 0) }
    {
        self.at as u64 >= length_of(&self.front) && self.queue.bytes() == 0
    }

    /// Memory without bytes, for what is put next: that of what was sent.
    pub(crate) fn memory(&mut self) -> Vec<u8>
        requires none { self.old.waiting ≡ [] }
        ensures empty { result.items ≡ [] }
        ensures same { self.new ≡ self.old }
    {
        let none = Vec::new(self.alloc);
        match &mut self.front {
            Some(message) => {
                self.at = 0;
                message.put_alone(Block::from_vec(none))
            }
            None => none,
        }
    }

    /// Puts bytes when nothing waits. After `NoMemory` nothing waits still.
    pub(crate) fn put(&mut self, bytes: Vec<u8>) -> Result<(), NoMemory>
        requires none { self.old.waiting ≡ [] }
        requires few { length bytes.items ≤ most_held }
        ensures ok { OnOk result (self.new.waiting ≡ bytes.items) }
        ensures err { OnErr result (self.new ≡ self.old) }
        ensures held { self.new.held ≤ most_held }
    {
        let alloc = self.alloc;
        if bytes.is_empty() {
            return Ok(());
        }
        let sent = self.front.take();
        self.at = 0;
        let message = message_of(alloc, sent, bytes)?;
        match self.queue.enqueue_tail(message) {
            Ok(()) => {}
            Err(_) => return Err(NoMemory),
        }
        Ok(())
    }

    /// Takes the message of the queue to be sent, once the one before was sent whole.
    pub(crate) fn advance(&mut self)
        ensures same { self.new.waiting ≡ self.old.waiting }
        ensures held { self.new.held ≡ 0 }
    {
        if let Ok(taken) = self.queue.dequeue_head() {
            self.front = Some(taken.message);
            self.at = 0;
        }
    }

    /// All that waits, if the queue holds none.
    pub(crate) fn front(&self) -> &[u8]
        requires { self.now.held ≡ 0 }
        ensures { result.now ≡ self.now.waiting }
    {
        match &self.front {
            Some(message) => &message.blocks()[0].bytes()[self.at..],
            None => &[],
        }
    }

    /// So many bytes of it were sent, if the queue holds none.
    pub(crate) fn pass(&mut self, count: usize)
        requires none { self.old.held ≡ 0 }
        requires within { count ≤ length self.old.waiting }
        ensures sent { self.new.waiting ≡ drop count self.old.waiting }
        ensures held { self.new.held ≡ 0 }
    {
        let _length = length_of(&self.front);
        self.at += count;
    }
}

/// How many bytes a message has, or none.
fn length_of(message: &Option<Message>) -> u64
    ensures length { result ≡ length (front_bytes message.now) }
    ensures within { result ≤ 2 ^ 30 }
{
    match message {
        Some(message) => message.total_length(),
        None => 0,
    }
}

/// A message of these bytes alone: the one that was sent, if there is one.
fn message_of(alloc: Global, sent: Option<Message>, bytes: Vec<u8>) -> Result<Message, NoMemory>
    requires { length bytes.items ≤ most_held }
    ensures { IfOk result (λ message. message.blocks ≡ block_of bytes.items ∷ []) }
{
    let block = Block::from_vec(bytes);
    match sent {
        Some(mut message) => {
            let _ = message.put_alone(block);
            Ok(message)
        }
        None => match Message::new(alloc, block, 0) {
            Ok(message) => Ok(message),
            Err((_, refused)) => Err(refused),
        },
    }
}

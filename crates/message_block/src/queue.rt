//! Queues of messages.
ghost use Rattle.std.specs.Prelude.{◌≡◌, ◌≤◌, ◌^◌, ℕ, suc, true, false, [], ◌∷◌, ◌++◌, drop, OnOk};
ghost use Rattle.std.specs.Prelude.{IfOk, IfErr, MatchOption};
ghost use Rattle.std.specs.VecDeque.{deque_len};
ghost use Rattle.std.specs.List.{list_all};
ghost use Rattle.message_block.specs.Messages.{is_below, put_by_priority, held_bytes};

use crate::message::Message;
use std::alloc::Global;
use std::collections::VecDeque;
use std::marker::Model;

/// The high mark that a queue has by default, in bytes (ACE's `DEFAULT_HWM`).
pub const HIGH: u64 = 16_384;

/// The low mark that a queue has by default, in bytes (ACE's `DEFAULT_LWM`).
pub const LOW: u64 = 16_384;

/// A queue of messages that counts their bytes (ACE's `ACE_Message_Queue`). It takes no message
/// while it holds as many bytes as its high mark or more, and while it is not active, and it tells
/// when it falls to its low mark.
#[derive(Drop)]
pub struct MessageQueue {
    messages: VecDeque<Message>,
    bytes: u64,
    high: u64,
    low: u64,
    active: bool,
}

impl Model for MessageQueue {
    ghost use Rattle.std.specs.Prelude.{◌≡◌, ◌≤◌, ◌+◌, ◌^◌};
    ghost use Rattle.message_block.specs.Messages.{QueueState, held_in};

    ghost Value = { QueueState };

    ghost view = { λ q. record {
      messages = q.messages.items;
      high = q.high;
      low = q.low;
      active = q.active;
    } };

    ghost invariant = { λ q. (q.bytes ≡ held_in q.messages.items) × (q.low ≤ q.high)
        × (q.high ≤ 2 ^ 40) × (q.bytes ≤ q.high + 2 ^ 30) };
}

/// Why a queue takes no message.
#[derive(Clone, Copy, PartialEq, Eq, Hash, Debug)]
pub enum EnqueueRefused {
    /// The queue is not active.
    Inactive,
    /// The queue holds so many bytes, as many as its high mark or more.
    Full {
        /// The bytes that it holds.
        bytes: u64,
    },
    /// There was no memory for the place.
    NoMemory,
}

/// A message that left a queue.
#[derive(Drop)]
pub struct Dequeued {
    /// The message.
    pub message: Message,
    /// Whether the bytes were above the low mark and are no more.
    pub relieved: bool,
}

/// Why a queue gives no message.
#[derive(Clone, Copy, PartialEq, Eq, Hash, Debug)]
pub enum DequeueRefused {
    /// The queue is not active.
    Inactive,
    /// The queue has no message.
    Empty,
}

impl MessageQueue {
    ghost use Rattle.message_block.specs.Answers.{TakesMessages, RefusesMessage, TakesFirst};
    ghost use Rattle.message_block.specs.Answers.{GivesNone};

    /// An active queue without messages. The marks are bytes, the low one at most the high one, and
    /// that at most 2^40.
    pub fn new(alloc: Global, high: u64, low: u64) -> MessageQueue
        requires order { low ≤ high }
        requires within { high ≤ 2 ^ 40 }
        ensures { result ≡ record { messages = []; high = high; low = low; active = true } }
    {
        MessageQueue {
            messages: VecDeque::new(alloc),
            bytes: 0,
            high,
            low,
            active: true,
        }
    }

    /// Puts a message after all others. A refusal gives it back, and the queue is as before:
    /// `Inactive` comes exactly while the queue is not active, `Full` exactly if it is active
    /// and holds as many bytes as its high mark or more.
    pub fn enqueue_tail(&mut self, m: Message) -> Result<(), (Message, EnqueueRefused)>
        ensures accepts { OnOk result (TakesMessages self.old) }
        ensures queued { OnOk result (self.new ≡ record self.old {
          messages = self.old.messages ++ m ∷ [];
        }) }
        ensures refused { IfErr result (λ refusal. RefusesMessage self.old refusal.1) }
        ensures unchanged { IfErr result (λ refusal. (refusal.0 ≡ m) × (self.new ≡ self.old)) }
    {
        if let Some(refused) = self.refusal() {
            return Err((m, refused));
        }
        let length = m.total_length();
        match self.messages.push_back(m) {
            Ok(()) => {
                self.bytes += length;
                Ok(())
            }
            Err(failed) => Err((failed.value, EnqueueRefused::NoMemory)),
        }
    }

    /// Puts a message before all others. Refusals are those of `enqueue_tail`.
    pub fn enqueue_head(&mut self, m: Message) -> Result<(), (Message, EnqueueRefused)>
        ensures accepts { OnOk result (TakesMessages self.old) }
        ensures queued { OnOk result (self.new ≡ record self.old {
          messages = m ∷ self.old.messages;
        }) }
        ensures refused { IfErr result (λ refusal. RefusesMessage self.old refusal.1) }
        ensures unchanged { IfErr result (λ refusal. (refusal.0 ≡ m) × (self.new ≡ self.old)) }
    {
        if let Some(refused) = self.refusal() {
            return Err((m, refused));
        }
        let length = m.total_length();
        match self.messages.push_front(m) {
            Ok(()) => {
                self.bytes += length;
                Ok(())
            }
            Err(failed) => Err((failed.value, EnqueueRefused::NoMemory)),
        }
    }

    /// Puts a message directly after the last one of equal or higher priority, and at the head
    /// if there is none. Refusals are those of `enqueue_tail`.
    pub fn enqueue_prio(&mut self, m: Message) -> Result<(), (Message, EnqueueRefused)>
        ensures accepts { OnOk result (TakesMessages self.old) }
        ensures queued { OnOk result (self.new ≡ record self.old {
          messages = put_by_priority m self.old.messages;
        }) }
        ensures refused { IfErr result (λ refusal. RefusesMessage self.old refusal.1) }
        ensures unchanged { IfErr result (λ refusal. (refusal.0 ≡ m) × (self.new ≡ self.old)) }
    {
        if let Some(refused) = self.refusal() {
            return Err((m, refused));
        }
        let length = m.total_length();
        let place = place_by_priority(&self.messages, m.priority());
        match self.messages.insert(place, m) {
            Ok(()) => {
                self.bytes += length;
                Ok(())
            }
            Err(failed) => Err((failed.value, EnqueueRefused::NoMemory)),
        }
    }

    /// Takes the first message. `Inactive` comes exactly while the queue is not active, `Empty`
    /// exactly if it is active and has no message; the queue is then as before.
    pub fn dequeue_head(&mut self) -> Result<Dequeued, DequeueRefused>
        ensures taken { IfOk result (λ taken. TakesFirst self.old taken self.new) }
        ensures refused { IfErr result (λ why. GivesNone self.old why × (self.new ≡ self.old)) }
    {
        if !self.active {
            return Err(DequeueRefused::Inactive);
        }
        match self.messages.pop_front() {
            Some(message) => {
                let was_above = self.bytes > self.low;
                self.bytes -= message.total_length();
                let relieved = was_above && self.bytes <= self.low;
                Ok(Dequeued { message, relieved })
            }
            None => Err(DequeueRefused::Empty),
        }
    }

    /// Makes the queue refuse messages and give none. It keeps those that it has.
    pub fn deactivate(&mut self)
        ensures { self.new ≡ record self.old { active = false } }
    {
        self.active = false;
    }

    /// Makes the queue take and give messages.
    pub fn activate(&mut self)
        ensures { self.new ≡ record self.old { active = true } }
    {
        self.active = true;
    }

    /// How many bytes the messages have together.
    pub fn bytes(&self) -> u64
        ensures { result ≡ held_bytes self.now }
    {
        self.bytes
    }

    /// Why a message would be refused now, other than for want of memory.
    fn refusal(&self) -> Option<EnqueueRefused>
        ensures { MatchOption result (TakesMessages self.now) (RefusesMessage self.now) }
    {
        if !self.active {
            return Some(EnqueueRefused::Inactive);
        }
        if self.bytes >= self.high {
            return Some(EnqueueRefused::Full { bytes: self.bytes });
        }
        None
    }
}

/// The place directly after the last message of this priority or a higher one: the least from
/// which on all are of lower priority.
fn place_by_priority(messages: &VecDeque<Message>, priority: u32) -> usize
    ensures within { result ≤ deque_len messages.now }
    ensures lower { list_all (is_below priority) (drop result messages.now.items) ≡ true }
    ensures least { (before : ℕ) → result ≡ suc before
        → list_all (is_below priority) (drop before messages.now.items) ≡ false }
{
    let mut place = messages.len();
    while place > 0 {
        if messages[place - 1].priority() >= priority {
            return place;
        }
        place -= 1;
    }
    0
}

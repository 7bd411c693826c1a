//! Messages that go through a queue.

use crate::messages::message_of;
use ev_types::NoMemory;
use message_block::{HIGH, LOW, Message, MessageQueue};
use std::alloc::Global;

/// Takes the message at the head of a queue of 16 and puts it at the tail, so many times, and tells
/// how often that went well.
pub fn run(alloc: Global, count: u64) -> Result<u64, NoMemory> {
    let mut queue = MessageQueue::new(alloc, HIGH, LOW);
    for _ in 0..16 {
        put(&mut queue, message_of(alloc)?)?;
    }
    let mut passed = 0u64;
    for _ in 0..count {
        if let Ok(taken) = queue.dequeue_head() {
            put(&mut queue, taken.message)?;
            passed = passed.saturating_add(1);
        }
    }
    Ok(passed)
}

/// Puts a message at the tail.
fn put(queue: &mut MessageQueue, message: Message) -> Result<(), NoMemory> {
    match queue.enqueue_tail(message) {
        Ok(()) => Ok(()),
        Err(_) => Err(NoMemory),
    }
}

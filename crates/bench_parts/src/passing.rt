//! What it costs to pass messages on: through a message queue, through streams of 1, 3 and 8
//! passing modules, and through a passing task on a thread of its own.

use crate::cost::cost;
use crate::{beside, message_queue, streams};
use ev_types::NoMemory;
use std::alloc::Global;
use std::io;
use std::rt::Runtime;
use std::sync::Wait;
use std::thread::Threads;
use std::time::Instant;

/// What messages go through.
#[derive(Clone, Copy)]
enum Way {
    /// A message queue.
    Queue,
    /// A stream of so many passing modules.
    Stream(u32),
    /// The same, if it answers with a list.
    ListingStream(u32),
    /// A passing task on a thread of its own.
    ActiveTask,
}

/// Passes one message 100 times, or if it is timed a million times.
pub fn run<R: Runtime + Threads + Wait + Copy + Send + 'static>(
    rt: &R,
    alloc: Global,
    timed: bool,
) -> io::Result<()> {
    let count = if timed { 1_000_000 } else { 100 };
    let ways = [
        (Way::Queue, "enqueue_tail and dequeue_head"),
        (Way::Stream(1), "put through 1 passing modules"),
        (
            Way::ListingStream(1),
            "put through 1 passing modules, answered in a list",
        ),
        (Way::Stream(3), "put through 3 passing modules"),
        (
            Way::ListingStream(3),
            "put through 3 passing modules, answered in a list",
        ),
        (Way::Stream(8), "put through 8 passing modules"),
        (
            Way::ListingStream(8),
            "put through 8 passing modules, answered in a list",
        ),
        (Way::ActiveTask, "put through an active passing task"),
    ];
    for (way, name) in ways {
        let start = Instant::now(rt)?;
        let done = pass(rt, alloc, way, count);
        let nanos = start.elapsed(rt)?.as_nanos();
        println!(rt; "{name}: {}", cost(timed, done.unwrap_or(0), nanos))?;
    }
    Ok(())
}

/// Passes one message so often, and tells how often it came out.
fn pass<R: Threads + Wait + Copy + Send + 'static>(
    rt: &R,
    alloc: Global,
    way: Way,
    count: u64,
) -> Result<u64, NoMemory> {
    match way {
        Way::Queue => message_queue::run(alloc, count),
        Way::Stream(modules) => streams::run(alloc, modules, count, false),
        Way::ListingStream(modules) => streams::run(alloc, modules, count, true),
        Way::ActiveTask => beside::run(rt, alloc, count),
    }
}

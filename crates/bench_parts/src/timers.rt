//! What it costs to schedule timers and to expire them, in the three timer queues and in a plain
//! `BTreeMap`.

use crate::cost::cost;
use crate::{map, queues};
use ev_types::NoMemory;
use std::alloc::Global;
use std::io;
use std::time::Instant;
use timer_heap::HeapTimers;
use timer_queue::SortedTimers;
use timer_wheel::WheelTimers;

/// The spokes and the resolution in milliseconds of the wheel.
const SPOKES: usize = 256;

const RESOLUTION: u64 = 100;

/// How many timers expire in each queue if it is timed, in rounds of as many as stand in it at
/// once.
const TIMED: u64 = 100_000;

/// Runs 100 timers, or if it is timed 100 to 100,000.
pub fn run(rt: &HostRuntime, timed: bool) -> io::Result<()> {
    let sizes: [u64; 4] = [100, 1_000, 10_000, 100_000];
    for size in sizes {
        if timed || size == 100 {
            compare(rt, timed, size)?;
        }
    }
    Ok(())
}

/// What timers are scheduled in.
#[derive(Clone, Copy)]
enum QueueKind {
    Sorted,
    Heap,
    Wheel,
    Map,
}

/// Runs each queue with so many timers.
fn compare(rt: &HostRuntime, timed: bool, size: u64) -> io::Result<()> {
    let kinds = [
        (QueueKind::Sorted, "sorted list"),
        (QueueKind::Heap, "heap"),
        (QueueKind::Wheel, "wheel"),
        (QueueKind::Map, "BTreeMap"),
    ];
    let rounds = if timed {
        TIMED.checked_div(size).unwrap_or(1)
    } else {
        1
    };
    for (kind, name) in kinds {
        let start = Instant::now(rt)?;
        let done = expire(rt.alloc(), kind, size, rounds);
        let nanos = start.elapsed(rt)?.as_nanos();
        println!(rt;
            "{size} timers, {name}: {}",
            cost(timed, done.unwrap_or(0), nanos)
        )?;
    }
    Ok(())
}

/// Schedules so many timers and lets them expire, so often, and tells how many expired.
fn expire(alloc: Global, kind: QueueKind, size: u64, rounds: u64) -> Result<u64, NoMemory> {
    match kind {
        QueueKind::Sorted => queues::run(&mut SortedTimers::new(alloc), size, rounds),
        QueueKind::Heap => queues::run(&mut HeapTimers::new(alloc), size, rounds),
        QueueKind::Wheel => {
            let mut wheel = WheelTimers::<SPOKES>::new(alloc, RESOLUTION)?;
            queues::run(&mut wheel, size, rounds)
        }
        QueueKind::Map => map::run(alloc, size, rounds),
    }
}

//! The same with a plain map of the standard library.

use crate::queues::deadline_of;
use ev_types::{Handle, NoMemory};
use std::alloc::Global;
use std::collections::BTreeMap;
use timer_queue::Timer;

/// Inserts so many timers and takes them out in order, in one map so often. The answer is how many
/// there were.
pub fn run(alloc: Global, size: u64, rounds: u64) -> Result<u64, NoMemory> {
    let mut map = BTreeMap::new(alloc);
    let mut expired = 0u64;
    for _ in 0..rounds {
        insert(&mut map, expired, size)?;
        for _ in 0..size {
            if map.pop_first().is_some() {
                expired = expired.saturating_add(1);
            }
        }
    }
    Ok(expired)
}

/// Inserts so many timers, whose numbers rise from `first` on.
fn insert(map: &mut BTreeMap<(u64, u64), Timer>, first: u64, size: u64) -> Result<(), NoMemory> {
    for timer in first..first.saturating_add(size) {
        let deadline = deadline_of(timer);
        let scheduled = Timer {
            deadline,
            timer,
            handle: Handle(timer % 64),
            every: 0,
        };
        map.insert((deadline, timer), scheduled)?;
    }
    Ok(())
}

//! The doorbell.

use std::hint::spin_loop;
use std::sync::Wait;
use std::sync::atomic::{AtomicU64, Ordering};

/// In the place of a count: the thread does not sleep.
const AWAKE: u64 = u64::MAX;

/// A count of changes, which one thread watches. It looks some times, and then sleeps until it is
/// woken. A change costs no call of the system while the thread is awake.
///
/// The thread reads `count`, looks whether there is something for it, and calls `rest` with that
/// count if there is not. The others make their change, call `ring`, and call `wake` if the thread
/// is to go on. No contract speaks of it. That no change is slept through:
///
/// - The thread says at which count it sleeps, and the system lets it sleep only at that count.
/// - A `wake` after a change finds either a thread that is awake and has not looked at the count
///   for the last time, or one that sleeps at an earlier count, and wakes that one.
/// - A `wake` that comes late, for a change that the thread has seen before it fell asleep, finds
///   the count at which the thread sleeps, and leaves it as it is: the next change still finds it
///   asleep.
#[derive(Drop)]
pub struct Doorbell {
    count: AtomicU64,
    sleeps_at: AtomicU64,
}

impl Doorbell {
    /// One at which nothing has changed and nobody sleeps.
    pub fn new() -> Doorbell {
        Doorbell {
            count: AtomicU64::new(0),
            sleeps_at: AtomicU64::new(AWAKE),
        }
    }

    /// How often something changed.
    pub fn count(&self) -> u64 {
        self.count.load(Ordering::SeqCst)
    }

    /// Something changed.
    pub fn ring(&self) {
        self.count.fetch_add(1, Ordering::SeqCst);
    }

    /// Wakes the thread if it sleeps, and something changed since it looked.
    pub fn wake(&self) {
        let at = self.sleeps_at.load(Ordering::SeqCst);
        if at != AWAKE && at != self.count() && self.takes_up(at) {
            self.count.wake_one();
        }
    }

    // Whether it is this caller that wakes a thread which sleeps at this count.
    fn takes_up(&self, at: u64) -> bool {
        let found = self
            .sleeps_at
            .compare_exchange(at, AWAKE, Ordering::SeqCst, Ordering::SeqCst);
        found.is_ok()
    }

    /// Whether the thread sleeps, and nobody has woken it.
    pub fn is_asleep(&self) -> bool {
        self.sleeps_at.load(Ordering::SeqCst) != AWAKE
    }

    /// Waits until something changed since the count was this: looks so many times, and then
    /// sleeps.
    pub fn rest<R: Wait>(&self, rt: &R, count: u64, looks: u32) {
        for _ in 0..looks {
            if self.count() != count {
                return;
            }
            spin_loop();
        }
        self.sleeps_at.store(count, Ordering::SeqCst);
        self.count.park(rt, (count % (1 << 32)) as u32);
        self.sleeps_at.store(AWAKE, Ordering::SeqCst);
    }
}

//! How one thread waits for another: it looks a few times, and then sleeps until it is woken.

use std::hint::spin_loop;
use std::sync::Wait;
use std::sync::atomic::{AtomicU64, Ordering};
use std::thread::yield_now;
use std::time::Duration;

/// How often a thread only waits a moment before it looks again: if both run on processors of
/// their own, the next items come within a microsecond.
const SPINS: u32 = 2;

/// How many turns the first of these moments has. The next is twice as long.
const FIRST_SPINS: u32 = 4;

/// How often it looks before it sleeps, from then on letting other threads run in between: if
/// both share a processor, the other goes on then. All these looks take some 100 microseconds if
/// nothing else runs. A sleep with its wake takes as long, and on a virtual machine whose processor
/// stood still many times as long, in which the other thread runs ahead until it has to wait in its
/// turn.
const LOOKS: u32 = 256;

/// How long a thread dozes at most, in microseconds. Then it sleeps until it is woken.
const DOZE: u64 = 500;

/// How many changes are worth waking a thread that dozes: half a line.
const WORTH: u64 = 32;

/// The thread looks.
const AWAKE: u64 = 0;

/// It sleeps for a short time, or is about to.
const DOZING: u64 = 1;

/// It sleeps until it is woken, or is about to.
const ASLEEP: u64 = 2;

/// What a thread sleeps on until another wakes it. One thread sleeps at it, and one wakes it. No
/// contract speaks of it.
pub(crate) struct Parking {
    state: AtomicU64,
    /// How many changes the thread was not woken for while it dozes. The one who wakes it counts
    /// them.
    untold: AtomicU64,
}

impl Parking {
    /// A place at which no thread sleeps.
    fn new() -> Parking {
        Parking {
            state: AtomicU64::new(AWAKE),
            untold: AtomicU64::new(0),
        }
    }

    fn state(&self) -> u64 {
        self.state.load(Ordering::SeqCst)
    }

    fn set(&self, state: u64) {
        self.state.store(state, Ordering::SeqCst);
    }

    /// Comes after a change that the thread may wait for, and wakes it if it sleeps, but if
    /// it dozes only for many changes. The thread says that it is about to sleep before it looks
    /// for the last time, so no change is missed.
    pub(crate) fn tell(&self) {
        match self.state() {
            AWAKE => {}
            DOZING => {
                let untold = self.untold.load(Ordering::SeqCst).saturating_add(1);
                if untold < WORTH {
                    self.untold.store(untold, Ordering::SeqCst);
                } else {
                    self.wake();
                }
            }
            _ => self.wake(),
        }
    }

    /// Wakes the thread if it dozes and was not told of a change.
    fn wake_untold(&self) {
        if self.state() == DOZING && self.untold.load(Ordering::SeqCst) > 0 {
            self.wake();
        }
    }

    fn wake(&self) {
        self.untold.store(0, Ordering::SeqCst);
        self.set(AWAKE);
        self.state.wake_one();
    }
}

impl Drop for Parking {
    fn drop(self) {
        let Parking {
            state: _,
            untold: _,
        } = self;
    }
}

/// Where the caller of an active task sleeps, and where its thread does.
#[derive(Drop)]
pub struct Waits {
    pub(crate) caller: Parking,
    pub(crate) worker: Parking,
}

impl Waits {
    /// Both are awake.
    pub(crate) fn new() -> Waits {
        Waits {
            caller: Parking::new(),
            worker: Parking::new(),
        }
    }
}

/// How often a thread has looked in vain.
#[derive(Drop)]
pub(crate) struct Looks {
    made: u32,
}

impl Looks {
    /// It has not looked yet.
    pub(crate) fn new() -> Looks {
        Looks { made: 0 }
    }

    /// Comes after a look in vain: it waits a moment at first, then it lets other threads run, then
    /// it dozes, and in the end it sleeps. Before the last two the thread wakes the other one, for
    /// what that was not told of, and after it has said what it is about to do it looks once more.
    pub(crate) fn pause<R: Wait>(&mut self, rt: &R, at: &Parking, other: &Parking) {
        if self.made < SPINS {
            for _ in 0..FIRST_SPINS << self.made {
                spin_loop();
            }
            self.made += 1;
        } else if self.made < LOOKS {
            self.made += 1;
            yield_now();
        } else {
            self.rest(rt, at, other);
        }
    }

    fn rest<R: Wait>(&mut self, rt: &R, at: &Parking, other: &Parking) {
        match self.made.saturating_sub(LOOKS) {
            0 => {
                other.wake_untold();
                self.made = LOOKS + 1;
                at.set(DOZING);
            }
            1 => {
                self.made = LOOKS + 2;
                at.state
                    .park_timeout(rt, DOZING as u32, Duration::from_micros(DOZE));
            }
            2 => {
                self.made = LOOKS + 3;
                at.set(ASLEEP);
            }
            _ => {
                self.made = LOOKS;
                at.state.park(rt, ASLEEP as u32);
            }
        }
    }

    /// Comes after a look that was not in vain.
    pub(crate) fn end(&self, at: &Parking) {
        if self.made > LOOKS {
            at.set(AWAKE);
        }
    }
}

//! When a follower is promoted (POSA2, Leader/Followers). It decides who leads when, and of that no
//! contract speaks.

use std::sync::Wait;
use std::sync::atomic::{AtomicBool, AtomicU64, Ordering};
use std::time::Duration;

/// How many microseconds a follower dozes before it looks again: for two dozes an event may be
/// held up by an upcall that lasts.
const DOZE: u64 = 500;

/// How many microseconds a doze takes, with what the system takes to wake the follower.
const DOZED: u64 = 560;

/// How many microseconds a worker takes at least from one turn to the next, if another one
/// helps: with less the hand-over of the token costs more than is gained.
const WORTH: u64 = 5;

/// The turns of the workers that make their loops. A worker that comes back from its upcall settles
/// it and leads on, so that when upcalls are short those who are at it go on alone: a follower who
/// led would only wait at the net, and have to be woken there for the next settling. A follower is
/// promoted when upcalls wait that the others are too slow for, and when nobody leads.
#[derive(Drop)]
pub(crate) struct Turns {
    // How many workers make their loops.
    crew: AtomicU64,
    // How many of them are followers.
    followers: AtomicU64,
    // Rises when a turn begins and when it ends: it is odd while a leader has the token.
    count: AtomicU64,
    // Whether a follower sleeps until a turn ends.
    asleep: AtomicBool,
    // What a follower dozes on. It stays 0.
    doze: AtomicU64,
    // Whether a follower asks for what the turns are like; and of those since then, how many left
    // upcalls waiting, and how many waited for the token.
    asked: AtomicBool,
    waiting: AtomicU64,
    delayed: AtomicU64,
}

impl Turns {
    // No turns.
    pub(crate) fn new() -> Turns {
        Turns {
            crew: AtomicU64::new(0),
            followers: AtomicU64::new(0),
            count: AtomicU64::new(0),
            asleep: AtomicBool::new(false),
            doze: AtomicU64::new(0),
            asked: AtomicBool::new(false),
            waiting: AtomicU64::new(0),
            delayed: AtomicU64::new(0),
        }
    }

    // One more worker begins its loop.
    pub(crate) fn enter(&self) {
        self.crew.fetch_add(1, Ordering::SeqCst);
    }

    // A worker leaves its loop. It may have been the last that was no follower.
    pub(crate) fn leave(&self) {
        self.crew.fetch_sub(1, Ordering::SeqCst);
        self.doze.wake_all();
    }

    // A worker becomes a follower.
    pub(crate) fn follow(&self) {
        self.followers.fetch_add(1, Ordering::SeqCst);
    }

    // A follower is promoted.
    pub(crate) fn promote(&self) {
        self.asked.store(false, Ordering::SeqCst);
        self.followers.fetch_sub(1, Ordering::SeqCst);
    }

    // How many workers are no followers.
    fn active(&self) -> u64 {
        let followers = self.followers.load(Ordering::SeqCst);
        self.crew.load(Ordering::SeqCst).saturating_sub(followers)
    }

    // Whether the others are followers.
    pub(crate) fn is_alone(&self) -> bool {
        self.active() <= 1
    }

    // A turn begins. Tells whether it is counted: not if one worker alone makes its loop.
    pub(crate) fn begin(&self) -> bool {
        let counted = self.crew.load(Ordering::SeqCst) > 1;
        if counted {
            self.count.fetch_add(1, Ordering::SeqCst);
        }
        counted
    }

    // Whether a follower asks what the turns are like.
    pub(crate) fn is_asked(&self) -> bool {
        self.asked.load(Ordering::SeqCst)
    }

    // Tells a follower that a turn left upcalls that wait.
    pub(crate) fn tell_waiting(&self) {
        self.waiting.fetch_add(1, Ordering::SeqCst);
    }

    // Tells a follower, if one asks, that the token was held when a worker came to settle.
    pub(crate) fn tell_delayed(&self) {
        if self.is_asked() {
            self.delayed.fetch_add(1, Ordering::SeqCst);
        }
    }

    // A counted turn ends.
    pub(crate) fn end(&self) {
        self.count.fetch_add(1, Ordering::SeqCst);
    }

    // Wakes a follower that sleeps until a turn ends. A turn raises the count before this looks,
    // and a follower says that it sleeps before it looks at the count: so none sleeps on.
    pub(crate) fn rouse(&self) {
        if self.asleep.load(Ordering::SeqCst) {
            self.count.wake_all();
        }
    }

    // Waits until a follower is to be promoted.
    pub(crate) fn wait<R: Wait>(&self, rt: &R) {
        for _ in rt.forever() {
            let before = self.count.load(Ordering::SeqCst);
            if self.active() == 0 {
                return;
            }
            self.doze.park_timeout(rt, 0, Duration::from_micros(DOZE));
            let risen = self.count.load(Ordering::SeqCst).wrapping_sub(before);
            if risen > 0 {
                if self.is_wanted(risen / 2) {
                    return;
                }
            } else if before % 2 == 0 {
                return;
            } else {
                self.sleep_through(rt, before);
            }
        }
    }

    // Whether one more worker helps, if so many turns ended in a doze: if upcalls are not
    // short, most turns leave some that wait, and at most one in eight finds the token held. Else
    // those who are at it wait for events themselves, or for what is done under the token, as a
    // write.
    fn is_wanted(&self, turns: u64) -> bool {
        let helps = turns.saturating_mul(WORTH) <= self.active().saturating_mul(DOZED);
        let waiting = self.waiting.swap(0, Ordering::SeqCst).saturating_mul(2);
        let delayed = self.delayed.swap(0, Ordering::SeqCst).saturating_mul(8);
        let asked = self.asked.swap(helps, Ordering::SeqCst);
        helps && asked && turns < waiting && delayed <= turns
    }

    // Sleeps until the turn ends that began when the count was this.
    fn sleep_through<R: Wait>(&self, rt: &R, count: u64) {
        self.asleep.store(true, Ordering::SeqCst);
        self.count.park(rt, (count % (1 << 32)) as u32);
        self.asleep.store(false, Ordering::SeqCst);
    }
}

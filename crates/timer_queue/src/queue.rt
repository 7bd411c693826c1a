//! What every timer queue does.
ghost use Rattle.std.specs.Prelude.{◌≡◌, ◌≢◌, ◌≤◌, ◌<◌, ◌+◌, ◌∷◌, List, ℕ, length, All, false};
ghost use Rattle.std.specs.Prelude.{true, OnOk, OnErr, IsOk, IfSome, OnSome, IfNone, if◌then◌else◌};
ghost use Rattle.timer_queue.specs.declared.timer.Timer.{Timer};
ghost use Rattle.timer_queue.specs.Timers.{is_scheduled, is_rising, names_once, with_timer};
ghost use Rattle.timer_queue.specs.Timers.{without_timer, without_handle, first_deadline};

use crate::Timer;
use ev_types::{Handle, NoMemory};

/// A timer queue: the timers that are scheduled, in order of (deadline, timer), and places for
/// more.
///
/// Only `reserve` takes memory. `schedule` uses one spare place, and each timer that leaves gives
/// its place back.
pub trait TimerQueue {
    /// The timers that are scheduled, in order of (deadline, timer).
    ghost timers: { Self → List Timer };

    /// How many more timers may be scheduled before `reserve` is called again.
    ghost spare: { Self → ℕ };

    /// Makes at least `n` places spare. It answers `NoMemory` only if fewer were spare, and then
    /// all is as before.
    fn reserve(&mut self, n: usize) -> Result<(), NoMemory>
        ensures timers { timers self.new ≡ timers self.old }
        ensures spare { OnOk result (n ≤ spare self.new) }
        ensures kept { spare self.old ≤ spare self.new }
        ensures room { n ≤ spare self.old → IsOk result }
        ensures err { OnErr result (spare self.new ≡ spare self.old) };

    /// Schedules a timer, in one spare place.
    fn schedule(&mut self, t: Timer)
        requires room { 1 ≤ spare self.old }
        requires fresh { is_scheduled t.timer (timers self.old) ≡ false }
        ensures timers { timers self.new ≡ with_timer t (timers self.old) }
        ensures spare { spare self.new + 1 ≡ spare self.old };

    /// Takes the timer of this number out, and answers whether it was there.
    fn cancel(&mut self, timer: u64) -> bool
        ensures found { result ≡ is_scheduled timer (timers self.old) }
        ensures timers { timers self.new ≡ without_timer timer (timers self.old) }
        ensures spare { spare self.new ≡ spare self.old + (if result then 1 else 0) };

    /// Takes the timers of this handle out.
    fn cancel_all(&mut self, handle: Handle)
        ensures timers { timers self.new ≡ without_handle handle.0 (timers self.old) }
        ensures spare { spare self.new + length (timers self.new)
            ≡ spare self.old + length (timers self.old) }
        ensures kept { spare self.old ≤ spare self.new };

    /// The earliest deadline, or `None` if no timer is scheduled.
    fn earliest(&self) -> Option<u64>
        ensures first { result ≡ first_deadline (timers self.now) }

        // What is true of each timer queue at each moment.
        ensures rising { is_rising (timers self.now) ≡ true }
        ensures once { names_once (timers self.now) ≡ true };

    /// Takes out the first timer whose deadline is at most `now`, or answers `None` if there is
    /// none.
    fn pop_due(&mut self, now: u64) -> Option<Timer>
        ensures taken { IfSome result (λ t. timers self.old ≡ t ∷ timers self.new) }
        ensures due { IfSome result (λ t. t.deadline ≤ now) }
        ensures spare { OnSome result (spare self.new ≡ spare self.old + 1) }
        ensures none { IfNone result (All (λ t. now < t.deadline) (timers self.old)) }
        ensures unchanged { IfNone result (timers self.new ≡ timers self.old) }
        ensures kept { IfNone result (spare self.new ≡ spare self.old) };
}

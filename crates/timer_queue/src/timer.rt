//! One timer.
ghost use Rattle.std.specs.Prelude.{◌≡◌};

use ev_types::Handle;

/// A timer of an event handler (C++NPv2 section 3.4).
#[derive(Clone, Copy, PartialEq, Eq, Hash, Debug)]
pub struct Timer {
    /// The moment at which it comes due, in milliseconds.
    pub deadline: u64,
    /// The timer's number: timers are numbered from 0 in the order in which they are first
    /// scheduled.
    pub timer: u64,
    /// The handle whose event handler is called.
    pub handle: Handle,
    /// The period in milliseconds, or 0 for a timer that comes due once.
    pub every: u64,
}

impl Timer {
    ghost use Rattle.timer_queue.specs.Timers.{comes_before};

    /// Whether this timer comes before the other in order of (deadline, timer).
    pub fn comes_before(&self, other: &Timer) -> bool
        ensures { result ≡ comes_before self.now other.now }
    {
        self.deadline < other.deadline
            || (self.deadline == other.deadline && self.timer < other.timer)
    }
}

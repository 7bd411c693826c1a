//! The three timer queues side by side.

ghost use Rattle.std.specs.Prelude.{◌≡◌, IfOk, OnOk};
ghost use Rattle.test_parts.specs.Replies.{reply_of, timers_after};

use ev_base::{Handle, NoMemory};
use timer_queue::{Timer, TimerQueue};

/// A call of a timer queue.
#[derive(Clone, Copy, Debug)]
pub enum Call {
    /// Schedules the timer, in place of one that has its number.
    Schedule(Timer),
    /// Cancels the timer of this number.
    Cancel(u64),
    /// Cancels the timers of this handle.
    CancelAll(Handle),
    /// Asks for the earliest deadline.
    Earliest,
    /// Takes out the first timer that is due at this moment.
    PopDue(u64),
}

/// What a call answers.
#[derive(Clone, Copy, PartialEq, Eq, Debug)]
pub enum Reply {
    /// Whether a timer of the number was there.
    WasThere(bool),
    /// Nothing.
    Done,
    /// The earliest deadline.
    Deadline(Option<u64>),
    /// The timer that was due.
    Due(Option<Timer>),
}

/// Makes one call of a timer queue. What it answers and leaves depends on the list of timers alone,
/// so any two timer queues answer alike.
pub fn reply_to<Q: TimerQueue>(queue: &mut Q, call: Call) -> Result<Reply, NoMemory>
    ensures reply { IfOk result (λ r. r ≡ reply_of call (Q.timers queue.old)) }
    ensures timers { OnOk result (Q.timers queue.new ≡ timers_after call (Q.timers queue.old)) }
{
    match call {
        Call::Schedule(t) => {
            let was_there = queue.cancel(t.timer);
            queue.reserve(1)?;
            queue.schedule(t);
            Ok(Reply::WasThere(was_there))
        }
        Call::Cancel(timer) => Ok(Reply::WasThere(queue.cancel(timer))),
        Call::CancelAll(handle) => {
            queue.cancel_all(handle);
            Ok(Reply::Done)
        }
        Call::Earliest => Ok(Reply::Deadline(queue.earliest())),
        Call::PopDue(now) => Ok(Reply::Due(queue.pop_due(now))),
    }
}

#[cfg(test)]
mod shapes;
#[cfg(test)]
mod tests;

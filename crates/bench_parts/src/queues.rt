//! Timers scheduled in a timer queue, and all expired.
ghost use Rattle.std.specs.Prelude.{◌≡◌, ◌≤◌, []};

use ev_types::{Handle, NoMemory};
use timer_queue::{Timer, TimerQueue};

/// Schedules so many timers with scattered deadlines and expires them, in one queue so often. The
/// answer is how many expired.
pub fn run<Q: TimerQueue>(queue: &mut Q, size: u64, rounds: u64) -> Result<u64, NoMemory> {
    let mut expired = 0u64;
    for _ in 0..rounds {
        if queue.earliest().is_some() {
            return Ok(expired);
        }
        queue.reserve(size as usize)?;
        fill(queue, expired, size);
        for _ in 0..size {
            if queue.pop_due(u64::MAX).is_some() {
                expired = expired.saturating_add(1);
            }
        }
    }
    Ok(expired)
}

/// Schedules so many timers, whose numbers rise from `first` on as those of a reactor do.
fn fill<Q: TimerQueue>(queue: &mut Q, first: u64, size: u64)
    requires empty { Q.timers queue.old ≡ [] }
    requires room { size ≤ Q.spare queue.old }
{
    let Some(end) = first.checked_add(size) else {
        return;
    };
    for timer in first..end {
        queue.schedule(Timer {
            deadline: deadline_of(timer),
            timer,
            handle: Handle(timer % 64),
            every: 0,
        });
    }
}

/// A deadline below 2^20 milliseconds that looks random.
pub fn deadline_of(timer: u64) -> u64 {
    timer.wrapping_mul(0x9e37_79b9_7f4a_7c15) >> 44
}

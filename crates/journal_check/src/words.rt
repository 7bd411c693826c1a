//! Tests of single words, as the definitions have them.

ghost use Rattle.std.specs.Prelude.{◌≡◌, ◌<◌, ◌≤◌, ◌+◌, ◌*◌, ◌^◌, IfSome, None};
ghost use Rattle.reactor_journal.specs.Past as P;
ghost use Rattle.reactor_journal.specs.Follow as F;
ghost use Rattle.journal_check.specs.Queue as Q;

use ev_types::{Handle, Upcall};
use reactor_journal::Entry;
use reactor_summary::WaitingEvent;

/// The class of an upcall: the smaller goes first.
pub fn class_of(upcall: Upcall) -> usize
    ensures { result ≡ P.class_of upcall }
{
    match upcall {
        Upcall::Timeout { .. } => 0,
        Upcall::Notice { .. } => 1,
        Upcall::Output => 2,
        Upcall::Except => 3,
        Upcall::Input => 4,
    }
}

/// The lane of an event: five for each handle, one for each class.
pub fn lane_of(event: &WaitingEvent) -> u64
    requires { Q.IsNarrow event.now }
    ensures { result ≡ Q.lane_of event.now }
{
    event.handle.0 * 5 + class_of(event.upcall) as u64
}

/// The first of the five lanes of a handle, if all five fit a word.
pub fn first_lane(handle: Handle) -> Option<u64>
    ensures lane { IfSome result (λ n. n ≡ handle.0 * 5 × n + 4 < 2 ^ 64) }
    ensures none { result ≡ None → 2 ^ 64 ≤ handle.0 * 5 + 4 }
{
    if handle.0 < u64::MAX / 5 {
        Some(handle.0 * 5)
    } else {
        None
    }
}

/// The timer of a timeout.
pub fn timer_of(upcall: Upcall) -> Option<u64>
    ensures { result ≡ Q.timer_of upcall }
{
    match upcall {
        Upcall::Timeout { timer } => Some(timer),
        _ => None,
    }
}

/// Whether it is that number.
pub fn is_number(number: Option<u64>, event: u64) -> bool
    ensures { result ≡ Q.is_num event number }
{
    match number {
        Some(number) => number == event,
        None => false,
    }
}

/// Whether the entry may stand after `Ended`.
pub fn winds_up<N>(entry: &Entry<N>) -> bool
    ensures { result ≡ F.winds_up entry.now }
{
    match entry {
        Entry::Returned { .. } => true,
        Entry::Removed { .. } => true,
        Entry::Closed { .. } => true,
        Entry::Refused { .. } => true,
        _ => false,
    }
}

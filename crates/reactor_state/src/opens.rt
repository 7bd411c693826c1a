//! The open events, in the order in which they were started. There are as many as upcalls are open
//! at once, so they are searched from end to end.

ghost use Rattle.std.specs.Prelude.{◌≡◌, ◌≤◌, ◌==◌, not, length, filter, vec_capacity};
ghost use Rattle.std.specs.List.{list_any, find};

use ev_types::Handle;
use reactor_summary::OpenEvent;

/// Whether one of the handle's events is open.
pub fn is_busy(opens: &[OpenEvent], handle: Handle) -> bool
    ensures { result ≡ list_any (λ o. o.handle.0 == handle.0) opens.now }
{
    opens.iter().any(|o| o.handle.0 == handle.0)
}

/// The event, if it is open.
#[tactic(auto, using(crate::proofs::Lists::find_more))]
pub fn find_open(opens: &[OpenEvent], event: u64) -> Option<OpenEvent>
    ensures { result ≡ find (λ o. o.event == event) opens.now }
{
    for o in opens {
        if o.event == event {
            return Some(*o);
        }
    }
    None
}

/// Takes the event away.
pub fn settle(opens: &mut Vec<OpenEvent>, event: u64)
    ensures items { opens.new.items ≡ filter (λ o. not (event == o.event)) opens.old.items }
    ensures len { length opens.new.items ≤ length opens.old.items }
    ensures capacity { vec_capacity opens.new ≡ vec_capacity opens.old }
{
    opens.retain(|o| event != o.event);
}

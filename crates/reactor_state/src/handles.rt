//! The live handles, in rising order of their numbers.

ghost use Rattle.std.specs.Prelude.{◌≡◌, ◌<◌, ◌≤◌, ◌+◌, ◌==◌, ◌&&◌, not, nat_le, false, length};
ghost use Rattle.std.specs.Prelude.{map, filter, vec_capacity, MatchOption, IfSome, if◌then◌else◌};
ghost use Rattle.std.specs.List.{list_any, find, HoldsAt, AllWithin};
ghost use Rattle.std.specs.Option.{option_map};
ghost use Rattle.reactor_summary.specs.reactor_journal.specs.Past as P;
ghost use Rattle.reactor_summary.specs.Summary as S;
ghost use Rattle.reactor_state.specs.Sound.{IfRising};
ghost use Rattle.reactor_state.specs.Tables.{alive_count};

use ev_types::{Handle, Kind, Mask};
use handle_search::{first_from, place_of};
use reactor_summary::{LiveHandle, has_kind};

/// The handle, if it is live.
pub fn find_live(handles: &[LiveHandle], handle: Handle) -> Option<LiveHandle>
    ensures { IfRising handles.now (result ≡ find (λ h. h.handle.0 == handle.0) handles.now) }
{
    match place_of(handles, handle) {
        Some(place) => Some(handles[place]),
        None => None,
    }
}

/// Whether the handle is alive.
pub fn is_alive(handles: &[LiveHandle], handle: Handle) -> bool
    ensures { IfRising handles.now (result ≡ list_any (λ h. h.handle.0 == handle.0 && h.alive)
        handles.now) }
{
    match find_live(handles, handle) {
        Some(h) => h.alive,
        None => false,
    }
}

/// Whether it is alive and not suspended.
pub fn is_resumed(handles: &[LiveHandle], handle: Handle) -> bool
    ensures { IfRising handles.now (result ≡ list_any
        (λ h. h.handle.0 == handle.0 && (h.alive && not h.suspended)) handles.now) }
{
    match find_live(handles, handle) {
        Some(h) => h.alive && !h.suspended,
        None => false,
    }
}

/// Whether it is alive and wants reports of the kind.
pub fn is_wanted(handles: &[LiveHandle], handle: Handle, kind: Kind) -> bool
    ensures { IfRising handles.now (result ≡ list_any
        (λ h. h.handle.0 == handle.0 && (h.alive && P.has_kind h.mask kind)) handles.now) }
{
    match find_live(handles, handle) {
        Some(h) => h.alive && has_kind(h.mask, kind),
        None => false,
    }
}

/// The first of these handles that is alive.
#[tactic(auto, using(crate::proofs::Lists::find_more))]
fn first_alive(handles: &[LiveHandle]) -> Option<Handle>
    ensures { result ≡ option_map (λ h. h.handle) (find (λ h. h.alive) handles.now) }
{
    for h in handles {
        if h.alive {
            return Some(h.handle);
        }
    }
    None
}

/// The first alive handle that is not below this one.
pub fn next_alive(handles: &[LiveHandle], from: Handle) -> Option<Handle>
    ensures { IfRising handles.now (result ≡ option_map (λ h. h.handle)
        (find (λ h. nat_le from.0 h.handle.0 && h.alive) handles.now)) }
{
    let place = first_from(handles, from);
    first_alive(&handles[place..])
}

/// Sets the mask of the handle.
pub fn set_mask(handles: &mut Vec<LiveHandle>, handle: Handle, mask: Mask)
    ensures items { IfRising handles.old.items (handles.new.items
        ≡ map (S.with_mask handle.0 mask) handles.old.items) }
    ensures len { length handles.new.items ≡ length handles.old.items }
    ensures capacity { vec_capacity handles.new ≡ vec_capacity handles.old }
{
    if let Some(place) = place_of(handles, handle) {
        let h = &mut handles[place];
        h.mask = mask;
    }
}

/// Suspends the handle, or resumes it.
pub fn set_suspended(handles: &mut Vec<LiveHandle>, handle: Handle, suspended: bool)
    ensures items { IfRising handles.old.items (handles.new.items
        ≡ map (S.with_suspended handle.0 suspended) handles.old.items) }
    ensures len { length handles.new.items ≡ length handles.old.items }
    ensures capacity { vec_capacity handles.new ≡ vec_capacity handles.old }
{
    if let Some(place) = place_of(handles, handle) {
        let h = &mut handles[place];
        h.suspended = suspended;
    }
}

/// Ends the life of the handle, and answers whether it was alive.
pub fn end_life(handles: &mut Vec<LiveHandle>, handle: Handle) -> bool
    ensures items { IfRising handles.old.items (handles.new.items
        ≡ map (S.with_end (S.of_handle handle)) handles.old.items) }
    ensures alive { alive_count handles.new.items + (if result then 1 else 0)
        ≡ alive_count handles.old.items }
    ensures len { length handles.new.items ≡ length handles.old.items }
    ensures capacity { vec_capacity handles.new ≡ vec_capacity handles.old }
{
    match place_of(handles, handle) {
        None => false,
        Some(place) => {
            let h = &mut handles[place];
            let was_alive = h.alive;
            h.alive = false;
            was_alive
        }
    }
}

/// Takes the handle away, and answers whether it was alive.
pub fn close(handles: &mut Vec<LiveHandle>, handle: Handle) -> bool
    ensures items { IfRising handles.old.items (handles.new.items
        ≡ filter (λ h. not (handle.0 == h.handle.0)) handles.old.items) }
    ensures alive { alive_count handles.new.items + (if result then 1 else 0)
        ≡ alive_count handles.old.items }
    ensures len { length handles.new.items ≤ length handles.old.items }
    ensures capacity { vec_capacity handles.new ≡ vec_capacity handles.old }
{
    match place_of(handles, handle) {
        None => false,
        Some(place) => handles.remove(place).alive,
    }
}

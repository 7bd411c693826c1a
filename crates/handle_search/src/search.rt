//! The search among all elements.
ghost use Rattle.std.specs.Prelude.{◌≡◌, ◌≢◌, ◌<◌, ◌≤◌, ℕ, length, All, MatchOption};
ghost use Rattle.std.specs.List.{AllWithin};
ghost use Rattle.handle_search.specs.Rising.{IsPlaceOf, IsRising};

use crate::guess::near;
use ev_types::Handle;

/// What belongs to a handle.
pub trait HasHandle {
    /// The number of the handle.
    ghost number: { Self → ℕ };

    /// The handle.
    fn handle(&self) -> Handle
        ensures { result.0 ≡ number self.now };
}

/// The place of the first element whose handle is not below this one, in a slice that is in rising
/// order of handle.
pub fn first_from<T: HasHandle>(items: &[T], handle: Handle) -> usize
    ensures bound { result ≤ length items.now }
    ensures below { IsRising T.number items.now → AllWithin (λ item. T.number item < handle.0)
        items.now 0 result }
    ensures above { IsRising T.number items.now → AllWithin (λ item. handle.0 ≤ T.number item)
        items.now result (length items.now) }
{
    items.partition_point(|item| item.handle().0 < handle.0)
}

// The place of this handle, by bisection among all.
fn bisected<T: HasHandle>(items: &[T], handle: Handle) -> Option<usize>
    ensures { MatchOption result
        (IsRising T.number items.now → All (λ item. T.number item ≢ handle.0) items.now)
        (λ place. IsPlaceOf T.number items.now handle.0 place) }
{
    let place = first_from(items, handle);
    if place < items.len() && items[place].handle().0 == handle.0 {
        Some(place)
    } else {
        None
    }
}

/// The place of the element of this handle in a slice that is in rising order of handle, None if
/// there is none. It is found at once if no number is missing before it or after it, and else
/// sought by bisection, with a guess first.
pub fn place_of<T: HasHandle>(items: &[T], handle: Handle) -> Option<usize>
    ensures { MatchOption result
        (IsRising T.number items.now → All (λ item. T.number item ≢ handle.0) items.now)
        (λ place. IsPlaceOf T.number items.now handle.0 place) }
{
    match near(items, handle) {
        Some(place) => Some(place),
        None => bisected(items, handle),
    }
}

//! A guess of the place of a handle, from how far its number is from the numbers of others.
ghost use Rattle.std.specs.Prelude.{IfSome};
ghost use Rattle.handle_search.specs.Rising.{IsPlaceOf};

use crate::search::HasHandle;
use ev_types::Handle;

// How many probes `sought` makes at most: each after the first at least halves how many places are
// left.
const PROBES: u32 = 64;

// The place of this handle, sought between two places with the guess first. No two handles have one
// number, so it stands at most as many places from a probe as its number is from the number there.
// Within that it is sought by bisection.
fn sought<T: HasHandle>(
    items: &[T],
    handle: Handle,
    guess: usize,
    low: usize,
    high: usize,
) -> Option<usize>
    ensures { IfSome result (λ place. IsPlaceOf T.number items.now handle.0 place) }
{
    let (mut low, mut high, mut place) = (low, high, guess);
    for _ in 0..PROBES {
        let number = items.get(place)?.handle().0;
        if number == handle.0 {
            return Some(place);
        }
        if number < handle.0 {
            low = place.saturating_add(1);
            high = high.min(place.saturating_add((handle.0 - number) as usize));
        } else {
            high = place.checked_sub(1)?;
            low = low.max(place.saturating_sub((number - handle.0) as usize));
        }
        place = low + high.checked_sub(low)? / 2;
    }
    None
}

// The place of this handle, guessed. No two handles have one number, so it stands at most as many
// places from the first and from the last element as its number is from theirs: just so many, if
// no number between is missing. Else the guess is where it would stand if the missing numbers were
// spread evenly, and it is sought from there. A guess that is far off costs probes and nothing
// else.
pub fn near<T: HasHandle>(items: &[T], handle: Handle) -> Option<usize>
    ensures { IfSome result (λ place. IsPlaceOf T.number items.now handle.0 place) }
{
    let last = items.len().checked_sub(1)?;
    let before = handle.0.checked_sub(items[0].handle().0)?;
    let behind = items[last].handle().0.checked_sub(handle.0)?;
    let high = last.min(before as usize);
    if items[high].handle().0 == handle.0 {
        return Some(high);
    }
    let low = last.saturating_sub(behind as usize);
    if items[low].handle().0 == handle.0 {
        return Some(low);
    }
    let numbers = before.saturating_add(behind);
    let guess = before.saturating_mul(last as u64).checked_div(numbers)? as usize;
    sought(items, handle, guess, low, high)
}

//! Hints: for a tick, a place near which its timers stood. A hint may be out of date, so that it is
//! only a place to try.
ghost use Rattle.std.specs.Prelude.{◌≡◌, ◌≢◌, ◌<◌, ℕ, true, length, slice_get, Some};
ghost use Rattle.timer_queue.specs.Timers.{comes_before};
ghost use Rattle.timer_wheel.specs.declared.place.Place.{Place};
ghost use Rattle.timer_wheel.specs.Spokes.{spoke_of};

use crate::Place;
use crate::chain::{Chains, spoke};
use timer_queue::Timer;

// The turns of the wheel before a timer's own of which the hints are tried.
const TURNS: usize = 8;

// The places of a chain that are looked at before the hints.
const NEAR: usize = 3;

// Whether a timer stands, or would stand, among the first places of a chain.
fn is_near(places: &[Place], head: Option<usize>, t: &Timer) -> bool {
    let mut at = head;
    for _ in 0..NEAR {
        let Some(k) = at else {
            return true;
        };
        match places.get(k) {
            Some(place) if place.timer.comes_before(t) => at = place.next,
            _ => return true,
        }
    }
    false
}

// The hint of a tick, if there are hints.
fn hint_of(hints: &[usize], tick: u64) -> Option<usize> {
    if hints.is_empty() {
        return None;
    }
    Some(hints[(tick % hints.len() as u64) as usize])
}

// Whether the timer at a place stands in this spoke and comes before this one.
fn is_start(
    places: &[Place],
    k: usize,
    spokes: usize,
    resolution: u64,
    own: usize,
    t: &Timer,
) -> bool
    requires spokes { 0 < spokes }
    requires ticks { 0 < resolution }
    ensures { (p : Place) → result ≡ true → slice_get places.now k ≡ Some p
        → (spoke_of spokes resolution p.timer.deadline ≡ own)
        × (comes_before p.timer t.now ≡ true) }
{
    match places.get(k) {
        Some(place) => {
            place.timer.comes_before(t) && spoke(spokes, resolution, place.timer.deadline) == own
        }
        None => false,
    }
}

impl Chains {
    // A place but `hole` whose timer stands in the spoke of this one and comes before it, if a
    // hint names one and the head is not near.
    pub fn start_for(&self, head: Option<usize>, t: &Timer, hole: usize) -> Option<usize>
        requires spokes { 0 < length self.now.heads.items }
        requires ticks { 0 < self.now.resolution }
        ensures { (k : ℕ) (p : Place) → result ≡ Some k → slice_get self.now.places.items k ≡ Some p
            → (k ≢ hole)
            × (spoke_of (length self.now.heads.items) self.now.resolution p.timer.deadline
            ≡ spoke_of (length self.now.heads.items) self.now.resolution t.now.deadline)
            × (comes_before p.timer t.now ≡ true) }
    {
        if is_near(&self.places, head, t) {
            return None;
        }
        let spokes = self.heads.len();
        let own = spoke(spokes, self.resolution, t.deadline);
        let mut tick = t.deadline / self.resolution;
        for _ in 0..TURNS {
            let k = hint_of(&self.hints, tick)?;
            if k != hole && is_start(&self.places, k, spokes, self.resolution, own, t) {
                return Some(k);
            }
            tick = tick.checked_sub(spokes as u64)?;
        }
        None
    }
}

// Names this place for the tick of a timer.
pub fn name_place(hints: &mut Vec<usize>, resolution: u64, t: &Timer, place: usize)
    requires { 0 < resolution }
{
    if hints.is_empty() {
        return;
    }
    let at = ((t.deadline / resolution) % hints.len() as u64) as usize;
    hints[at] = place;
}

// Has the hint of a timer that moves from the last place follow it, as one that names no place any
// more.
pub fn follow(hints: &mut Vec<usize>, resolution: u64, t: &Timer, last: usize, place: usize)
    requires { 0 < resolution }
{
    if hint_of(hints, t.deadline / resolution).is_some_and(|k| k >= last) {
        name_place(hints, resolution, t, place);
    }
}

// Makes as many hints as there is room for, and names each place.
pub fn fill_up(hints: &mut Vec<usize>, places: &[Place], resolution: u64)
    requires { 0 < resolution }
{
    while hints.len() < hints.capacity() {
        hints.push_reserved(usize::MAX);
    }
    for (k, place) in places.iter().enumerate() {
        name_place(hints, resolution, &place.timer, k);
    }
}

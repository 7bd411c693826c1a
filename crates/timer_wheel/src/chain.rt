//! The chains of a wheel: the places of each spoke, linked in order of (deadline, timer).
ghost use Rattle.std.specs.Prelude.{◌≡◌, ◌<◌, ◌≤◌, ◌++◌, ◌∷◌, [], List, length, true, false};
ghost use Rattle.std.specs.Prelude.{vec_len, vec_capacity, replicate, None, Some, IfOk, IfSome};
ghost use Rattle.std.specs.Prelude.{IfNone, slice_get, Contains};
ghost use Rattle.std.specs.List.Sorted.{IsPermutation};
ghost use Rattle.timer_queue.specs.declared.timer.Timer.{Timer};
ghost use Rattle.timer_queue.specs.Timers.{is_rising, is_scheduled, with_timer, without_timer};
ghost use Rattle.timer_queue.specs.Timers.{in_order, AreApart, IsSchedule};
ghost use Rattle.timer_wheel.specs.declared.place.Place.{Place};
ghost use Rattle.timer_wheel.specs.Spokes.{Follows, spoke_of, timers_of};
ghost use Rattle.timer_wheel.specs.Index.{entry_of_timer};
ghost use Rattle.timer_wheel.specs.Chains.{IsGap, IsStart, ComesForward, Walked, HasAllBut};
ghost use Rattle.timer_wheel.specs.Chains.{linked_heads, linked_places};
ghost use Rattle.timer_wheel.specs.Linked.{AreChains, HaveChains, KeepShape, timers_in};

use crate::Place;
use crate::hint::{follow, name_place};
use ev_types::Handle;
use std::alloc::{AllocError, Global};
use timer_index::Numbered;
use timer_queue::Timer;

/// The chains of a wheel.
#[derive(Drop)]
pub struct Chains {
    // The first place of each spoke.
    pub heads: Vec<Option<usize>>,
    // The timers that are scheduled. Each is in the chain of its spoke.
    pub places: Vec<Place>,
    // For ticks, places near which their timers stand. One may be out of date: it is looked at only
    // for where to begin.
    pub hints: Vec<usize>,
    // The milliseconds of a tick.
    pub resolution: u64,
}

/// Where a timer stands, or would stand, in a chain.
#[derive(Clone, Copy)]
pub struct Gap {
    // The last place whose timer comes before it.
    pub last: Option<usize>,
    // The place after that.
    pub at: Option<usize>,
}

// The spoke of a deadline.
pub fn spoke(spokes: usize, resolution: u64, deadline: u64) -> usize
    requires spokes { 0 < spokes }
    requires ticks { 0 < resolution }
    ensures is { result ≡ spoke_of spokes resolution deadline }
    ensures within { result < spokes }
{
    ((deadline / resolution) % spokes as u64) as usize
}

// Where the way to a timer begins: after a place whose timer comes before it, or at the head of
// the chain.
fn start_of(places: &[Place], head: Option<usize>, start: Option<usize>) -> Gap
    requires { AreApart (timers_of places.now) }
    ensures { (t : Timer) (timers : List Timer) → Follows places.now head timers
        → is_rising timers ≡ true → IsStart places.now timers t start
        → Walked places.now head t timers result.last result.at }
{
    let Some(k) = start else {
        return Gap {
            last: None,
            at: head,
        };
    };
    let Some(place) = places.get(k) else {
        return Gap {
            last: None,
            at: head,
        };
    };
    Gap {
        last: start,
        at: place.next,
    }
}

// Goes along a chain over the timers that come before this one.
fn gap_of(places: &[Place], head: Option<usize>, start: Option<usize>, t: &Timer) -> Gap
    requires { AreApart (timers_of places.now) }
    ensures { (timers : List Timer) → Follows places.now head timers
        → length timers ≤ length places.now → is_rising timers ≡ true
        → IsStart places.now timers t.now start
        → IsGap places.now head t.now timers result.last result.at }
{
    let begin = start_of(places, head, start);
    let mut last = begin.last;
    let mut at = begin.at;
    'chain: for _ in 0..places.len() {
        let Some(k) = at else {
            return Gap { last, at };
        };
        let Some(place) = places.get(k) else {
            return Gap { last, at };
        };
        if !place.timer.comes_before(t) {
            return Gap { last, at };
        }
        last = at;
        at = place.next;
    }
    Gap { last, at }
}

// As many heads as this, with no chain.
fn no_heads(alloc: Global, spokes: usize) -> Result<Vec<Option<usize>>, AllocError>
    ensures { IfOk result (λ heads. heads.items ≡ replicate spokes None) }
{
    vec![in alloc; None; spokes]
}

impl Chains {
    // The chains of so many spokes, with no timer.
    pub fn new(alloc: Global, spokes: usize, resolution: u64) -> Result<Chains, AllocError>
        ensures heads { IfOk result (λ c. c.heads.items ≡ replicate spokes None) }
        ensures places { IfOk result (λ c. c.places.items ≡ []) }
        ensures ticks { IfOk result (λ c. c.resolution ≡ resolution) }
    {
        let heads = no_heads(alloc, spokes)?;
        Ok(Chains {
            heads,
            places: Vec::new(alloc),
            hints: Vec::new(alloc),
            resolution,
        })
    }

    // Has the place `last`, or if there is none the spoke's head, lead to this place.
    fn link(&mut self, spoke: usize, last: Option<usize>, to: Option<usize>)
        requires { spoke < length self.old.heads.items }
        ensures heads { self.new.heads.items ≡ linked_heads self.old.heads.items spoke last to }
        ensures places { self.new.places.items ≡ linked_places self.old.places.items last to }
        ensures ticks { self.new.resolution ≡ self.old.resolution }
        ensures capacity { vec_capacity self.new.places ≡ vec_capacity self.old.places }
    {
        let Some(q) = last else {
            self.heads[spoke] = to;
            return;
        };
        if let Some(place) = self.places.get_mut(q) {
            place.next = to;
        }
    }

    // Puts a timer in, in its place in the chain of its spoke.
    pub fn add(&mut self, t: Timer)
        requires room { vec_len self.old.places < vec_capacity self.old.places }
        requires fresh { is_scheduled t.timer (timers_in self.old) ≡ false }
        requires chains { AreChains self.old }
        ensures timers { timers_in self.new ≡ timers_in self.old ++ t ∷ [] }
        ensures shape { KeepShape self.old self.new }
        ensures chains { HaveChains self.new (with_timer t (in_order (timers_in self.old))) }
    {
        let spoke = spoke(self.heads.len(), self.resolution, t.deadline);
        let head = self.heads[spoke];
        let place = self.places.len();
        let start = self.start_for(head, &t, place);
        let gap = gap_of(&self.places, head, start, &t);
        self.places.push_reserved(Place {
            timer: t,
            next: gap.at,
        });
        self.link(spoke, gap.last, Some(place));
        name_place(&mut self.hints, self.resolution, &t, place);
    }

    // The timer of an entry, if it is there. It is looked for in the chain of its spoke, from a
    // hint on.
    pub fn find(&self, entry: Numbered) -> Option<Timer>
        requires { AreChains self.now }
        ensures there { IfSome result (λ t. Contains (timers_in self.now) t) }
        ensures number { IfSome result (λ t. t.timer ≡ entry.timer) }
        ensures none { IfNone result ((t : Timer) → Contains (timers_in self.now) t
            → entry_of_timer t ≡ entry → ⊥) }
    {
        let sought = Timer {
            deadline: entry.key,
            timer: entry.timer,
            handle: Handle(0),
            every: 0,
        };
        let spoke = spoke(self.heads.len(), self.resolution, entry.key);
        let head = self.heads[spoke];
        let start = self.start_for(head, &sought, self.places.len());
        let gap = gap_of(&self.places, head, start, &sought);
        let Some(k) = gap.at else { return None };
        let Some(place) = self.places.get(k) else {
            return None;
        };
        if place.timer.timer == entry.timer {
            Some(place.timer)
        } else {
            None
        }
    }

    // Moves the last place into one that no chain leads to.
    fn fill(&mut self, hole: usize)
        requires ticks { 0 < self.old.resolution }
        requires spokes { 0 < length self.old.heads.items }
        requires within { hole < length self.old.places.items }
        requires apart { AreApart (timers_in self.old) }
        ensures chains { (timers : List Timer) → IsSchedule timers
            → HasAllBut hole self.old.places.items timers
            → length timers ≤ length self.old.places.items → HaveChains self.old timers
            → HaveChains self.new timers }
        ensures timers { (p : Place) → slice_get self.old.places.items hole ≡ Some p
            → IsPermutation (timers_in self.old) (p.timer ∷ timers_in self.new) }
        ensures shape { KeepShape self.old self.new }
        ensures forward { ComesForward self.old.places.items self.new.places.items }
    {
        let last = self.places.len() - 1;
        if hole == last {
            self.places.pop();
            return;
        }
        let moved = self.places[last].timer;
        let spoke = spoke(self.heads.len(), self.resolution, moved.deadline);
        let head = self.heads[spoke];
        let start = self.start_for(head, &moved, hole);
        let gap = gap_of(&self.places, head, start, &moved);
        self.link(spoke, gap.last, Some(hole));
        self.places.swap_remove(hole);
        follow(&mut self.hints, self.resolution, &moved, last, hole);
    }

    // Takes a timer out of its chain, and its place with it.
    pub fn take_out(&mut self, t: Timer)
        requires there { Contains (timers_in self.old) t }
        requires chains { AreChains self.old }
        ensures timers { IsPermutation (timers_in self.old) (t ∷ timers_in self.new) }
        ensures shape { KeepShape self.old self.new }
        ensures chains { HaveChains self.new
            (without_timer t.timer (in_order (timers_in self.old))) }
        ensures forward { ComesForward self.old.places.items self.new.places.items }
    {
        let spoke = spoke(self.heads.len(), self.resolution, t.deadline);
        let head = self.heads[spoke];
        let start = self.start_for(head, &t, self.places.len());
        let gap = gap_of(&self.places, head, start, &t);
        let Some(place) = gap.at else { unreachable!() };
        let next = self.places[place].next;
        self.link(spoke, gap.last, next);
        self.fill(place);
    }
}

//! The timer wheel.
ghost use Rattle.std.specs.Prelude.{◌≡◌, ◌≤◌, ◌<◌, ℕ, [], IfOk, length, slice_index_or, None};
ghost use Rattle.std.specs.Prelude.{Contains, ◌∷◌, vec_capacity};
ghost use Rattle.std.specs.List.Sorted.{IsPermutation};
ghost use Rattle.timer_queue.specs.Timers.{in_order};
ghost use Rattle.timer_wheel.specs.Chains.{ComesForward, IsWheel};
ghost use Rattle.timer_wheel.specs.Linked.{KeepShape, timers_in};
ghost use Rattle.timer_wheel.specs.Spokes.{timers_of, of_spoke, Follows};

use crate::Place;
use crate::chain::Chains;
use crate::first::{earlier, is_behind};
use crate::hint::fill_up;
use crate::index::enter;
use ev_types::{Handle, NoMemory};
use std::alloc::Global;
use std::marker::Model;
use timer_index::{Numbered, entry_of};
use timer_queue::{Timer, TimerQueue};

/// How many entries the index has room for at least, so that with few timers it is seldom made
/// anew.
const LEAST_ENTRIES: usize = 512;

/// A timer queue that is a wheel of `SPOKES` chains. A timer stands in the spoke of its tick, which
/// is its deadline by the resolution.
#[derive(Drop)]
pub struct WheelTimers<const SPOKES: usize> {
    chains: Chains,
    // The timer that comes due first.
    first: Option<Timer>,
    // By number. A timer that left may still have an entry, which leads to no timer.
    index: Vec<Numbered>,
    // How many timers fit.
    room: usize,
}

impl<const SPOKES: usize> Model for WheelTimers<SPOKES> {
    ghost use Rattle.std.specs.Prelude.{◌-◌, length, vec_capacity};
    ghost use Rattle.timer_wheel.specs.Content.{Content};
    ghost use Rattle.timer_wheel.specs.Index.{IsKept};

    ghost Value = { Content };

    ghost view = { λ w. record {
      heads = w.chains.heads.items;
      places = w.chains.places.items;
      resolution = w.chains.resolution;
      spare = w.room - length w.chains.places.items;
    } };

    ghost invariant = { λ w. IsKept SPOKES w.chains.resolution w.chains.heads.items
        w.chains.places.items w.first w.index.items w.room (vec_capacity w.chains.places)
        (vec_capacity w.index) };
}

impl<const SPOKES: usize> WheelTimers<SPOKES> {
    /// An empty timer wheel of 1 to 4,096 spokes and at least 1 millisecond a tick. It holds the
    /// memory of its heads alone.
    pub fn new(alloc: Global, resolution: u64) -> Result<WheelTimers<SPOKES>, NoMemory>
        requires spokes { 1 ≤ SPOKES }
        requires most { SPOKES ≤ 4096 }
        requires ticks { 1 ≤ resolution }
        ensures places { IfOk result (λ w. w.places ≡ []) }
        ensures ticks { IfOk result (λ w. w.resolution ≡ resolution) }
    {
        let chains = Chains::new(alloc, SPOKES, resolution)?;
        Ok(WheelTimers {
            chains,
            first: None,
            index: Vec::new(alloc),
            room: 0,
        })
    }

    /// Lends the first place of each spoke's chain. The chain along `next` has the timers of the
    /// spoke, in order of (deadline, timer).
    pub fn heads(&self) -> &[Option<usize>]
        ensures heads { result.now ≡ self.now.heads }
        ensures spokes { length result.now ≡ SPOKES }
        ensures chains { (spoke : ℕ) → spoke < SPOKES → Follows self.now.places
            (slice_index_or result.now spoke None)
            (of_spoke SPOKES self.now.resolution spoke (in_order (timers_of self.now.places))) }
    {
        &self.chains.heads
    }

    /// Lends the places.
    pub fn places(&self) -> &[Place]
        ensures { result.now ≡ self.now.places }
    {
        &self.chains.places
    }
}

impl<const SPOKES: usize> TimerQueue for WheelTimers<SPOKES> {
    ghost timers = { λ w. in_order (timers_of w.places) };

    ghost spare = { λ w. w.spare };

    fn reserve(&mut self, n: usize) -> Result<(), NoMemory> {
        let held = self.chains.places.len();
        if n <= self.room - held {
            return Ok(());
        }
        let Some(end) = held.checked_add(n) else {
            return Err(NoMemory);
        };
        // Half of the index may be entries of timers that left, so that they are seldom sought out.
        let Some(entries) = end.checked_mul(2) else {
            return Err(NoMemory);
        };
        let hints = end.saturating_sub(self.chains.hints.len());
        self.chains.hints.reserve(hints)?;
        let wanted = entries.max(LEAST_ENTRIES);
        self.index.reserve(wanted.saturating_sub(self.index.len()))?;
        self.chains.places.reserve(n)?;
        self.room = self.chains.places.capacity().min(self.index.capacity() / 2);
        fill_up(
            &mut self.chains.hints,
            &self.chains.places,
            self.chains.resolution,
        );
        Ok(())
    }

    fn schedule(&mut self, t: Timer) {
        enter(&mut self.index, &self.chains.places, &t);
        self.chains.add(t);
        self.first = earlier(self.first, t);
    }

    fn cancel(&mut self, timer: u64) -> bool {
        let Some(entry) = entry_of(&self.index, timer) else {
            return false;
        };
        let Some(t) = self.chains.find(entry) else {
            return false;
        };
        remove(&mut self.chains, &mut self.first, t);
        true
    }

    fn cancel_all(&mut self, handle: Handle) {
        // From the last place to the first: when a timer is taken out the last comes in its place,
        // which is not of this handle.
        let mut end = self.chains.places.len();
        while end > 0 {
            end -= 1;
            let t = self.chains.places[end].timer;
            if t.handle.0 == handle.0 {
                remove(&mut self.chains, &mut self.first, t);
            }
        }
    }

    fn earliest(&self) -> Option<u64> {
        self.first.map(|t| t.deadline)
    }

    fn pop_due(&mut self, now: u64) -> Option<Timer> {
        let t = self.first?;
        if now < t.deadline {
            return None;
        }
        remove(&mut self.chains, &mut self.first, t);
        Some(t)
    }
}

// Takes a timer out, and looks for the first anew if it was the first.
fn remove(chains: &mut Chains, first: &mut Option<Timer>, t: Timer)
    requires wheel { IsWheel (length chains.old.heads.items) chains.old.resolution
        chains.old.heads.items chains.old.places.items first.old }
    requires there { Contains (timers_in chains.old) t }
    ensures wheel { IsWheel (length chains.old.heads.items) chains.old.resolution
        chains.new.heads.items chains.new.places.items first.new }
    ensures timers { IsPermutation (timers_in chains.old) (t ∷ timers_in chains.new) }
    ensures shape { KeepShape chains.old chains.new }
    ensures forward { ComesForward chains.old.places.items chains.new.places.items }
{
    chains.take_out(t);
    if is_behind(first, &t) {
        return;
    }
    *first = chains.next_from(t.deadline);
}

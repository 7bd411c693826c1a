//! The timer heap.
ghost use Rattle.std.specs.Prelude.{◌≡◌, ◌≤◌, ◌<◌, ◌+◌, ℕ, [], false, length, slice_get};
ghost use Rattle.std.specs.Prelude.{slice_index_or};
ghost use Rattle.std.specs.List.Sorted.{IsPermutation};
ghost use Rattle.timer_queue.specs.declared.timer.Timer.{Timer};
ghost use Rattle.timer_queue.specs.Timers.{is_scheduled, with_timer, in_order};
ghost use Rattle.timer_heap.specs.Heap.{IsHeap, OnPath};

use crate::index::make_room;
use crate::tree::Tree;
use ev_types::{Handle, NoMemory};
use std::alloc::Global;
use std::marker::Model;
use timer_index::{Numbered, entry_of, put};
use timer_queue::{Timer, TimerQueue};

/// A timer queue that is a binary heap, with the place of each timer by its number.
#[derive(Drop)]
pub struct HeapTimers {
    tree: Tree,
    // By number. A timer that left may still have an entry, whose key names no timer of that
    // number.
    index: Vec<Numbered>,
}

impl Model for HeapTimers {
    ghost use Rattle.std.specs.Prelude.{◌-◌, length, vec_capacity};
    ghost use Rattle.timer_heap.specs.Content.{Content};
    ghost use Rattle.timer_heap.specs.Tree.{IsSound};

    ghost Value = { Content };

    ghost view = { λ h. record {
      slots = h.tree.slots.items;
      spare = length h.tree.keys.items - length h.tree.slots.items;
    } };

    ghost invariant = { λ h. IsSound h.tree.slots.items h.tree.keys.items h.tree.places.items
        h.index.items (vec_capacity h.tree.slots) (vec_capacity h.index) };
}

impl HeapTimers {
    /// An empty timer heap, which holds no memory.
    pub fn new(alloc: Global) -> HeapTimers
        ensures slots { result.slots ≡ [] }
    {
        HeapTimers {
            tree: Tree {
                slots: Vec::new(alloc),
                keys: Vec::new(alloc),
                places: Vec::new(alloc),
            },
            index: Vec::new(alloc),
        }
    }

    /// Lends the heap itself.
    pub fn slots(&self) -> &[Timer]
        ensures slots { result.now ≡ self.now.slots }

        // Each timer of the content stands there once, after its parent if it has one.
        ensures content { IsPermutation (in_order self.now.slots) result.now }
        ensures heap { IsHeap result.now }
    {
        &self.tree.slots
    }

    /// Schedules a timer, in one spare place. Only the new place and those above it change.
    pub fn insert(&mut self, t: Timer)
        requires room { 1 ≤ self.old.spare }
        requires fresh { is_scheduled t.timer (in_order self.old.slots) ≡ false }
        ensures timers { in_order self.new.slots ≡ with_timer t (in_order self.old.slots) }
        ensures spare { self.new.spare + 1 ≡ self.old.spare }
        ensures path { (k : ℕ) (d : Timer) → k < length self.old.slots
            → (OnPath k (length self.old.slots) → ⊥)
            → slice_index_or self.new.slots k d ≡ slice_index_or self.old.slots k d }
    {
        let key = self.tree.keys[self.tree.slots.len()] as u64;
        make_room(&mut self.index, &self.tree);
        put(
            &mut self.index,
            Numbered {
                timer: t.timer,
                key,
            },
        );
        self.tree.add(t);
    }
}

impl TimerQueue for HeapTimers {
    ghost timers = { λ q. in_order q.slots };

    ghost spare = { λ q. q.spare };

    fn reserve(&mut self, n: usize) -> Result<(), NoMemory> {
        let held = self.tree.slots.len();
        let keys = self.tree.keys.len();
        if n <= keys - held {
            return Ok(());
        }
        let Some(end) = held.checked_add(n) else {
            return Err(NoMemory);
        };
        self.tree.slots.reserve(n)?;
        self.tree.keys.reserve(end - keys)?;
        self.tree.places.reserve(end - keys)?;
        // Half of the index may be entries of timers that left, so that they are seldom sought out.
        self.index
            .reserve(end.saturating_mul(2).saturating_sub(self.index.len()))?;
        self.tree.make_keys(end);
        Ok(())
    }

    fn schedule(&mut self, t: Timer) {
        self.insert(t);
    }

    fn cancel(&mut self, timer: u64) -> bool {
        let Some(entry) = entry_of(&self.index, timer) else {
            return false;
        };
        let Some(place) = self.tree.place_of(&entry) else {
            return false;
        };
        self.tree.take_out(place);
        true
    }

    fn cancel_all(&mut self, handle: Handle) {
        // From the last place to the first: when a timer is taken out, a later one takes its
        // place, which is not of this handle, or one from above, which is looked at next.
        let mut end = self.tree.slots.len();
        while end > 0 {
            if self.tree.slots[end - 1].handle.0 == handle.0 {
                self.tree.take_out(end - 1);
                end = end.min(self.tree.slots.len());
            } else {
                end -= 1;
            }
        }
    }

    fn earliest(&self) -> Option<u64> {
        self.tree.slots.first().map(|t| t.deadline)
    }

    fn pop_due(&mut self, now: u64) -> Option<Timer> {
        let t = *self.tree.slots.first()?;
        if now < t.deadline {
            return None;
        }
        Some(self.tree.take_out(0))
    }
}

//! A timer queue over two sorted rows.
ghost use Rattle.std.specs.Prelude.{◌≡◌, ◌+◌, ◌-◌, ◌<◌, ◌≤◌, ◌++◌, [], length};
ghost use Rattle.std.specs.List.Sorted.{IsPermutation};
ghost use Rattle.timer_queue.specs.Timers.{AreApart, IsSchedule};
ghost use Rattle.timer_queue.specs.Sorted.{AreRows, recent_first};

use crate::row::Row;
use crate::{Timer, TimerQueue};
use ev_types::{Handle, NoMemory};
use std::alloc::Global;
use std::marker::Model;
use std::mem;

/// How many timers stand apart before the list takes them in.
const RECENT: usize = 1_024;

/// A timer queue that is a sorted list. Timers that were scheduled last stand in a short row of
/// their own, so that few move when one is put in; when that is full, both are put together.
#[derive(Drop)]
pub struct SortedTimers {
    list: Row,
    recent: Row,
    // Where both are put together. Else it is empty.
    merged: Row,
    // How many timers fit.
    room: usize,
}

impl Model for SortedTimers {
    ghost use Rattle.std.specs.Prelude.{◌-◌, ◌+◌, ◌++◌, length};
    ghost use Rattle.timer_queue.specs.Content.{Content};
    ghost use Rattle.timer_queue.specs.Timers.{in_order};
    ghost use Rattle.timer_queue.specs.Sorted.{AreRows};

    ghost Value = { Content };

    ghost view = { λ q. record {
      timers = in_order (q.recent.timers ++ q.list.timers);
      spare = q.room - (length q.recent.timers + length q.list.timers);
    } };

    ghost invariant = { λ q. AreRows q.recent.timers q.list.timers q.merged.timers q.room
        q.list.spare q.merged.spare };
}

impl SortedTimers {
    /// An empty timer queue, which holds no memory.
    pub fn new(alloc: Global) -> SortedTimers
        ensures timers { result.timers ≡ [] }
    {
        SortedTimers {
            list: Row::new(alloc),
            recent: Row::new(alloc),
            merged: Row::new(alloc),
            room: 0,
        }
    }
}

impl TimerQueue for SortedTimers {
    ghost timers = { λ q. q.timers };

    ghost spare = { λ q. q.spare };

    fn reserve(&mut self, n: usize) -> Result<(), NoMemory> {
        let held = self.recent.len() + self.list.len();
        if n <= self.room - held {
            return Ok(());
        }
        let Some(end) = held.checked_add(n) else {
            return Err(NoMemory);
        };
        self.recent.reserve(RECENT)?;
        self.merged.reserve(end)?;
        self.list.reserve(end - self.list.len())?;
        self.room = end;
        Ok(())
    }

    fn schedule(&mut self, t: Timer) {
        if self.recent.spare() > 0 {
            self.recent.schedule(t);
            return;
        }
        put_together(&mut self.recent, &mut self.list, &mut self.merged);
        self.list.schedule(t);
    }

    fn cancel(&mut self, timer: u64) -> bool {
        self.recent.cancel(timer) || self.list.cancel(timer)
    }

    fn cancel_all(&mut self, handle: Handle) {
        self.recent.cancel_all(handle);
        self.list.cancel_all(handle);
    }

    fn earliest(&self) -> Option<u64> {
        if is_recent_first(&self.recent, &self.list) {
            self.recent.earliest()
        } else {
            self.list.earliest()
        }
    }

    fn pop_due(&mut self, now: u64) -> Option<Timer> {
        if is_recent_first(&self.recent, &self.list) {
            self.recent.pop_due(now)
        } else {
            self.list.pop_due(now)
        }
    }
}

// Whether the first timer of both rows is one of the recent ones.
fn is_recent_first(recent: &Row, list: &Row) -> bool
    ensures { result ≡ recent_first recent.now.timers list.now.timers }
{
    match (recent.first(), list.first()) {
        (Some(r), Some(l)) => r.comes_before(&l),
        (Some(_), None) => true,
        _ => false,
    }
}

// Puts the timers of both rows together in the second.
fn put_together(recent: &mut Row, list: &mut Row, merged: &mut Row)
    requires apart { AreApart (recent.old.timers ++ list.old.timers) }
    requires rises { IsSchedule list.old.timers }
    requires empty { merged.old.timers ≡ [] }
    requires room { length recent.old.timers + length list.old.timers ≤ merged.old.spare }
    ensures recent { recent.new.timers ≡ [] }
    ensures merged { merged.new.timers ≡ [] }
    ensures list { IsPermutation (recent.old.timers ++ list.old.timers) list.new.timers }
    ensures rises { IsSchedule list.new.timers }
    ensures room { list.new.spare + length list.new.timers ≡ merged.old.spare }
    ensures merged_room { merged.new.spare ≡ list.old.spare + length list.old.timers }
{
    // What stands in the list between two recent timers goes over in one run.
    while let Some(t) = recent.take_first() {
        list.pass_before(&t, merged);
        merged.schedule(t);
    }
    list.pass_all(merged);
    mem::swap(list, merged);
}

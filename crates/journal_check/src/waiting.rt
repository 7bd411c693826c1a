//! The waiting events, by number, by handle and class, and by timer.

ghost use Rattle.std.specs.Prelude.{◌≡◌, ◌<◌, ◌≤◌, ◌+◌, ◌*◌, ◌^◌, ◌==◌, ◌&&◌, ◌++◌, ◌∷◌, [], not};
ghost use Rattle.std.specs.Prelude.{filter, length, true, false, OnOk, ℕ, List, Some, None, IfSome};
ghost use Rattle.std.specs.Prelude.{MatchOption, option_map};
ghost use Rattle.std.specs.List.{list_any, find};
ghost use Rattle.std.specs.BTreeSet.{contains};
ghost use Rattle.std.specs.Map.{values_of};
ghost use Rattle.reactor_journal.specs.Past as P;
ghost use Rattle.reactor_summary.specs.Tells.{Each};
ghost use Rattle.reactor_summary.specs.declared.parts.WaitingEvent.{WaitingEvent};
ghost use Rattle.journal_check.specs.Index.{pair_cmp};
ghost use Rattle.journal_check.specs.Fronts as K;
ghost use Rattle.journal_check.specs.Queue as Q;
ghost use Rattle.journal_check.specs.Queue.{IsQueued, IsLeast, IsOne, IsFront, IsOwned, IsNarrow};
ghost use Rattle.journal_check.specs.Queue.{is_within};

use crate::words::{first_lane, lane_of, timer_of};
use ev_types::{Handle, Mask, NoMemory};
use number_map::NumberMap;
use reactor_summary::WaitingEvent;
use std::alloc::Global;
use std::collections::BTreeSet;
use std::marker::Model;

/// The waiting events by number. A set has the lane and number of each, so that those of a handle
/// stand by class, and another the timer and number of each timeout.
#[derive(Drop)]
pub struct Waiting {
    events: NumberMap<WaitingEvent>,
    lanes: BTreeSet<(u64, u64)>,
    timers: BTreeSet<(u64, u64)>,
}

impl Model for Waiting {
    ghost Value = { List WaitingEvent };

    ghost view = { λ q. values_of q.events.entries };

    ghost invariant = { λ q. IsQueued q.events.entries (contains pair_cmp q.lanes)
        (contains pair_cmp q.timers) };
}

/// The event of the first pair from `low` to `last`.
fn first_between(keys: &BTreeSet<(u64, u64)>, low: u64, last: u64) -> Option<u64>
    ensures found { IfSome result (IsLeast low (last + 1) (contains pair_cmp keys.now)) }
    ensures none { result ≡ None → (n i : ℕ) → low ≤ n → n < last + 1
        → contains pair_cmp keys.now (n, i) ≡ false }
{
    match keys.range((low, 0)..).next() {
        Some(&(at, event)) if at <= last => Some(event),
        _ => None,
    }
}

/// Adds the keys of an event.
fn enlist(
    lanes: &mut BTreeSet<(u64, u64)>,
    timers: &mut BTreeSet<(u64, u64)>,
    w: &WaitingEvent,
) -> Result<(), NoMemory>
    requires { IsNarrow w.now }
    ensures { OnOk result (Q.Gains (Q.lane_key w.now) w.now.event (contains pair_cmp lanes.old)
        (contains pair_cmp lanes.new) × Q.Gains (Q.timer_key w.now) w.now.event
        (contains pair_cmp timers.old) (contains pair_cmp timers.new)) }
{
    lanes.insert((lane_of(w), w.event))?;
    if let Some(timer) = timer_of(w.upcall) {
        timers.insert((timer, w.event))?;
    }
    Ok(())
}

/// Takes the keys of an event away.
fn delist(lanes: &mut BTreeSet<(u64, u64)>, timers: &mut BTreeSet<(u64, u64)>, w: &WaitingEvent)
    requires { IsNarrow w.now }
    ensures { Q.Loses (Q.lane_key w.now) w.now.event (contains pair_cmp lanes.old)
        (contains pair_cmp lanes.new) × Q.Loses (Q.timer_key w.now) w.now.event
        (contains pair_cmp timers.old) (contains pair_cmp timers.new) }
{
    let _ = lanes.remove(&(lane_of(w), w.event));
    if let Some(timer) = timer_of(w.upcall) {
        let _ = timers.remove(&(timer, w.event));
    }
}

impl Waiting {
    /// None.
    pub fn new(alloc: Global) -> Waiting
        ensures { result ≡ [] }
    {
        Waiting {
            events: NumberMap::new(alloc),
            lanes: BTreeSet::new(alloc),
            timers: BTreeSet::new(alloc),
        }
    }

    /// Takes an event away, if it waits.
    pub fn take(&mut self, event: u64)
        ensures { self.new ≡ filter (λ w. not (event == w.event)) self.old }
    {
        if let Some(w) = self.events.remove(event) {
            delist(&mut self.lanes, &mut self.timers, &w);
        }
    }

    /// After an Err none is left.
    fn put(&mut self, w: WaitingEvent) -> Result<(), NoMemory>
        requires { list_any (λ v. w.event == v.event) self.old ≡ false }
        ensures { Each (λ v. v.event < w.event) self.old
            → OnOk result (self.new ≡ self.old ++ w ∷ []) }
    {
        match put_in(&mut self.events, &mut self.lanes, &mut self.timers, w) {
            Ok(()) => Ok(()),
            Err(refused) => {
                self.events.clear();
                self.lanes.clear();
                self.timers.clear();
                Err(refused)
            }
        }
    }

    /// Adds an event, in place of one of its number. After an Err nothing is said of those that are
    /// left.
    pub fn push(&mut self, w: WaitingEvent) -> Result<(), NoMemory>
        ensures { Each (λ v. v.event < w.event) self.old
            → OnOk result (self.new ≡ self.old ++ w ∷ []) }
    {
        self.take(w.event);
        self.put(w)
    }

    /// The first of the five lanes of a handle. None if they do not all fit a word: no event of
    /// such a handle waits.
    fn first_lane(&self, handle: Handle) -> Option<u64>
        ensures lane { IfSome result (λ n. n ≡ handle.0 * 5 × n + 4 < 2 ^ 64) }
        ensures none { result ≡ None → list_any (λ w. handle.0 == w.handle.0) self.now ≡ false }
    {
        let _ = &self.events;
        first_lane(handle)
    }

    /// The first event of a lane from `low` to `last`.
    fn first_in(&self, low: u64, last: u64) -> Option<u64>
        ensures found { IfSome result (λ i. IsOne (λ w. is_within low (last + 1) (Q.lane_of w)) i
            self.now) }
        ensures none { result ≡ None → list_any (λ w. is_within low (last + 1) (Q.lane_of w))
            self.now ≡ false }
    {
        let _ = &self.events;
        first_between(&self.lanes, low, last)
    }

    /// A timeout of the timer that waits.
    fn first_timeout(&self, timer: u64) -> Option<u64>
        ensures found { IfSome result (λ i. IsOne (λ w. P.is_timeout_of timer w.upcall) i
            self.now) }
        ensures none { result ≡ None → list_any (λ w. P.is_timeout_of timer w.upcall) self.now
            ≡ false }
    {
        let _ = &self.events;
        first_between(&self.timers, timer, timer)
    }

    /// Whether a timeout of the timer waits.
    pub fn has_timeout(&self, timer: u64) -> bool
        ensures { result ≡ list_any (λ w. P.is_timeout_of timer w.upcall) self.now }
    {
        self.first_timeout(timer).is_some()
    }

    /// The event, if it waits.
    pub fn find(&self, event: u64) -> Option<WaitingEvent>
        ensures { result ≡ find (λ w. w.event == event) self.now }
    {
        self.events.get(event)
    }

    /// Its handle.
    pub fn handle_of(&self, event: u64) -> Option<Handle>
        ensures { result ≡ option_map K.waiting_handle (find (λ w. w.event == event) self.now) }
    {
        match self.find(event) {
            None => None,
            Some(w) => Some(w.handle),
        }
    }

    /// The handle of a timeout of the timer, if one waits.
    pub fn timeout_handle(&self, timer: u64) -> Option<Handle>
        ensures { IsOwned timer self.now → Each (λ w. P.is_timeout_of timer w.upcall ≡ true
            → result ≡ Some w.handle) self.now }
    {
        match self.first_timeout(timer) {
            None => None,
            Some(event) => self.handle_of(event),
        }
    }

    /// The event of the handle that goes first.
    pub fn front_of(&self, handle: Handle) -> Option<WaitingEvent>
        ensures { IsFront handle.0 self.now result }
    {
        let low = self.first_lane(handle)?;
        let event = first_between(&self.lanes, low, low + 4)?;
        self.events.get(event)
    }

    /// Takes the timeouts of a timer away.
    pub fn cancel(&mut self, timer: u64)
        ensures { self.new ≡ filter (λ w. not (P.is_timeout_of timer w.upcall)) self.old }
    {
        while let Some(event) = self.first_timeout(timer) {
            self.take(event);
        }
    }

    fn clear_between(&mut self, low: u64, last: u64)
        ensures { self.new ≡ filter (λ w. not (is_within low (last + 1) (Q.lane_of w))) self.old }
    {
        while let Some(event) = self.first_in(low, last) {
            self.take(event);
        }
    }

    /// Takes the events of a handle away.
    pub fn clear_all(&mut self, handle: Handle)
        ensures { self.new ≡ filter (λ w. not (handle.0 == w.handle.0)) self.old }
    {
        if let Some(low) = self.first_lane(handle) {
            self.clear_between(low, low + 4);
        }
    }

    fn clear_if(&mut self, which: bool, lane: u64)
        ensures { self.new ≡ filter (λ w. not (which && Q.lane_of w == lane)) self.old }
    {
        if which {
            self.clear_between(lane, lane);
        }
    }

    /// Takes the reports of a handle away that the mask lacks.
    pub fn clear_masked(&mut self, handle: Handle, mask: Mask)
        ensures { self.new ≡ filter (λ w. not (handle.0 == w.handle.0
            && P.is_without mask w.upcall)) self.old }
    {
        if let Some(first) = self.first_lane(handle) {
            self.clear_if(!mask.write, first + 2);
            self.clear_if(!mask.except, first + 3);
            self.clear_if(!mask.read, first + 4);
        }
    }
}

/// Adds an event that is not there, with its keys. A handle whose lanes do not all fit a word is
/// refused as want of memory: no journal in memory has as many handles.
fn put_in(
    events: &mut NumberMap<WaitingEvent>,
    lanes: &mut BTreeSet<(u64, u64)>,
    timers: &mut BTreeSet<(u64, u64)>,
    w: WaitingEvent,
) -> Result<(), NoMemory>
    requires queued { IsQueued events.old.entries (contains pair_cmp lanes.old)
        (contains pair_cmp timers.old) }
    requires absent { list_any (λ v. w.event == v.event) (values_of events.old.entries) ≡ false }
    ensures queued { OnOk result (IsQueued events.new.entries (contains pair_cmp lanes.new)
        (contains pair_cmp timers.new)) }
    ensures last { Each (λ v. v.event < w.event) (values_of events.old.entries)
        → OnOk result (values_of events.new.entries ≡ values_of events.old.entries ++ w ∷ []) }
{
    if first_lane(w.handle).is_none() {
        return Err(NoMemory);
    }
    enlist(lanes, timers, &w)?;
    events.insert(w.event, w)?;
    Ok(())
}

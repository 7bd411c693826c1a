//! The open events, in the order in which they were started.

ghost use Rattle.std.specs.Prelude.{◌≡◌, ◌<◌, ◌+◌, ◌^◌, ◌==◌, ◌++◌, ◌∷◌, [], not, filter, false};
ghost use Rattle.std.specs.Prelude.{OnOk, ℕ, List, option_map};
ghost use Rattle.std.specs.List.{list_any, find};
ghost use Rattle.std.specs.Map.{values_of};
ghost use Rattle.number_map.specs.Content.{found};
ghost use Rattle.reactor_summary.specs.declared.parts.OpenEvent.{OpenEvent};
ghost use Rattle.journal_check.specs.Fronts as K;
ghost use Rattle.journal_check.specs.Opened.{IsOpenIndex};

use ev_types::{Handle, NoMemory};
use number_map::NumberMap;
use reactor_summary::OpenEvent;
use std::alloc::Global;
use std::marker::Model;

/// The open events by the number of their start. The number of an event leads to that of its start,
/// and its handle to its number; either may lead to an event that is no longer open.
#[derive(Drop)]
pub struct Opens {
    started: NumberMap<OpenEvent>,
    starts: NumberMap<u64>,
    events: NumberMap<u64>,
    next: u64,
}

impl Model for Opens {
    ghost Value = { List OpenEvent };

    ghost view = { λ t. values_of t.started.entries };

    ghost invariant = { λ t. IsOpenIndex t.started.entries (found t.starts) (found t.events)
        t.next };
}

impl Opens {
    /// None.
    pub fn new(alloc: Global) -> Opens
        ensures { result ≡ [] }
    {
        Opens {
            started: NumberMap::new(alloc),
            starts: NumberMap::new(alloc),
            events: NumberMap::new(alloc),
            next: 0,
        }
    }

    /// The event, if it is open.
    pub fn find(&self, event: u64) -> Option<OpenEvent>
        ensures { result ≡ find (λ o. o.event == event) self.now }
    {
        match self.starts.get(event) {
            None => None,
            Some(start) => self.started.get(start),
        }
    }

    /// Its handle.
    pub fn handle_of(&self, event: u64) -> Option<Handle>
        ensures { result ≡ option_map K.open_handle (find (λ o. o.event == event) self.now) }
    {
        match self.find(event) {
            None => None,
            Some(o) => Some(o.handle),
        }
    }

    /// Whether the event is open.
    pub fn is_open(&self, event: u64) -> bool
        ensures { result ≡ list_any (λ o. o.event == event) self.now }
    {
        match self.find(event) {
            None => false,
            Some(_) => true,
        }
    }

    /// Whether one of the events of the handle is open.
    pub fn is_busy(&self, handle: Handle) -> bool
        ensures { result ≡ list_any (λ o. o.handle.0 == handle.0) self.now }
    {
        match self.events.get(handle.0) {
            None => false,
            Some(event) => match self.find(event) {
                None => false,
                Some(o) => o.handle.0 == handle.0,
            },
        }
    }

    /// Takes the event away.
    pub fn settle(&mut self, event: u64)
        ensures { self.new ≡ filter (λ o. not (event == o.event)) self.old }
    {
        if let Some(start) = self.starts.get(event) {
            let _ = self.started.remove(start);
        }
    }

    /// Takes the open event of a handle away.
    fn settle_of(&mut self, handle: Handle)
        ensures none { list_any (λ o. o.handle.0 == handle.0) self.new ≡ false }
        ensures others { (i : ℕ) → list_any (λ o. i == o.event) self.old ≡ false
            → list_any (λ o. i == o.event) self.new ≡ false }
        ensures same { list_any (λ o. o.handle.0 == handle.0) self.old ≡ false
            → self.new ≡ self.old }
    {
        if self.is_busy(handle) {
            if let Some(event) = self.events.get(handle.0) {
                self.settle(event);
            }
        }
    }

    fn add(&mut self, o: OpenEvent) -> Result<(), NoMemory>
        requires event { list_any (λ b. o.event == b.event) self.old ≡ false }
        requires handle { list_any (λ b. b.handle.0 == o.handle.0) self.old ≡ false }
        ensures { OnOk result (self.new ≡ self.old ++ o ∷ []) }
    {
        let start = self.next;
        let Some(next) = start.checked_add(1) else {
            return Err(NoMemory);
        };
        self.next = next;
        self.starts.insert(o.event, start)?;
        self.events.insert(o.handle.0, o.event)?;
        self.started.insert(start, o)?;
        Ok(())
    }

    /// Opens an event, in place of one of its number or of its handle. More starts than a word
    /// counts are answered as want of memory; no journal in memory has as many.
    pub fn push(&mut self, o: OpenEvent) -> Result<(), NoMemory>
        ensures { list_any (λ b. o.event == b.event) self.old ≡ false
            → list_any (λ b. b.handle.0 == o.handle.0) self.old ≡ false
            → OnOk result (self.new ≡ self.old ++ o ∷ []) }
    {
        self.settle(o.event);
        self.settle_of(o.handle);
        self.add(o)
    }
}

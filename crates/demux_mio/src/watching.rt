//! The sockets that a net watches, and the reports that it owes.
ghost use Rattle.std.specs.Prelude.{◌≡◌, ◌≤◌, ◌∷◌, [], true, length, All, OnOk, OnErr};
ghost use Rattle.ev_base.specs.Net.{Attaches, SetsMask, Retires};
ghost use Rattle.demux_mio.specs.Asked.{IsWanted};

use crate::readiness::Signs;
use crate::watched::Watched;
use ev_base::{Calls, Handle, Kind, MOST_REPORTS, Made, Mask, NoMemory, Report};
use mio::Events;
use mio::event::Event;
use std::alloc::Global;
use std::collections::{HashMap, VecDeque};
use std::marker::Model;

/// The sockets that a net watches, by handle. Contracts see it as the attaches, masks and retires
/// that made it.
#[derive(Drop)]
pub(crate) struct Watching {
    table: HashMap<u64, Watched>,
    // The reports that the next waits give first. A socket stands here at most once for each kind,
    // and `add` makes room for both, so to put one in takes no memory. Those of sockets that were
    // retired are passed over.
    owed: VecDeque<Report>,
    listeners: Vec<u64>,
    asked: Calls,
}

impl Model for Watching {
    ghost use Rattle.std.specs.Prelude.{List};
    ghost use Rattle.ev_base.specs.Net.{Call};
    ghost use Rattle.demux_mio.specs.Asked.{Agrees};

    ghost Value = { List Call };

    ghost view = { λ w. w.asked };

    ghost invariant = { λ w. Agrees w.table w.asked };
}

impl Watching {
    /// No socket is watched.
    pub(crate) fn new(alloc: Global) -> Watching
        ensures { result ≡ [] }
    {
        Watching {
            table: HashMap::new(alloc),
            owed: VecDeque::new(alloc),
            listeners: Vec::new(alloc),
            asked: Calls::none(),
        }
    }

    /// Makes room for so many sockets more.
    pub(crate) fn reserve(&mut self, n: usize) -> Result<(), NoMemory>
        ensures { self.new ≡ self.old }
    {
        self.table.reserve(n)?;
        self.listeners.reserve(1)?;
        let places = self.table.len().saturating_add(n).saturating_mul(2);
        let room = self.owed.capacity().saturating_sub(self.owed.len());
        if room < places {
            // Twice as many, so that it grows seldom.
            self.owed.reserve(places.saturating_mul(2))?;
        }
        Ok(())
    }

    /// Watches a socket.
    pub(crate) fn add(
        &mut self,
        handle: Handle,
        mask: Mask,
        listens: bool,
        signs: Signs,
    ) -> Result<(), NoMemory>
        ensures ok { OnOk result (self.new ≡ Attaches handle.0 mask None ∷ self.old) }
        ensures err { OnErr result (self.new ≡ self.old) }
    {
        self.reserve(1)?;
        let watched = Watched {
            mask,
            owed: Mask::NONE,
            listens,
            signs,
        };
        let _before = self.table.insert(handle.0, watched)?;
        self.asked.add(Made::Attach(handle, mask, None));
        if listens {
            let _ = self.listeners.push(handle.0);
        }
        Ok(())
    }

    /// Watches a socket no longer.
    pub(crate) fn remove(&mut self, handle: Handle)
        ensures { self.new ≡ Retires handle.0 ∷ self.old }
    {
        match self.table.remove(&handle.0) {
            Some(watched) if watched.listens => self.listeners.retain(|h| *h != handle.0),
            _ => {}
        }
        self.asked.add(Made::Retire(handle));
    }

    /// Sets the mask of a handle. What it has now and the socket is ready for already is owed.
    pub(crate) fn set_mask(&mut self, handle: Handle, mask: Mask)
        ensures { self.new ≡ SetsMask handle.0 mask ∷ self.old }
    {
        let gained = match self.table.get_mut(&handle.0) {
            Some(watched) => watched.set_mask(mask),
            None => Mask::NONE,
        };
        self.asked.add(Made::Mask(handle, mask));
        self.owe_kinds(handle, gained);
    }

    /// Whether the next wait has reports without the system.
    pub(crate) fn is_owing(&self) -> bool {
        !self.owed.is_empty()
    }

    /// The listeners are owed a report.
    pub(crate) fn owe_listeners(&mut self)
        ensures { self.new ≡ self.old }
    {
        for at in 0..self.listeners.len() {
            if let Some(handle) = self.listeners.get(at).copied() {
                self.owe(Handle(handle), Kind::Read);
            }
        }
    }

    fn owe_kinds(&mut self, handle: Handle, kinds: Mask)
        ensures { self.new ≡ self.old }
    {
        if kinds.read {
            self.owe(handle, Kind::Read);
        }
        if kinds.write {
            self.owe(handle, Kind::Write);
        }
    }

    // Has a later wait give a report, if that is not owed already.
    fn owe(&mut self, handle: Handle, kind: Kind)
        ensures { self.new ≡ self.old }
    {
        let fresh = match self.table.get_mut(&handle.0) {
            Some(watched) => watched.owe(kind),
            None => false,
        };
        if fresh {
            let _ = self.owed.push_back(Report { handle, kind });
        }
    }

    /// Gives the reports that were owed, and those of the events. Reports for which there is no
    /// room are owed.
    pub(crate) fn collect(&mut self, events: &Events, reports: &mut Vec<Report>)
        requires { reports.old.items ≡ [] }
        ensures same { self.new ≡ self.old }
        ensures few { length reports.new.items ≤ 256 }
        ensures wanted { All (IsWanted self.old) reports.new.items }
    {
        self.give_owed(reports);
        for event in events.iter() {
            self.take_event(event, reports);
        }
    }

    fn give_owed(&mut self, reports: &mut Vec<Report>)
        requires few { length reports.old.items ≤ 256 }
        requires wanted { All (IsWanted self.old) reports.old.items }
        ensures same { self.new ≡ self.old }
        ensures few { length reports.new.items ≤ 256 }
        ensures wanted { All (IsWanted self.old) reports.new.items }
    {
        for _ in 0..MOST_REPORTS {
            let Some(report) = self.owed.pop_front() else {
                return;
            };
            if self.is_to_be_given(report) {
                self.give(report, reports);
            }
        }
    }

    // Whether a report that was owed is to be given.
    fn is_to_be_given(&mut self, report: Report) -> bool
        ensures same { self.new ≡ self.old }
        ensures wanted { result ≡ true → IsWanted self.old report }
    {
        match self.table.get_mut(&report.handle.0) {
            Some(watched) => watched.settle(report.kind),
            None => false,
        }
    }

    fn take_event(&mut self, event: &Event, reports: &mut Vec<Report>)
        requires few { length reports.old.items ≤ 256 }
        requires wanted { All (IsWanted self.old) reports.old.items }
        ensures same { self.new ≡ self.old }
        ensures few { length reports.new.items ≤ 256 }
        ensures wanted { All (IsWanted self.old) reports.new.items }
    {
        let handle = Handle(event.token().0 as u64);
        let kinds = self.note(handle, event);
        if kinds.read {
            let kind = Kind::Read;
            self.give(Report { handle, kind }, reports);
        }
        if kinds.write {
            let kind = Kind::Write;
            self.give(Report { handle, kind }, reports);
        }
    }

    // Notes what an event says of the socket of a handle, if that is watched, and tells which of
    // the kinds are wanted.
    fn note(&self, handle: Handle, event: &Event) -> Mask
        ensures read { result.read ≡ true → IsWanted self.now
            (record { handle = handle; kind = Kind.Read }) }
        ensures write { result.write ≡ true → IsWanted self.now
            (record { handle = handle; kind = Kind.Write }) }
    {
        match self.table.get(&handle.0) {
            Some(watched) => watched.note(event),
            None => Mask::NONE,
        }
    }

    // Gives a report that is wanted, if there is room, or owes it.
    fn give(&mut self, report: Report, reports: &mut Vec<Report>)
        requires wanted { IsWanted self.old report }
        requires few { length reports.old.items ≤ 256 }
        requires all { All (IsWanted self.old) reports.old.items }
        ensures same { self.new ≡ self.old }
        ensures few { length reports.new.items ≤ 256 }
        ensures all { All (IsWanted self.old) reports.new.items }
    {
        if reports.len() == MOST_REPORTS || reports.push(report).is_err() {
            self.owe(report.handle, report.kind);
        }
    }
}

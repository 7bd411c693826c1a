//! What the entries before one tell of it: its lane, and where the upcall began that it ends.
ghost use Rattle.std.specs.Prelude.{◌≡◌, ◌≤◌, ◌+◌, ℕ, IfOk, length, vec_len};
ghost use Rattle.journal_picture.specs.Places.{number_at, lane_for, lane_in, from_in, start_set};
ghost use Rattle.journal_picture.specs.Places.{place_in, grown, nothing};
ghost use Rattle.journal_picture.specs.Rooms.{tables_of, room_of};

use ev_base::{Handle, NoMemory};
use log_handler::ServerNote;
use reactor_journal::Entry;
use std::alloc::Global;

/// Where the mark of an entry belongs.
#[derive(Clone, Copy)]
pub(crate) struct Place {
    /// The number of the entry.
    pub number: u64,
    /// Its lane: 0 is the reactor's own, and `h + 1` that of handle `h`.
    pub lane: u64,
    /// The number of the entry at which a bar to this one begins; its own if there is none.
    pub from: u64,
}

/// What was seen of the entries so far, with room for those that follow.
#[derive(Drop)]
pub(crate) struct Seen {
    handles: u64,
    // the lane of each entry
    lanes: Vec<u64>,
    // for each entry the number of the last `Started` of it; its own if there is none
    starts: Vec<u64>,
    // the lane of each timer, in order of `Scheduled`
    timers: Vec<u64>,
}

impl Seen {
    /// Nothing was seen yet, and so many handles have a lane; with room for so many entries.
    pub(crate) fn with_room(alloc: Global, handles: u64, entries: usize) -> Result<Seen, NoMemory>
        ensures seen { IfOk result (λ seen. tables_of seen ≡ nothing) }
        ensures handles { IfOk result (λ seen. seen.handles ≡ handles) }
        ensures room { IfOk result (λ seen. entries ≤ room_of seen) }
    {
        Ok(Seen {
            handles,
            lanes: Vec::with_capacity(alloc, entries)?,
            starts: Vec::with_capacity(alloc, entries)?,
            timers: Vec::with_capacity(alloc, entries)?,
        })
    }

    /// How many handles have a lane.
    pub(crate) fn handles(&self) -> u64
        ensures { result ≡ self.now.handles }
    {
        self.handles
    }

    /// Where the mark of the next entry belongs.
    pub(crate) fn place_of(&self, entry: &Entry<ServerNote>) -> Place
        ensures { result ≡ place_in self.now.handles (tables_of self.now) entry.now }
    {
        Place {
            number: self.lanes.len() as u64,
            lane: self.lane_of(entry),
            from: self.from_of(entry),
        }
    }

    /// Adds the next entry.
    pub(crate) fn add(&mut self, entry: &Entry<ServerNote>)
        requires { 1 ≤ room_of self.old }
        ensures seen { tables_of self.new ≡ grown self.old.handles entry.now (tables_of self.old) }
        ensures handles { self.new.handles ≡ self.old.handles }
        ensures room { room_of self.old ≤ room_of self.new + 1 }
    {
        let number = self.lanes.len() as u64;
        let lane = self.lane_of(entry);
        match entry {
            Entry::Started { event } => self.start(*event, number),
            Entry::Scheduled { .. } => self.timers.push_reserved(lane),
            _ => {}
        }
        self.lanes.push_reserved(lane);
        self.starts.push_reserved(number);
    }
}

impl Seen {
    /// The lane of the next entry.
    fn lane_of(&self, entry: &Entry<ServerNote>) -> u64
        ensures { result ≡ lane_in self.now.handles (tables_of self.now) entry.now }
    {
        match entry {
            Entry::Opened { handle, .. } => lane_for(self.handles, *handle),
            Entry::Scheduled { handle, .. } => lane_for(self.handles, *handle),
            Entry::Cancelled { timer } => number_at(&self.timers, *timer, 0),
            Entry::Due { timer } => number_at(&self.timers, *timer, 0),
            Entry::Ready { handle, .. } => lane_for(self.handles, *handle),
            Entry::Posted { handle, .. } => lane_for(self.handles, *handle),
            Entry::Stale { handle, .. } => lane_for(self.handles, *handle),
            Entry::Started { event } => number_at(&self.lanes, *event, 0),
            Entry::Returned { event, .. } => number_at(&self.lanes, *event, 0),
            Entry::Masked { handle, .. } => lane_for(self.handles, *handle),
            Entry::Suspended { handle } => lane_for(self.handles, *handle),
            Entry::Resumed { handle } => lane_for(self.handles, *handle),
            Entry::Removed { handle } => lane_for(self.handles, *handle),
            Entry::Closed { handle, .. } => lane_for(self.handles, *handle),
            Entry::Polled { .. } | Entry::Refused { .. } | Entry::Ended => 0,
        }
    }

    /// Where a bar to the next entry begins.
    fn from_of(&self, entry: &Entry<ServerNote>) -> u64
        ensures { result ≡ from_in (tables_of self.now) entry.now }
    {
        match entry {
            Entry::Started { event } => *event,
            Entry::Returned { event, .. } => number_at(&self.starts, *event, *event),
            _ => self.lanes.len() as u64,
        }
    }

    /// Notes that the upcall of this event began at the entry of this number.
    fn start(&mut self, event: u64, number: u64)
        ensures seen { tables_of self.new ≡ record (tables_of self.old) {
          starts = start_set event number self.old.starts.items;
        } }
        ensures handles { self.new.handles ≡ self.old.handles }
        ensures room { room_of self.new ≡ room_of self.old }
    {
        if let Some(start) = self.starts.get_mut(event as usize) {
            *start = number;
        }
    }
}

/// The lane of a handle, if so many handles have one.
fn lane_for(handles: u64, handle: Handle) -> u64
    ensures { result ≡ lane_for handles handle.0 }
{
    if handle.0 < handles { handle.0 + 1 } else { 0 }
}

/// The number that stands there, or another if there is none.
fn number_at(numbers: &[u64], at: u64, other: u64) -> u64
    ensures { result ≡ number_at numbers.now at other }
{
    numbers.get(at as usize).copied().unwrap_or(other)
}

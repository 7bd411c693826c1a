//! The ends that a net watches.
ghost use Rattle.std.specs.Prelude.{◌≡◌, ◌≤◌, ◌<◌, ◌+◌, ◌++◌, ◌∷◌, [], ℕ, true, None, unwrap_or};
ghost use Rattle.std.specs.Prelude.{slice_set, not, map, filter, length, slice_get, Some, Contains};
ghost use Rattle.std.specs.Prelude.{IfOk, OnOk, replicate, false};
ghost use Rattle.ev_base.specs.Playing.{report_at, masked, has_handle};
ghost use Rattle.script_net.specs.Scripts.{end_view, step_at};
ghost use Rattle.script_net.specs.Playable.{IsWithin};
ghost use Rattle.script_net.specs.Seating.{is_marked, with_mark, handles_of, last_to, found_to};
ghost use Rattle.script_net.specs.Seating.{seats_of, IsPlaceOf, is_place_of, latest_of};
ghost use Rattle.script_net.specs.Seating.{with_latest, own_report};
ghost use Rattle.script_net.specs.LatestPlaces.{latest_view};
ghost use Rattle.script_net.specs.declared.seats.Place.{Place};

use crate::script::End;
use ev_base::{Handle, Kind, Mask, NoMemory, Report};
use std::alloc::Global;
use std::marker::Model;

/// A place in which an end was attached. It stays when the end is retired.
#[derive(Clone, Copy)]
struct Place {
    handle: u64,
    mask: Mask,
    end: End,
    attached: bool,
    // The place before this one in which the same end was attached.
    earlier: Option<usize>,
}

/// The ends that a net watches, found by handle and by number. It holds the places of all ends that
/// were ever attached, and of the listener and each connection of the script the last place, and
/// whether it is gone for good.
#[derive(Drop)]
pub(crate) struct Seats {
    places: Vec<Place>,
    latest: LatestPlaces,
    gone_listener: bool,
    gone: Vec<bool>,
}

/// The last place of the listener, and of each connection by number.
#[derive(Drop)]
struct LatestPlaces {
    listener: Option<usize>,
    connections: Vec<Option<usize>>,
}

impl LatestPlaces {
    // The last place of an end of the script.
    fn of(&self, end: End) -> Option<usize>
        requires { IsWithin (length self.now.connections.items) (end_view end) }
        ensures { result ≡ latest_of (latest_view self.now) (end_view end) }
    {
        match end {
            End::Listener => self.listener,
            End::Connection(number) => self.connections[number as usize],
        }
    }

    // Puts a place in the place of the last one of an end, if the end is one of the script, and
    // tells what that was.
    fn put(&mut self, end: End, place: usize) -> Option<usize>
        ensures was { result ≡ latest_of (latest_view self.old) (end_view end) }
        ensures set { latest_view self.new ≡ with_latest (end_view end) place
            (latest_view self.old) }
    {
        match end {
            End::Listener => self.listener.replace(place),
            End::Connection(number) => replace_at(&mut self.connections, number, place),
        }
    }
}

impl Model for Seats {
    ghost use Rattle.std.specs.Prelude.{length, vec_capacity};
    ghost use Rattle.script_net.specs.Seating.{SeatsContent};

    ghost Value = { SeatsContent };

    ghost use Rattle.script_net.specs.Seating.{seats_of, IsSeating};
    ghost use Rattle.script_net.specs.LatestPlaces.{latest_view};

    ghost view = { λ s. record {
      seats = seats_of s.places.items;
      marks = record { listener = s.gone_listener; connections = s.gone.items };
      made = length s.places.items;
      room = vec_capacity s.places;
    } };

    ghost invariant = { λ s. IsSeating s.places.items (latest_view s.latest)
        (record { listener = s.gone_listener; connections = s.gone.items }) };
}

impl Seats {
    ghost use Rattle.script_net.specs.Seating.{new_seats};

    /// No end is attached or gone, of a script with so many connections.
    pub(crate) fn new(alloc: Global, connections: usize) -> Result<Seats, NoMemory>
        ensures { IfOk result (λ seats. seats ≡ record (new_seats connections) {
          room = seats.room;
        }) }
    {
        Ok(Seats {
            places: Vec::new(alloc),
            latest: LatestPlaces {
                listener: None,
                connections: vec![in alloc; None; connections]?,
            },
            gone_listener: false,
            gone: vec![in alloc; false; connections]?,
        })
    }

    /// How many ends were attached in all.
    pub(crate) fn made(&self) -> usize
        ensures made { result ≡ self.now.made }
        ensures few { length self.now.seats ≤ self.now.made }
    {
        self.places.len()
    }

    /// Makes room for n ends more. After `NoMemory` there is no less than before.
    pub(crate) fn reserve(&mut self, n: usize) -> Result<(), NoMemory>
        ensures same { self.new ≡ record self.old { room = self.new.room } }
        ensures more { self.old.room ≤ self.new.room }
        ensures places { OnOk result (self.new.made + n ≤ self.new.room) }
    {
        self.places.reserve(n)?;
        Ok(())
    }

    /// The report of a step at an end, if the end is attached with Read in its mask.
    pub(crate) fn report(&self, end: End) -> Option<Report>
        requires { IsWithin (length self.now.marks.connections) (end_view end) }
        ensures { result ≡ report_at self.now.seats (step_at end) }
    {
        find_report(&self.places, self.latest.of(end), end)
    }

    /// Whether an end is gone for good.
    pub(crate) fn is_gone(&self, end: End) -> bool
        ensures { result ≡ is_marked self.now.marks (end_view end) }
    {
        match end {
            End::Listener => self.gone_listener,
            End::Connection(number) => self.gone.get(number as usize).copied().unwrap_or(false),
        }
    }

    /// Marks an end as gone for good.
    pub(crate) fn mark(&mut self, end: End)
        ensures { self.new ≡ record self.old { marks = with_mark (end_view end) self.old.marks } }
    {
        match end {
            End::Listener => self.gone_listener = true,
            End::Connection(number) => {
                if let Some(gone) = self.gone.get_mut(number as usize) {
                    *gone = true;
                }
            }
        }
    }

    /// An end is attached, for which there is room.
    pub(crate) fn attach(&mut self, handle: Handle, mask: Mask, end: End)
        requires room { self.old.made < self.old.room }
        requires absent { Contains (handles_of self.old.seats) handle.0 → ⊥ }
        ensures attached { self.new ≡ record self.old {
          seats = record { handle = handle.0; mask = mask; end = end_view end } ∷ self.old.seats;
          made = self.old.made + 1;
          room = self.new.room;
        } }
        ensures room { self.old.room ≤ self.new.room }
    {
        let earlier = self.latest.put(end, self.places.len());
        let place = Place {
            handle: handle.0,
            mask,
            end,
            attached: true,
            earlier,
        };
        match self.places.push(place) {
            Ok(()) => {}
            Err(_) => unreachable!(),
        }
    }

    /// Sets the mask of an end that is attached.
    pub(crate) fn set_mask(&mut self, handle: Handle, mask: Mask)
        requires { Contains (handles_of self.old.seats) handle.0 }
        ensures { self.new ≡ record self.old { seats = map (masked handle.0 mask) self.old.seats } }
    {
        let at = place_of(&self.places, handle);
        let place = &mut self.places[at];
        place.mask = mask;
    }

    /// Takes an end back for good, and tells which it is.
    pub(crate) fn retire(&mut self, handle: Handle) -> End
        requires { Contains (handles_of self.old.seats) handle.0 }
        ensures end { map (λ seat. seat.end) (filter (has_handle handle.0) self.old.seats)
            ≡ end_view result ∷ [] }
        ensures seats { self.new.seats ≡ filter (λ seat. not (has_handle handle.0 seat))
            self.old.seats }
        ensures rest { self.new ≡ record self.old { seats = self.new.seats } }
    {
        let at = place_of(&self.places, handle);
        let place = &mut self.places[at];
        place.attached = false;
        place.end
    }
}

// Puts a number in the place of what stands at a place, if it is one, and tells what stood there.
fn replace_at(latest: &mut [Option<usize>], at: u64, number: usize) -> Option<usize>
    ensures was { result ≡ unwrap_or (slice_get latest.old at) None }
    ensures set { latest.new ≡ slice_set latest.old at (Some number) }
{
    let at = at as usize;
    if at >= latest.len() {
        return None;
    }
    let earlier = latest[at];
    latest[at] = Some(number);
    earlier
}

// The place in which an end is attached under a handle. If handles count the ends that were
// attached, it is found at once.
fn place_of(places: &[Place], handle: Handle) -> usize
    requires { Contains (handles_of (seats_of places.now)) handle.0 }
    ensures { IsPlaceOf places.now handle.0 result }
{
    if let Some(place) = places.get(handle.0 as usize) {
        if place.attached && place.handle == handle.0 {
            return handle.0 as usize;
        }
    }
    for (at, place) in places.iter().enumerate() {
        if place.attached && place.handle == handle.0 {
            return at;
        }
    }
    unreachable!()
}

// The report of the latest place of an end that has one, from its last place on.
fn find_report(places: &[Place], latest: Option<usize>, end: End) -> Option<Report>
    requires last { latest ≡ last_to places.now (end_view end) (length places.now) }
    requires chained { (k : ℕ) (p : Place) → slice_get places.now k ≡ Some p
        → is_place_of (Some p) (end_view end) ≡ true
        → p.earlier ≡ last_to places.now (end_view end) k }
    ensures { result ≡ found_to places.now (end_view end) (length places.now) }
{
    let mut at = latest;
    while let Some(number) = at {
        let place = place_at(places, number);
        if let Some(report) = own_report(place) {
            return Some(report);
        }
        at = place.earlier;
    }
    None
}

fn place_at(places: &[Place], number: usize) -> Place
    requires { number < length places.now }
    ensures { slice_get places.now number ≡ Some result }
{
    places[number]
}

// The report of a place whose end is attached with Read in its mask.
fn own_report(place: Place) -> Option<Report>
    ensures { result ≡ own_report place }
{
    if place.attached && place.mask.read {
        Some(Report {
            handle: Handle(place.handle),
            kind: Kind::Read,
        })
    } else {
        None
    }
}

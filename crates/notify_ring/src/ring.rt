// The calls of a ring, and its steps.
ghost use Rattle.std.specs.Prelude.{◌≡◌, ◌+◌, ◌-◌, ◌%◌, ◌^◌, ◌<◌, []};
ghost use Rattle.std.specs.Prelude.{true, false, length, IfOk, ℕ};
ghost use Rattle.notify_ring.specs.Postings.{code};
ghost use Rattle.notify_ring.specs.Passes.{root_poster, new_drainer, split_left, split_right};
ghost use Rattle.notify_ring.specs.Passes.{joined, HasLooked, HasPosted, HasTaken, IsMerged};
ghost use Rattle.notify_ring.specs.Steps.{IsPosterSeat, IsDrainerSeat, ClaimMade, FlightMoved};
ghost use Rattle.notify_ring.specs.Steps.{NumberDrawn, GateLoaded, GatePeeked, HandleLoaded};
ghost use Rattle.notify_ring.specs.Steps.{GateCleared, PlaceReleased};
ghost use Rattle.notify_ring.specs.Words.{id_of, IsSeatOf, IsSameSeat, poster_ring, poster_view};
ghost use Rattle.notify_ring.specs.Words.{drainer_ring, drainer_view};
ghost use Rattle.notify_ring.specs.declared.posting.Posting.{Posting as PostingOf};
ghost use Rattle.notify_ring.specs.declared.view.Stage.TheVariants.{Resting, Seen, Cleared};
ghost use Rattle.notify_ring.specs.declared.view.Flight.TheVariants.{Idle, Claimed, Drawn, Written};

use crate::parts::{Drainer, Poster, Ring};
use crate::plays::{
    Claim, ClearGate, DrainerPass, Draw, LoadGate, LoadHandle, NextFlight, PeekGate, Posted,
    PosterPass, Release,
};
use crate::posting::{Full, Posting, from_gate, gate_of};
use crate::start::{count, zeros};
use crate::view::View;
use crate::words::{HELD, MADE, PLACES, WORDS, gate_word, handle_word};
use atomic_table::{Seat, Table};
use ev_types::{Handle, Kind, NoMemory};
use std::alloc::Global;
use std::marker::Brand;

impl Poster {
    /// How many postings this poster made.
    pub fn made(&self) -> u64
        ensures { result ≡ length (poster_view self.now).posted }
    {
        self.made
    }
}

impl Ring {
    /// A ring with no posting, its root poster, which has number 0, and its drainer.
    pub fn new(alloc: Global) -> Result<(Ring, Poster, Drainer), NoMemory>
        ensures poster { IfOk result (λ r. (poster_ring r.1 ≡ id_of r.0)
            × (poster_view r.1 ≡ root_poster)) }
        ensures drainer { IfOk result (λ r. (drainer_ring r.2 ≡ id_of r.0)
            × (drainer_view r.2 ≡ new_drainer)) }
    {
        let counts = zeros(alloc)?;
        let (table, mut seat) = Table::of_words(alloc, &[0; WORDS], &())?;
        let other = table.shared.split_seat::<DrainerPass>(&mut seat);
        let poster = Poster {
            seat,
            number: 0,
            made: 0,
            posters: 1,
        };
        let drainer = Drainer {
            seat: other,
            taken: 0,
            counts,
        };
        Ok((Ring { table }, poster, drainer))
    }

    /// Posts a notification and gives its number. It neither waits nor takes memory. `Full` comes
    /// exactly if 256 places or more were held or in flight when it looked, and then nothing is
    /// posted.
    pub fn post(&self, poster: &mut Poster, handle: Handle, kind: Kind) -> Result<u64, Full>
        requires ring { poster_ring poster.old ≡ id_of self.now }
        requires room { length (poster_view poster.old).posted < 2 ^ 56 }
        ensures ring { poster_ring poster.new ≡ poster_ring poster.old }
        ensures posted { HasPosted (poster_view poster.old) handle kind result
            (poster_view poster.new) }
    {
        let found = self.claim(&mut poster.seat);
        if found >= PLACES {
            self.unclaim(&mut poster.seat);
            return Err(Full { held: found });
        }
        let number = self.draw(&mut poster.seat, handle, kind);
        let place = number % PLACES;
        self.store_handle(&mut poster.seat, place, handle.0);
        let gate = gate_of(kind, poster.number);
        self.store_gate(&mut poster.seat, place, gate);
        poster.made += 1;
        Ok(number)
    }

    /// Looks once whether no posting is there to be taken, and takes none. It neither waits nor
    /// takes memory.
    pub fn finds_none(&self, drainer: &mut Drainer) -> bool
        requires ring { drainer_ring drainer.old ≡ id_of self.now }
        ensures ring { drainer_ring drainer.new ≡ drainer_ring drainer.old }
        ensures looked { HasLooked (drainer_view drainer.old) result (drainer_view drainer.new) }
    {
        let place = drainer.taken % PLACES;
        self.peek_gate(&mut drainer.seat, place) == 0
    }

    /// Takes the next posting, or None if its gate was empty at this call's one look. It neither
    /// waits nor takes memory.
    pub fn next(&self, drainer: &mut Drainer) -> Option<Posting>
        requires ring { drainer_ring drainer.old ≡ id_of self.now }
        ensures ring { drainer_ring drainer.new ≡ drainer_ring drainer.old }
        ensures taken { HasTaken (drainer_view drainer.old) result (drainer_view drainer.new) }
    {
        let place = drainer.taken % PLACES;
        let gate = self.load_gate(&mut drainer.seat, place);
        if gate == 0 {
            return None;
        }
        let handle = self.load_handle(&mut drainer.seat, place);
        self.clear_gate(&mut drainer.seat, place);
        self.release(&mut drainer.seat);
        let (kind, from) = from_gate(gate);
        let seq = count(&mut drainer.counts, from);
        let number = drainer.taken;
        drainer.taken += 1;
        Some(Posting {
            number,
            handle: Handle(handle),
            kind,
            from,
            seq,
        })
    }

    /// Makes a poster with the next number. Fewer than 64 may have been made. It takes no memory.
    pub fn split(&self, root: &mut Poster) -> Poster
        requires ring { poster_ring root.old ≡ id_of self.now }
        requires root { (poster_view root.old).root ≡ true }
        requires few { (poster_view root.old).posters < 64 }
        ensures ring { (poster_ring root.new ≡ poster_ring root.old)
            × (poster_ring result ≡ poster_ring root.old) }
        ensures root { poster_view root.new ≡ split_left (poster_view root.old) }
        ensures child { poster_view result ≡ split_right (poster_view root.old) }
    {
        let number = root.posters;
        let seat = self.table.shared.split_seat::<PosterPass>(&mut root.seat);
        root.posters += 1;
        Poster {
            seat,
            number,
            made: 0,
            posters: 0,
        }
    }

    /// Takes a poster in. The root keeps its list of postings. It takes no memory.
    pub fn join(&self, root: &mut Poster, other: Poster)
        requires ring { (poster_ring root.old ≡ id_of self.now)
            × (poster_ring other ≡ id_of self.now) }
        requires root { (poster_view root.old).root ≡ true }
        requires child { (poster_view other).root ≡ false }
        ensures ring { poster_ring root.new ≡ poster_ring root.old }
        ensures root { poster_view root.new ≡ joined (poster_view root.old) (poster_view other) }
    {
        let Poster {
            seat,
            number: _,
            made: _,
            posters: _,
        } = other;
        self.table
            .shared
            .join_seat::<PosterPass>(&mut root.seat, seat);
    }

    /// How many postings were made, once every other poster was joined. It takes no memory.
    pub fn close(self, root: Poster, drainer: Drainer) -> u64
        requires ring { (poster_ring root ≡ id_of self) × (drainer_ring drainer ≡ id_of self) }
        requires root { ((poster_view root).root ≡ true) × ((poster_view root).children ≡ 0) }
        ensures merged { IsMerged (poster_view root) (drainer_view drainer) result }
    {
        let Ring { table } = self;
        let Poster {
            mut seat,
            number: _,
            made: _,
            posters: _,
        } = root;
        let Drainer {
            seat: other,
            taken: _,
            counts: _,
        } = drainer;
        table.shared.join_seat::<DrainerPass>(&mut seat, other);
        let closed = table.close_with(seat);
        let tail = closed.word(MADE);
        closed.free();
        tail
    }
}

// The steps of a poster.
impl Ring {
    // One more place is held.
    fn claim(&self, seat: &mut Seat<(), View>) -> u64
        requires table { IsSeatOf self.now seat.old }
        requires idle { (seat.old.me.0.flight ≡ Idle) × IsPosterSeat seat.old.me }
        ensures table { IsSameSeat seat.old seat.new }
        ensures told { ClaimMade seat.old.me result seat.new.me }
    {
        self.table.shared.fetch_add::<Claim>(seat, HELD, 1)
    }

    // The place is given back.
    fn unclaim(&self, seat: &mut Seat<(), View>)
        requires table { IsSeatOf self.now seat.old }
        requires claimed { ((found : ℕ) × (seat.old.me.0.flight ≡ Claimed found))
            × IsPosterSeat seat.old.me }
        ensures table { IsSameSeat seat.old seat.new }
        ensures told { FlightMoved seat.old.me seat.new.me }
    {
        self.table.shared.fetch_sub::<NextFlight>(seat, HELD, 1);
    }

    // A number is drawn for what the proof picks, by the arguments that it alone reads.
    fn drawn<B: Posted>(&self, seat: &mut Seat<(), View>, _handle: Handle, _kind: Kind) -> u64
        requires table { IsSeatOf self.now seat.old }
        requires claimed { (found : ℕ) × (seat.old.me.0.flight ≡ Claimed found) × (found < 256) }
        requires room { length seat.old.me.0.posted < 2 ^ 56 }
        requires posts { IsPosterSeat seat.old.me }
        ensures table { IsSameSeat seat.old seat.new }
        ensures told { NumberDrawn B.handle B.kind seat.old.me result seat.new.me }
    {
        self.table.shared.fetch_add::<Draw<B>>(seat, MADE, 1)
    }

    // A number is drawn. What will be posted is an argument for the proof alone.
    fn draw(&self, seat: &mut Seat<(), View>, _handle: Handle, _kind: Kind) -> u64
        requires table { IsSeatOf self.now seat.old }
        requires claimed { (found : ℕ) × (seat.old.me.0.flight ≡ Claimed found) × (found < 256) }
        requires room { length seat.old.me.0.posted < 2 ^ 56 }
        requires posts { IsPosterSeat seat.old.me }
        ensures table { IsSameSeat seat.old seat.new }
        ensures told { NumberDrawn _handle _kind seat.old.me result seat.new.me }
    {
        self.drawn::<Brand>(seat, _handle, _kind)
    }

    fn store_handle(&self, seat: &mut Seat<(), View>, place: u64, handle: u64)
        requires table { IsSeatOf self.now seat.old }
        requires drawn { (x : PostingOf) × (seat.old.me.0.flight ≡ Drawn x)
            × (place ≡ x.number % 256) × (handle ≡ x.handle.0) }
        requires slots { seat.old.me.1 ≡ [] }
        ensures table { IsSameSeat seat.old seat.new }
        ensures told { FlightMoved seat.old.me seat.new.me }
    {
        let word = handle_word(place);
        self.table.shared.store::<NextFlight>(seat, word, handle);
    }

    fn store_gate(&self, seat: &mut Seat<(), View>, place: u64, gate: u64)
        requires table { IsSeatOf self.now seat.old }
        requires written { (x : PostingOf) × (seat.old.me.0.flight ≡ Written x)
            × (place ≡ x.number % 256) × (gate ≡ code x) }
        requires slots { seat.old.me.1 ≡ [] }
        ensures table { IsSameSeat seat.old seat.new }
        ensures told { FlightMoved seat.old.me seat.new.me }
    {
        let word = gate_word(place);
        self.table.shared.store::<NextFlight>(seat, word, gate);
    }
}

// The steps of the drainer.
impl Ring {
    fn load_gate(&self, seat: &mut Seat<(), View>, place: u64) -> u64
        requires table { IsSeatOf self.now seat.old }
        requires rests { (seat.old.me.0.stage ≡ Resting) × IsDrainerSeat seat.old.me }
        requires place { place ≡ length seat.old.me.0.got % 256 }
        ensures table { IsSameSeat seat.old seat.new }
        ensures told { GateLoaded seat.old.me result seat.new.me }
    {
        let word = gate_word(place);
        self.table.shared.load::<LoadGate>(seat, word)
    }

    fn peek_gate(&self, seat: &mut Seat<(), View>, place: u64) -> u64
        requires table { IsSeatOf self.now seat.old }
        requires rests { (seat.old.me.0.stage ≡ Resting) × IsDrainerSeat seat.old.me }
        requires place { place ≡ length seat.old.me.0.got % 256 }
        ensures table { IsSameSeat seat.old seat.new }
        ensures told { GatePeeked seat.old.me result seat.new.me }
    {
        let word = gate_word(place);
        self.table.shared.load::<PeekGate>(seat, word)
    }

    fn load_handle(&self, seat: &mut Seat<(), View>, place: u64) -> u64
        requires table { IsSeatOf self.now seat.old }
        requires seen { ((x : PostingOf) × (seat.old.me.0.stage ≡ Seen x))
            × IsDrainerSeat seat.old.me }
        requires place { place ≡ length seat.old.me.0.got % 256 }
        ensures table { IsSameSeat seat.old seat.new }
        ensures told { HandleLoaded seat.old.me result seat.new.me }
    {
        let word = handle_word(place);
        self.table.shared.load::<LoadHandle>(seat, word)
    }

    fn clear_gate(&self, seat: &mut Seat<(), View>, place: u64)
        requires table { IsSeatOf self.now seat.old }
        requires seen { ((x : PostingOf) × (seat.old.me.0.stage ≡ Seen x))
            × IsDrainerSeat seat.old.me }
        requires place { place ≡ length seat.old.me.0.got % 256 }
        ensures table { IsSameSeat seat.old seat.new }
        ensures told { GateCleared seat.old.me seat.new.me }
    {
        let word = gate_word(place);
        self.table.shared.store::<ClearGate>(seat, word, 0);
    }

    // The place is given back, once its gate is cleared.
    fn release(&self, seat: &mut Seat<(), View>)
        requires table { IsSeatOf self.now seat.old }
        requires cleared { (seat.old.me.0.stage ≡ Cleared) × IsDrainerSeat seat.old.me }
        ensures table { IsSameSeat seat.old seat.new }
        ensures told { PlaceReleased seat.old.me seat.new.me }
    {
        self.table.shared.fetch_sub::<Release>(seat, HELD, 1);
    }
}

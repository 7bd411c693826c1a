//! The handler repository.
ghost use Rattle.std.specs.Prelude.{◌≡◌, ◌≤◌, ◌+◌, [], Some, None, OnOk, OnErr, IsOk, OnSome};
ghost use Rattle.std.specs.Prelude.{IfNone};
ghost use Rattle.handler_repo.specs.declared.seat.Seat.TheVariants.{Home, Out};
ghost use Rattle.handler_repo.specs.Seats.{seat_of, home_of, with_entry, with_seat, without_handle};

use crate::index::{Registered, exchange};
use crate::seat::{Seat, kept};
use ev_types::{Handle, NoMemory};
use handle_search::{first_from, place_of};
use slab::Slab;
use std::alloc::Global;
use std::marker::Model;
use std::mem::ManuallyDrop;

/// The event handlers of a reactor by their handles, each at home or out, and places for more.
///
/// Only `reserve` takes memory. A handler that goes in comes out by `take`, so none is lost: a
/// repository is not dropped, and `close` wants it empty.
pub struct Repo<H> {
    seats: Slab<ManuallyDrop<Seat<H>>>,
    // In rising order of handle.
    index: Vec<Registered>,
    // How many more fit in both.
    spare: usize,
}

impl<H> Model for Repo<H> {
    ghost use Rattle.std.specs.Prelude.{vec_capacity};
    ghost use Rattle.handler_repo.specs.Seats.{Content};
    ghost use Rattle.handler_repo.specs.Index.{entries_of, IsSound};

    ghost Value = { Content H };

    ghost view = { λ r. record { entries = entries_of r.seats r.index.items; spare = r.spare } };

    ghost invariant = { λ r. IsSound r.seats r.index.items (vec_capacity r.index) r.spare };
}

impl<H> Repo<H> {
    /// An empty repository, which holds no memory.
    pub fn new(alloc: Global) -> Repo<H>
        ensures entries { result.entries ≡ [] }
    {
        Repo {
            seats: Slab::new(alloc),
            index: Vec::new(alloc),
            spare: 0,
        }
    }

    /// Makes at least `n` places spare. It answers `NoMemory` only if fewer were spare, and then
    /// all is as before.
    pub fn reserve(&mut self, n: usize) -> Result<(), NoMemory>
        ensures entries { self.new.entries ≡ self.old.entries }
        ensures spare { OnOk result (n ≤ self.new.spare) }
        ensures kept { self.old.spare ≤ self.new.spare }
        ensures room { n ≤ self.old.spare → IsOk result }
        ensures err { OnErr result (self.new ≡ self.old) }
    {
        if n <= self.spare {
            return Ok(());
        }
        self.seats.reserve(n)?;
        self.index.reserve(n)?;
        self.spare = n;
        Ok(())
    }

    /// Puts the event handler of a handle that is not there in, at home, in one spare place.
    pub fn put(&mut self, handle: Handle, h: H)
        requires room { 1 ≤ self.old.spare }
        requires absent { seat_of handle.0 self.old.entries ≡ None }
        ensures entries { self.new.entries ≡ with_entry (record {
          handle = handle.0;
          seat = Home h;
        }) self.old.entries }
        ensures spare { self.new.spare + 1 ≡ self.old.spare }
    {
        let place = first_from(&self.index, handle);
        let key = self.seats.insert_reserved(kept(Seat::Home(h)));
        self.spare -= 1;
        match self.index.insert(place, Registered { handle, key }) {
            Ok(()) => {}
            Err(_) => unreachable!(),
        }
    }

    /// Takes the event handler of this handle out, if it is at home.
    pub fn take(&mut self, handle: Handle) -> Option<H>
        ensures taken { result ≡ home_of (seat_of handle.0 self.old.entries) }
        ensures out { OnSome result (self.new.entries ≡ with_seat handle.0 Out self.old.entries) }
        ensures unchanged { IfNone result (self.new.entries ≡ self.old.entries) }
        ensures spare { self.new.spare ≡ self.old.spare }
    {
        let place = place_of(&self.index, handle)?;
        let key = self.index[place].key;
        match exchange(&mut self.seats, key, Seat::Out) {
            Seat::Home(h) => Some(h),
            Seat::Out => None,
        }
    }

    /// Takes back the event handler of a handle that is out.
    pub fn give_back(&mut self, handle: Handle, h: H)
        requires { seat_of handle.0 self.old.entries ≡ Some Out }
        ensures entries { self.new.entries ≡ with_seat handle.0 (Home h) self.old.entries }
        ensures spare { self.new.spare ≡ self.old.spare }
    {
        let Some(place) = place_of(&self.index, handle) else {
            unreachable!()
        };
        let key = self.index[place].key;
        match exchange(&mut self.seats, key, Seat::Home(h)) {
            Seat::Out => {}
            Seat::Home(_h) => unreachable!(),
        }
    }

    /// Forgets a handle that is out, whose event handler is gone for good, and gives its place
    /// back.
    pub fn drop_out(&mut self, handle: Handle)
        requires { seat_of handle.0 self.old.entries ≡ Some Out }
        ensures entries { self.new.entries ≡ without_handle handle.0 self.old.entries }
        ensures spare { self.new.spare ≡ self.old.spare + 1 }
    {
        let Some(place) = place_of(&self.index, handle) else {
            unreachable!()
        };
        let registered = self.index.remove(place);
        self.spare += 1;
        match ManuallyDrop::into_inner(self.seats.remove(registered.key)) {
            Seat::Out => {}
            Seat::Home(_h) => unreachable!(),
        }
    }

    /// Ends a repository that holds no handle.
    pub fn close(self)
        requires { self.entries ≡ [] }
    {
        let Repo {
            seats,
            index,
            spare: _,
        } = self;
        drop(seats);
        drop(index);
    }
}

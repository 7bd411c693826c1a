//! The handler repository whose handlers have cells.
ghost use Rattle.std.specs.Prelude.{◌≡◌, ◌≤◌, ◌+◌, [], Some, None, OnOk, OnErr, IsOk, OnSome};
ghost use Rattle.std.specs.Prelude.{IfNone, length, vec_capacity};
ghost use Rattle.handler_repo.specs.declared.seat.Seat.TheVariants.{Home, Out};
ghost use Rattle.handler_repo.specs.Seats.{seat_of, home_of, with_entry, with_seat, without_handle};

use crate::cell::{Placed, Spare};
use crate::cells::add_cells;
use crate::repository::Repo;
use ev_types::{Handle, NoMemory};
use std::alloc::Global;
use std::marker::Model;

/// A repository of event handlers, each of which has a cell of its own from `put` to `drop_out`: to
/// take it out and to give it back moves a pointer. The cells of handlers that are gone are used
/// again.
///
/// A contract sees what it sees of a `Repo`. Only `reserve` takes memory. A repository is not
/// dropped, and `close` wants it empty.
pub struct PlacedRepo<H> {
    repo: Repo<Placed<H>>,
    // The cells that have no handler.
    cells: Vec<Spare<H>>,
    // How many cells have one.
    filled: usize,
    // How many more have a seat and a cell.
    spare: usize,
    ghost seats: { spare ≤ repo.spare },
    ghost enough: { spare ≤ length cells.items },
    ghost counted: { length repo.entries ≤ filled },
    // Each cell that has a handler has a place to come back to.
    ghost places: { filled + length cells.items ≤ vec_capacity cells },
}

impl<H> Model for PlacedRepo<H> {
    ghost use Rattle.handler_repo.specs.Seats.{Content};

    ghost Value = { Content H };

    ghost view = { λ r. record { entries = r.repo.entries; spare = r.spare } };
}

impl<H> PlacedRepo<H> {
    /// An empty repository, which holds no memory.
    pub fn new(alloc: Global) -> PlacedRepo<H>
        ensures entries { result.entries ≡ [] }
    {
        PlacedRepo {
            repo: Repo::new(alloc),
            cells: Vec::new(alloc),
            filled: 0,
            spare: 0,
        }
    }

    /// Makes at least `n` places spare. It answers `NoMemory` only if fewer were spare, and then
    /// all is as before.
    pub fn reserve(&mut self, n: usize) -> Result<(), NoMemory>
        ensures entries { self.new.entries ≡ self.old.entries }
        ensures spare { OnOk result (n ≤ self.new.spare) }
        ensures kept { self.old.spare ≤ self.new.spare }
        ensures room { n ≤ self.old.spare → IsOk result }
        ensures err { OnErr result (self.new ≡ self.old) }
    {
        if n <= self.spare {
            return Ok(());
        }
        self.repo.reserve(n)?;
        add_cells(&mut self.cells, self.filled, n)?;
        self.spare = n;
        Ok(())
    }

    /// Puts the event handler of a handle that is not there in, at home, in one spare place.
    pub fn put(&mut self, handle: Handle, h: H)
        requires room { 1 ≤ self.old.spare }
        requires absent { seat_of handle.0 self.old.entries ≡ None }
        ensures entries { self.new.entries ≡ with_entry (record {
          handle = handle.0;
          seat = Home h;
        }) self.old.entries }
        ensures spare { self.new.spare + 1 ≡ self.old.spare }
    {
        let Some(cell) = self.cells.pop() else {
            unreachable!()
        };
        self.filled += 1;
        self.spare -= 1;
        self.repo.put(handle, cell.fill(h));
    }

    /// Takes the event handler of this handle out, if it is at home.
    pub fn take(&mut self, handle: Handle) -> Option<Placed<H>>
        ensures taken { result ≡ home_of (seat_of handle.0 self.old.entries) }
        ensures out { OnSome result (self.new.entries ≡ with_seat handle.0 Out self.old.entries) }
        ensures unchanged { IfNone result (self.new.entries ≡ self.old.entries) }
        ensures spare { self.new.spare ≡ self.old.spare }
    {
        self.repo.take(handle)
    }

    /// Takes back the event handler of a handle that is out.
    pub fn give_back(&mut self, handle: Handle, h: Placed<H>)
        requires { seat_of handle.0 self.old.entries ≡ Some Out }
        ensures entries { self.new.entries ≡ with_seat handle.0 (Home h) self.old.entries }
        ensures spare { self.new.spare ≡ self.old.spare }
    {
        self.repo.give_back(handle, h);
    }

    /// Forgets a handle that is out, and gives its place and its cell back. Its event handler,
    /// which goes for good, is answered.
    pub fn drop_out(&mut self, handle: Handle, h: Placed<H>) -> H
        requires { seat_of handle.0 self.old.entries ≡ Some Out }
        ensures handler { result ≡ h }
        ensures entries { self.new.entries ≡ without_handle handle.0 self.old.entries }
        ensures spare { self.new.spare ≡ self.old.spare + 1 }
    {
        self.repo.drop_out(handle);
        let (h, cell) = h.lift();
        self.cells.push_reserved(cell);
        self.filled -= 1;
        self.spare += 1;
        h
    }

    /// Ends a repository that holds no handle.
    pub fn close(self)
        requires { self.entries ≡ [] }
    {
        let PlacedRepo {
            repo,
            cells,
            filled: _,
            spare: _,
        } = self;
        repo.close();
        drop(cells);
    }
}

//! Cells: places of event handlers in memory, so that a handler which is taken out and given back
//! stays where it is.
ghost use Rattle.std.specs.Prelude.{◌≡◌, None, IsSome};

use ev_types::NoMemory;
use std::alloc::{AllocFailed, Global};
use std::marker::Model;

/// An event handler in a cell of its own, so that to move it moves a pointer. A contract sees the
/// handler.
pub struct Placed<H> {
    pub(crate) cell: Box<Option<H>>,
    ghost full: { IsSome cell.value },
}

impl<H> Model for Placed<H> {
    ghost use Rattle.handler_repo.specs.Cells.{held};

    ghost Value = { H };

    ghost view = { λ p. held p.cell.value p.full };
}

/// A cell that has no event handler. Dropped, it gives its memory back.
pub struct Spare<H> {
    cell: Box<Option<H>>,
    ghost empty: { cell.value ≡ None },
}

impl<H> Spare<H> {
    pub(crate) fn new(alloc: Global) -> Result<Spare<H>, NoMemory> {
        match Box::new(alloc, None) {
            Ok(cell) => Ok(Spare { cell }),
            Err(AllocFailed { value }) => match value {
                None => Err(NoMemory),
                Some(_h) => unreachable!(),
            },
        }
    }

    /// Places a handler in it.
    pub(crate) fn fill(self, h: H) -> Placed<H>
        ensures { result ≡ h }
    {
        let Spare { cell } = self;
        let mut cell = cell;
        match Box::replace(&mut cell, Some(h)) {
            None => Placed { cell },
            Some(_h) => unreachable!(),
        }
    }
}

impl<H> Drop for Spare<H> {
    fn drop(self) {
        let Spare { cell } = self;
        match Box::into_inner(cell) {
            None => {}
            Some(_h) => unreachable!(),
        }
    }
}

impl<H> Placed<H> {
    /// Takes the handler out of its cell.
    pub(crate) fn lift(self) -> (H, Spare<H>)
        ensures { result.0 ≡ self }
    {
        let Placed { cell } = self;
        let mut cell = cell;
        match Box::replace(&mut cell, None) {
            Some(h) => (h, Spare { cell }),
            None => unreachable!(),
        }
    }
}

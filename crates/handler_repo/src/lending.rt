//! The handler of a cell, lent.
ghost use Rattle.std.specs.Prelude.{◌≡◌};
ghost use Rattle.std.specs.Borrow.{Lends, sem};
ghost use Rattle.handler_repo.specs.contracts.cell.Placed.{the_row};

use crate::cell::Placed;

impl<H> Placed<H> {
    /// The handler, lent for reading and writing.
    pub fn get_mut(&mut self) -> &mut H
        ensures now { result.now ≡ self.old }
        ensures* writes_back { sem 𝓛 (Lends (the_row H.row) H.row self.entry result (λ w. w)) }
    {
        match self.cell.as_mut() {
            Some(h) => h,
            None => unreachable!(),
        }
    }
}

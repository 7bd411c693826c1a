//! The count: the sum of what was added.
ghost use Rattle.std.specs.Prelude.{◌≡◌, ◌+◌};

use crate::log::{Entry, GhostLog};
use std::marker::{Model, PhantomData};

/// A number as contracts see it. No such value is ever made.
struct NumberSeen {
    marker: PhantomData<()>,
}

impl Model for NumberSeen {
    ghost use Rattle.std.specs.Prelude.{ℕ};

    ghost Value = { ℕ };

    ghost view = { λ _. 0 };
}

/// The entry is the number.
struct Number;

impl Entry<usize, NumberSeen> for Number {
    ghost entry = { λ many. many };
}

/// A count that contracts alone see. It takes no memory and no time: nothing of it is there in a
/// run.
#[derive(Drop)]
pub struct Tally {
    added: GhostLog<NumberSeen>,
}

impl Model for Tally {
    ghost use Rattle.std.specs.Prelude.{ℕ, sum};

    ghost Value = { ℕ };

    ghost view = { λ c. sum c.added };
}

impl Tally {
    /// Nothing is counted.
    pub fn none() -> Tally
        ensures { result ≡ 0 }
    {
        Tally {
            added: GhostLog::none(),
        }
    }

    /// So many more are counted.
    pub fn add(&mut self, many: usize)
        ensures { self.new ≡ self.old + many }
    {
        self.added.add::<usize, Number>(&many);
    }
}

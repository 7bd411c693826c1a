//! The log. It stands in the log of a book (crate `logbook`), a value without bytes: each entry
//! opens a new one, whose log is the old one with that entry in front.
ghost use Rattle.std.specs.Prelude.{◌≡◌, ◌∷◌, []};

use logbook::{Opening, Rule, Seen, Start};
use std::marker::{Model, PhantomData};

/// The rule of a book that nobody shares: it asks nothing.
struct NoRule;

impl<E> Rule<E, ()> for NoRule {
    ghost use Rattle.std.specs.Prelude.{[]};
    ghost use base.Fml.{ftrue};

    ghost holds = { λ cells log. Unit {0} };

    ghost first = { [] };

    ghost hinted = { λ n log. Unit {0} };

    ghost shows = { λ log. [] };

    ghost keeps = { λ names log. ftrue };

    ghost moves = { λ ask before after answer. Unit {0} };
}

/// Which entry a value gives.
pub trait Entry<X, E> {
    /// The entry of the value.
    ghost entry: { X → E };
}

/// A value whose entry comes in front of a log.
#[derive(Drop)]
struct Added<'a, X, E> {
    before: &'a Seen<E, (), NoRule>,
    value: &'a X,
}

/// The log with one entry more.
struct Adding<M> {
    marker: PhantomData<M>,
}

impl<'a, X, E, M: Entry<X, E>> Opening<Added<'a, X, E>, E> for Adding<M> {
    ghost use Rattle.std.specs.Prelude.{◌∷◌};

    ghost log = { λ n about. M.entry about.value.now ∷ about.before.now.log };
}

/// The log without an entry.
struct Nothing;

impl<E> Opening<(), E> for Nothing {
    ghost use Rattle.std.specs.Prelude.{[]};

    ghost log = { λ n about. [] };
}

/// A list of entries, the latest first. It takes no memory and no time: nothing of it is there in a
/// run.
#[derive(Drop)]
pub struct GhostLog<E> {
    seen: Seen<E, (), NoRule>,
}

impl<E> Model for GhostLog<E> {
    ghost use Rattle.std.specs.Prelude.{List};

    ghost Value = { List E };

    ghost view = { λ l. l.seen.log };
}

impl<E> GhostLog<E> {
    /// No entry.
    pub fn none() -> GhostLog<E>
        ensures { result ≡ [] }
    {
        GhostLog {
            seen: Seen::open_row::<(), Nothing>(&(), Start::alone(), 0).0,
        }
    }

    /// The entry of this value comes in front.
    pub fn add<X, M: Entry<X, E>>(&mut self, value: &X)
        ensures { self.new ≡ M.entry value.now ∷ self.old }
    {
        let added = Added {
            before: &self.seen,
            value,
        };
        self.seen = Seen::open_row::<Added<X, E>, Adding<M>>(&added, Start::alone(), 0).0;
    }
}

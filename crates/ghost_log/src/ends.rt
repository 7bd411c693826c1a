//! The ends that a net took back.
ghost use Rattle.std.specs.Prelude.{◌≡◌, ◌∷◌, []};

use crate::log::{Entry, GhostLog};
use std::marker::{Model, PhantomData};

/// A handle and its end as contracts see them. No such value is ever made.
struct EndSeen<E> {
    handle: u64,
    end: E,
}

impl<E> Model for EndSeen<E> {
    ghost use Rattle.std.specs.Prelude.{ℕ};

    ghost Value = { ℕ × E };

    ghost view = { λ s. (s.handle, s.end) };
}

/// An end that is taken back.
#[derive(Drop)]
struct Taken<'a, E> {
    handle: u64,
    end: &'a E,
}

/// The entry is the handle with the end.
struct WithHandle;

impl<'a, E> Entry<Taken<'a, E>, EndSeen<E>> for WithHandle {
    ghost entry = { λ taken. (taken.handle, taken.end.now) };
}

/// The ends that were taken back with their handles, the latest first. It holds none of them:
/// nothing of it is there in a run.
#[derive(Drop)]
pub struct EndLog<E> {
    taken: GhostLog<EndSeen<E>>,
}

impl<E> Model for EndLog<E> {
    ghost use Rattle.std.specs.Prelude.{List, ℕ};

    ghost Value = { List (ℕ × E) };

    ghost view = { λ l. l.taken };
}

impl<E> EndLog<E> {
    /// No end was taken back.
    pub fn none() -> EndLog<E>
        ensures { result ≡ [] }
    {
        EndLog {
            taken: GhostLog::none(),
        }
    }

    /// One more end is taken back.
    pub fn add(&mut self, handle: u64, end: &E)
        ensures { self.new ≡ (handle, end.now) ∷ self.old }
    {
        let taken = Taken { handle, end };
        self.taken.add::<Taken<E>, WithHandle>(&taken);
    }
}

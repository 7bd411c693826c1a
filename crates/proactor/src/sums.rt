//! What an end counts.
ghost use Rattle.std.specs.Prelude.{◌≡◌};
ghost use Rattle.proactor.specs.Sums.{completed_sums, given_sums, no_sums, note_of, taken_sums};

use crate::AsynchNote;

/// The bytes that were read and written so far, the operations that completed, and whether there
/// was no memory in a turn. Each count stands still at 2^64 - 1.
#[derive(Clone, Copy)]
pub(crate) struct Sums {
    read: u64,
    wrote: u64,
    completed: u64,
    starved: bool,
}

impl Sums {
    /// Nothing happened yet.
    pub(crate) fn none() -> Sums
        ensures { result ≡ no_sums }
    {
        Sums {
            read: 0,
            wrote: 0,
            completed: 0,
            starved: false,
        }
    }

    /// So many bytes were read.
    pub(crate) fn take(&mut self, count: usize)
        ensures { self.new ≡ taken_sums count self.old }
    {
        self.read = self.read.saturating_add(count as u64);
    }

    /// So many bytes were written.
    pub(crate) fn give(&mut self, count: usize)
        ensures { self.new ≡ given_sums count self.old }
    {
        self.wrote = self.wrote.saturating_add(count as u64);
    }

    /// An operation completed, with or without memory for what that led to.
    pub(crate) fn complete(&mut self, starved: bool)
        ensures { self.new ≡ completed_sums starved self.old }
    {
        self.completed = self.completed.saturating_add(1);
        self.starved = self.starved || starved;
    }

    /// The note of connection number `conn`, with so many operations cancelled.
    pub(crate) fn note(&self, conn: u64, cancelled: u64) -> AsynchNote
        ensures { result ≡ note_of conn cancelled self.now }
    {
        AsynchNote {
            conn,
            read: self.read,
            wrote: self.wrote,
            completed: self.completed,
            cancelled,
            no_memory: self.starved,
        }
    }
}

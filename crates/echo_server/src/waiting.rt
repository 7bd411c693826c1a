//! Bytes that wait to be written back.
ghost use Rattle.std.specs.Prelude.{◌≡◌, ◌≤◌, [], length, drop};
ghost use Rattle.echo_server.specs.Echo.{none_wait};

use std::marker::Model;

/// How many bytes wait at most: as many as one read takes.
pub(crate) const PIECE: usize = 4096;

/// Bytes that were read and are to be written back, at most 4,096. A contract sees the list of
/// them.
#[derive(Drop)]
pub(crate) struct Waiting {
    piece: [u8; PIECE],
    from: usize,
    to: usize,
}

impl Model for Waiting {
    ghost use Rattle.std.specs.Prelude.{ℕ, List, ◌≤◌, slice_range};

    ghost Value = { List ℕ };

    ghost view = { λ w. slice_range w.piece w.from w.to };

    ghost invariant = { λ w. (w.from ≤ w.to) × (w.to ≤ 4096) };
}

impl Waiting {
    /// No bytes.
    pub(crate) fn none() -> Waiting
        ensures { result ≡ [] }
    {
        Waiting {
            piece: [0; PIECE],
            from: 0,
            to: 0,
        }
    }

    /// Whether none wait.
    pub(crate) fn is_empty(&self) -> bool
        ensures { result ≡ none_wait self.now }
    {
        self.from == self.to
    }

    /// The bytes, in the order in which they were read.
    pub(crate) fn bytes(&self) -> &[u8]
        ensures { result.now ≡ self.now }
    {
        &self.piece[self.from..self.to]
    }

    /// These wait from now on, and no others.
    pub(crate) fn fill(&mut self, bytes: &[u8])
        requires { length bytes.now ≤ 4096 }
        ensures { self.new ≡ bytes.now }
    {
        self.piece[..bytes.len()].copy_from_slice(bytes);
        self.from = 0;
        self.to = bytes.len();
    }

    /// So many from the front wait no more.
    pub(crate) fn pass(&mut self, count: usize)
        requires { count ≤ length self.old }
        ensures { self.new ≡ drop count self.old }
    {
        self.from += count;
    }
}

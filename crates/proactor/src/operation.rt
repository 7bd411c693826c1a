//! Asynchronous operations and their completions (POSA2, Proactor: Asynchronous Operation).
ghost use Rattle.std.specs.Prelude.{◌≡◌};
ghost use Rattle.proactor.specs.Events.{is_failed, is_starved};

use cdr_record::Bytes;

/// An asynchronous operation on a connection. Its number is the asker's own: it comes back with the
/// completion.
#[derive(Debug, Drop)]
pub enum Op {
    /// Read some bytes.
    Read {
        /// Its number.
        id: u64,
        /// How many bytes at most, from 1 to 65,536.
        want: usize,
    },
    /// Write all of these bytes.
    Write {
        /// Its number.
        id: u64,
        /// The bytes, at least one.
        bytes: Bytes,
    },
}

/// How an operation completed.
#[derive(Debug, Drop)]
pub enum Outcome {
    /// A read gave these bytes, at least one.
    Read(Bytes),
    /// A write: all of its bytes were taken.
    Wrote,
    /// A read found the end of the input.
    Over,
    /// The read or the write failed, and the end's count of faults rose.
    Failed,
    /// The operation stood when the connection was closed.
    Cancelled,
    /// There was no memory for the bytes of a read, which was not made.
    NoMemory,
}

impl Outcome {
    /// Whether the operation failed.
    pub(crate) fn is_failed(&self) -> bool
        ensures { result ≡ is_failed self.now }
    {
        match self {
            Outcome::Failed => true,
            _ => false,
        }
    }

    /// Whether there was no memory for the operation.
    pub(crate) fn is_starved(&self) -> bool
        ensures { result ≡ is_starved self.now }
    {
        match self {
            Outcome::NoMemory => true,
            _ => false,
        }
    }
}

/// A completion.
#[derive(Debug, Drop)]
pub struct Completed {
    /// The number of the operation.
    pub id: u64,
    /// How it completed.
    pub outcome: Outcome,
}

/// At most two operations, the first first.
#[derive(Debug, Drop)]
pub struct Ops {
    /// The first.
    pub first: Option<Op>,
    /// The second.
    pub second: Option<Op>,
}

/// What a completion handler asks for next.
#[derive(Debug, Drop)]
pub struct Next {
    /// Operations, which are queued after those that stand.
    pub ops: Ops,
    /// Whether the connection is to be closed.
    pub done: bool,
}

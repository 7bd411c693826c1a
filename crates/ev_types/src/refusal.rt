//! Refusals that carry nothing.

use std::alloc::{AllocError, AllocFailed};
use std::error::Error;
use std::fmt;

/// There was no memory for what was asked. After this answer all is as it was before the call,
/// unless the call says otherwise.
#[derive(Clone, Copy, PartialEq, Eq, Hash, Debug)]
pub struct NoMemory;

impl fmt::Display for NoMemory {
    fn fmt<W: fmt::Write>(&self, f: &mut fmt::Formatter<W>) -> fmt::Result {
        write!(f, "out of memory")
    }
}

impl Error for NoMemory {}

impl From<AllocError> for NoMemory {
    ghost from_gives = { λ _ _. Unit {0} };

    fn from(_: AllocError) -> NoMemory {
        NoMemory
    }
}

impl<T: Drop> From<AllocFailed<T>> for NoMemory {
    ghost from_gives = { λ _ _. Unit {0} };

    fn from(_: AllocFailed<T>) -> NoMemory {
        NoMemory
    }
}

/// The demultiplexer could not take an end in. Its count of faults rose.
#[derive(Clone, Copy, PartialEq, Eq, Hash, Debug)]
pub struct NetFailed;

impl fmt::Display for NetFailed {
    fn fmt<W: fmt::Write>(&self, f: &mut fmt::Formatter<W>) -> fmt::Result {
        write!(f, "the demultiplexer failed")
    }
}

impl Error for NetFailed {}

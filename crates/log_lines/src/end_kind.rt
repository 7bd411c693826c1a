//! How a connection ended.

/// How a connection ended, as its closing line tells.
#[derive(Clone, Copy, PartialEq, Eq, Hash, Debug)]
pub enum EndKind {
    /// The input ended after a whole record, or without a byte.
    End,
    /// The input ended inside a record, of which so many bytes are there.
    Partial(u64),
    /// No record can stand at this place of the input, in bytes from 0.
    Malformed(u64),
    /// A read failed.
    Failed,
    /// There was no memory for a record.
    NoMemory,
    /// Nothing came for too long.
    Idle,
    /// The server ended first.
    Stopped,
    /// The connection was not taken.
    Refused,
}

//! What an end notes.

/// What an end over a completion handler notes of a turn, or of its closing. Each count stands
/// still at 2^64 - 1.
#[derive(Clone, Copy, PartialEq, Eq, Debug)]
pub struct AsynchNote {
    /// The number of the connection.
    pub conn: u64,
    /// How many bytes were read so far.
    pub read: u64,
    /// How many bytes were written so far.
    pub wrote: u64,
    /// How many operations have completed so far.
    pub completed: u64,
    /// How many of them were cancelled.
    pub cancelled: u64,
    /// Whether a turn ended the connection for want of memory.
    pub no_memory: bool,
}

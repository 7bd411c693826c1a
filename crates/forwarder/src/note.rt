//! What the forwarding service notes.

/// How a service ended.
#[derive(Clone, Copy, PartialEq, Eq, Debug)]
pub enum ForwardEnding {
    /// The source was read to its end, no record is bad or unfinished, and all was sent.
    End,
    /// The record whose first byte has this offset is bad or unfinished, and all before it was
    /// sent.
    BadRecord {
        /// The offset in bytes, at most `u64::MAX`.
        at: u64,
    },
    /// A read failed, and all that was read before was sent. The end of the source tells whether
    /// the source failed or has more bytes than may be read.
    ReadFailed,
    /// A write to the peer failed.
    PeerFailed,
    /// There was no memory for the records.
    NoMemory,
}

/// What a service notes of a turn: its totals so far.
#[derive(Clone, Copy, PartialEq, Eq, Debug)]
pub struct ForwardNote {
    /// How many records were read, at most `u64::MAX`.
    pub records: u64,
    /// How many bytes the peer's end was given, at most `u64::MAX`.
    pub bytes: u64,
    /// How the service ends once all is sent, if it reads no more: at the end of its source, at
    /// a bad or an unfinished record, or for a read that failed.
    pub stop: Option<ForwardEnding>,
    /// How the service ended, once it did.
    pub ended: Option<ForwardEnding>,
}

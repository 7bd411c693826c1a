//! What the handlers of the echo server note.

/// How a connection ended.
#[derive(Clone, Copy, PartialEq, Eq, Debug)]
pub enum Ending {
    /// Its input ended, and all of it was written back.
    End,
    /// A read or a write failed.
    Failed,
    /// No byte went either way for too long.
    Idle,
    /// The server ended first.
    Stopped,
    /// The connection was not taken.
    Refused,
}

/// What a handler notes of a turn, for the journal.
#[derive(Clone, Copy, PartialEq, Eq, Debug)]
pub enum EchoNote {
    /// A connection was accepted.
    Accepted,
    /// No connection was accepted: none waited, or the upcall was for something else.
    NoneWaiting,
    /// An accept failed.
    ListenerFailed,
    /// The listener was closed.
    ListenerShut,
    /// A turn of a connection.
    Moved {
        /// How many bytes it read.
        read: u64,
        /// How many bytes it wrote back.
        written: u64,
    },
    /// A connection was closed.
    Finished {
        /// How it ended.
        end: Ending,
    },
}

//! What the server's handlers note.

use crate::LoggedRecords;
use log_lines::EndKind;

/// What a handler of the logging server notes of a turn. Connections are numbered from 0, in the
/// order in which they were accepted.
#[derive(Debug, Drop)]
pub enum ServerNote {
    /// A connection was accepted.
    Accepted {
        /// Its number.
        conn: u64,
    },
    /// No connection was accepted: none waited, or the upcall was for something else.
    NoneWaiting,
    /// An accept failed.
    ListenerFailed,
    /// The listener was closed.
    ListenerShut,
    /// A turn of a connection.
    Piece {
        /// The connection's number.
        conn: u64,
        /// How many bytes it took.
        took: u64,
        /// The records that these complete, in order.
        records: LoggedRecords,
    },
    /// A connection was closed.
    Finished {
        /// Its number.
        conn: u64,
        /// How it ended.
        end: EndKind,
    },
}

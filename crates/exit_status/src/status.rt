//! How a command of the program ends.
ghost use Rattle.std.specs.Prelude.{◌≡◌};
ghost use Rattle.exit_status.specs.Statuses.{code_of, number_of, status_of};

use std::fmt;

/// How a command of the program ended. Its `Display` is the line that tells it, with a line feed;
/// if all is done there is none.
#[derive(Clone, Copy, PartialEq, Eq, Debug)]
pub enum Status {
    /// All is done.
    Done,
    /// The words of the command line are no command.
    Usage,
    /// A line of the input is none of the text that is wanted.
    BadText {
        /// The number of the line, from 1.
        line: u64,
    },
    /// A read failed.
    ReadFault,
    /// A write failed.
    WriteFault,
    /// A wait for events failed.
    NetFault,
    /// There was no memory.
    NoMemory,
    /// The host could not listen.
    ListenFault,
    /// The input has a malformed record.
    BadRecord {
        /// The offset of the record in bytes.
        at: u64,
    },
    /// An entry of a journal may not follow those before it.
    Illegal {
        /// The number of the entry, from 0.
        at: u64,
    },
    /// The input has more bytes than the limit.
    TooLong {
        /// The limit in bytes.
        limit: u64,
    },
    /// A volume of the journal was not taken.
    VolumeFault,
    /// A connection to a peer could not be made, or a write to it failed.
    PeerFault,
    /// No connection to a peer was made in time.
    TimedOut {
        /// The moment in milliseconds since the connection was begun.
        at: u64,
    },
    /// Nothing could be reported any more while something was still to be sent.
    Unfinished,
}

impl Status {
    /// The code with which the program ends.
    pub fn code(self) -> u8
        ensures { result ≡ code_of self }
    {
        match self {
            Status::Done => 0,
            Status::Usage => 1,
            Status::BadText { .. } => 2,
            Status::ReadFault => 3,
            Status::WriteFault => 4,
            Status::NetFault => 5,
            Status::NoMemory => 6,
            Status::ListenFault => 7,
            Status::BadRecord { .. } => 8,
            Status::Illegal { .. } => 10,
            Status::TooLong { .. } => 11,
            Status::VolumeFault => 12,
            Status::PeerFault => 13,
            Status::TimedOut { .. } => 14,
            Status::Unfinished => 15,
        }
    }

    /// The number that goes with it, 0 if it has none.
    pub fn number(self) -> u64
        ensures { result ≡ number_of self }
    {
        match self {
            Status::BadText { line } => line,
            Status::BadRecord { at } | Status::Illegal { at } | Status::TimedOut { at } => at,
            Status::TooLong { limit } => limit,
            _ => 0,
        }
    }

    /// The status with this code and this number, or `None` for a code that is none of a status.
    /// The number counts only if the status has one.
    pub fn of(code: u8, number: u64) -> Option<Status>
        ensures { result ≡ status_of code number }
    {
        Some(match code {
            0 => Status::Done,
            1 => Status::Usage,
            2 => Status::BadText { line: number },
            3 => Status::ReadFault,
            4 => Status::WriteFault,
            5 => Status::NetFault,
            6 => Status::NoMemory,
            7 => Status::ListenFault,
            8 => Status::BadRecord { at: number },
            10 => Status::Illegal { at: number },
            11 => Status::TooLong { limit: number },
            12 => Status::VolumeFault,
            13 => Status::PeerFault,
            14 => Status::TimedOut { at: number },
            15 => Status::Unfinished,
            _ => return None,
        })
    }
}

impl fmt::Display for Status {
    ghost use Rattle.std.specs.Prelude.{Some};
    ghost use Rattle.exit_status.specs.Statuses.{line_of};

    ghost output = { λ status. Some (line_of status) };

    fn fmt<W: fmt::Write>(&self, f: &mut fmt::Formatter<W>) -> fmt::Result {
        match *self {
            Status::Done => Ok(()),
            Status::Usage => f.write_str("logd: usage\n"),
            Status::BadText { line } => writeln!(f, "logd: bad line {line}"),
            Status::ReadFault => f.write_str("logd: read failed\n"),
            Status::WriteFault => f.write_str("logd: write failed\n"),
            Status::NetFault => f.write_str("logd: wait failed\n"),
            Status::NoMemory => f.write_str("logd: out of memory\n"),
            Status::ListenFault => f.write_str("logd: listen failed\n"),
            Status::BadRecord { at } => writeln!(f, "logd: bad record at {at}"),
            Status::Illegal { at } => writeln!(f, "logd: illegal entry {at}"),
            Status::TooLong { limit } => writeln!(f, "logd: input over {limit}"),
            Status::VolumeFault => f.write_str("logd: volume failed\n"),
            Status::PeerFault => f.write_str("logd: peer failed\n"),
            Status::TimedOut { at } => writeln!(f, "logd: connect timed out at {at}"),
            Status::Unfinished => f.write_str("logd: unfinished\n"),
        }
    }
}

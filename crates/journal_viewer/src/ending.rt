//! How viewing a journal ends.
ghost use Rattle.std.specs.Prelude.{◌≡◌};
ghost use Rattle.journal_viewer.specs.Endings.{status_of};

use std::fmt;

/// How viewing a journal ended. Its `Display` is the line that tells it, with a line feed; if
/// the whole journal was drawn there is none.
#[derive(Clone, Copy, PartialEq, Eq, Debug)]
pub enum ViewEnd {
    /// The journal is legal, and its picture was written.
    Drawn,
    /// This line, from 1, is the first that is none of a journal's text.
    BadText {
        /// The number of the line.
        line: u64,
    },
    /// A read failed.
    ReadFault,
    /// A write failed.
    WriteFault,
    /// There was no memory.
    NoMemory,
    /// The entry of this number, from 0, is the first that may not follow those before it; the
    /// picture up to it was written.
    Illegal {
        /// The number of the entry.
        at: u64,
    },
    /// As many bytes as the limit were read, and one more was there.
    TooLong {
        /// The limit.
        limit: u64,
    },
}

impl ViewEnd {
    /// The status with which the program ends.
    pub fn status(self) -> u8
        ensures { result ≡ status_of self }
    {
        match self {
            ViewEnd::Drawn => 0,
            ViewEnd::BadText { .. } => 2,
            ViewEnd::ReadFault => 3,
            ViewEnd::WriteFault => 4,
            ViewEnd::NoMemory => 6,
            ViewEnd::Illegal { .. } => 10,
            ViewEnd::TooLong { .. } => 11,
        }
    }
}

impl fmt::Display for ViewEnd {
    ghost use Rattle.std.specs.Prelude.{Some};
    ghost use Rattle.journal_viewer.specs.Endings.{ending_line};

    ghost output = { λ end. Some (ending_line end) };

    fn fmt<W: fmt::Write>(&self, f: &mut fmt::Formatter<W>) -> fmt::Result {
        match *self {
            ViewEnd::Drawn => Ok(()),
            ViewEnd::BadText { line } => writeln!(f, "journal_view: bad line {line}"),
            ViewEnd::ReadFault => f.write_str("journal_view: read failed\n"),
            ViewEnd::WriteFault => f.write_str("journal_view: write failed\n"),
            ViewEnd::NoMemory => f.write_str("journal_view: out of memory\n"),
            ViewEnd::Illegal { at } => writeln!(f, "journal_view: illegal entry {at}"),
            ViewEnd::TooLong { limit } => writeln!(f, "journal_view: input over {limit}"),
        }
    }
}

//! Why the text of a journal was refused.
ghost use Rattle.std.specs.Prelude.{◌≡◌};
ghost use Rattle.journal_reader.specs.declared.refusal.JournalRefused.TheVariants.{
  NoMemory as RefusedForMemory,
};

use std::error::Error;
use std::fmt;

/// Why the text of a journal was refused.
#[derive(Clone, Copy, PartialEq, Eq, Debug)]
pub enum JournalRefused {
    /// The line of this number, from 1, is the first that the grammar does not allow there.
    BadLine {
        /// The number of the line.
        line: u64,
    },
    /// There was no memory.
    NoMemory,
}

impl fmt::Display for JournalRefused {
    fn fmt<W: fmt::Write>(&self, f: &mut fmt::Formatter<W>) -> fmt::Result {
        match self {
            JournalRefused::BadLine { line } => write!(f, "line {line} is none of a journal"),
            JournalRefused::NoMemory => write!(f, "out of memory"),
        }
    }
}

impl Error for JournalRefused {}

impl From<ev_types::NoMemory> for JournalRefused {
    ghost from_gives = { λ _ e. e ≡ RefusedForMemory };

    fn from(_: ev_types::NoMemory) -> JournalRefused {
        JournalRefused::NoMemory
    }
}

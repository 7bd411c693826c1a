//! How a run ends.
ghost use Rattle.std.specs.Prelude.{◌≡◌, ◌^◌};
ghost use Rattle.cmd_one.specs.Statuses.{status_by};
ghost use Rattle.cmd_one.specs.Ran.{end_by};

use exit_status::Status;
use one_run::{Ending, Halt};

/// How many bytes are read at most: 2^40.
const MOST_INPUT: u64 = 1 << 40;

/// How a run ended. Of several faults the first in this order is told.
#[derive(Clone, Copy, PartialEq, Eq, Debug)]
pub enum OneEnding {
    /// The connection closed itself where reading stops, and all was written.
    Done,
    /// A read failed, for which the connection was closed.
    ReadFault,
    /// A write failed, after which nothing was written.
    WriteFault,
    /// There was no memory.
    NoMemory,
    /// As many bytes as the limit were read, and one more was there.
    TooLong,
    /// A volume of the journal was not taken.
    VolumeFault,
}

/// What went wrong outside a run: with its input, or with its output.
#[derive(Clone, Copy, Debug)]
pub(crate) struct Faults {
    /// A read failed.
    pub failed: bool,
    /// A write failed.
    pub broken: bool,
    /// A byte follows the last that may be read.
    pub too_long: bool,
}

impl OneEnding {
    /// Its status.
    pub fn status(self) -> Status
        ensures { result ≡ status_by (2 ^ 40) self }
    {
        match self {
            OneEnding::Done => Status::Done,
            OneEnding::ReadFault => Status::ReadFault,
            OneEnding::WriteFault => Status::WriteFault,
            OneEnding::NoMemory => Status::NoMemory,
            OneEnding::TooLong => Status::TooLong { limit: MOST_INPUT },
            OneEnding::VolumeFault => Status::VolumeFault,
        }
    }

    /// The least of those of a run's faults.
    pub(crate) fn least(faults: Faults, ending: Ending) -> OneEnding
        ensures { result ≡ end_by faults.failed faults.broken faults.too_long ending.lost
            ending.halt }
    {
        if faults.failed {
            return OneEnding::ReadFault;
        }
        if faults.broken {
            return OneEnding::WriteFault;
        }
        match (ending.lost, ending.halt) {
            (true, _) | (false, Some(Halt::NoMemory)) => OneEnding::NoMemory,
            _ if faults.too_long => OneEnding::TooLong,
            (false, None) => OneEnding::Done,
            _ => OneEnding::VolumeFault,
        }
    }
}

//! What the program says of a status on standard error.
ghost use Rattle.std.specs.Prelude.{◌≡◌};
ghost use Rattle.logging_server.specs.FaultLines.{line_status, line_at};

use exit_status::Status;
use std::fmt;

/// The line of a status that is not 0. Its `Display` prints it with a line feed, and nothing for
/// status 0 or for a number that is no status.
#[derive(Clone, Copy, PartialEq, Eq, Debug)]
pub struct FaultLine {
    status: u8,
    at: u64,
}

/// The line of a status and its number, as `logd: read failed` for 3 and `logd: input over 9` for
/// 11 at 9.
pub fn fault_line(status: u8, at: u64) -> FaultLine
    ensures status { line_status result ≡ status }
    ensures at { line_at result ≡ at }
{
    FaultLine { status, at }
}

impl fmt::Display for FaultLine {
    ghost use Rattle.std.specs.Prelude.{Some};
    ghost use Rattle.logging_server.specs.FaultLines.{line_status, line_at, fault_text};

    ghost output = { λ line. Some (fault_text (line_status line) (line_at line)) };

    fn fmt<W: fmt::Write>(&self, f: &mut fmt::Formatter<W>) -> fmt::Result {
        match Status::of(self.status, self.at) {
            Some(status) => write!(f, "{status}"),
            None => Ok(()),
        }
    }
}

//! A completion handler that writes back what it reads.
ghost use Rattle.std.specs.Prelude.{◌≡◌};
ghost use Rattle.proactor.specs.Echo.{FollowsEcho, back_of, first_read};

use crate::{Completed, CompletionHandler, Next, Op, Ops, Outcome};
use cdr_record::Bytes;
use ev_base::NoMemory;

/// How many bytes a read wants.
const PIECE: usize = 4096;

/// The number of its reads, and that of its writes: at most one operation stands at a time.
const READ: u64 = 0;

const WRITE: u64 = 1;

/// The completion handler of an echo service: it writes what a read gave, and asks for the next
/// read when that write has completed. It is done at the end of its input.
#[derive(Clone, Copy, PartialEq, Eq, Debug)]
pub struct EchoCompletions;

impl EchoCompletions {
    /// The operation that an end with this handler begins with.
    pub fn first() -> Op
        ensures { result ≡ first_read }
    {
        next_read()
    }
}

/// A read.
fn next_read() -> Op
    ensures { result ≡ first_read }
{
    Op::Read {
        id: READ,
        want: PIECE,
    }
}

/// A write of these bytes; a read, if there are none.
fn write_back(bytes: Bytes) -> Op
    ensures { result ≡ back_of bytes }
{
    if bytes.as_slice().is_empty() {
        return next_read();
    }
    Op::Write { id: WRITE, bytes }
}

impl CompletionHandler for EchoCompletions {
    ghost follows = { λ handler first list. FollowsEcho first list };

    fn completed(&mut self, completed: Completed) -> Result<Next, NoMemory> {
        let Completed { id: _, outcome } = completed;
        let (first, done) = match outcome {
            Outcome::Read(bytes) => (Some(write_back(bytes)), false),
            Outcome::Wrote => (Some(next_read()), false),
            Outcome::Over => (None, true),
            Outcome::Failed | Outcome::Cancelled | Outcome::NoMemory => (None, false),
        };
        Ok(Next {
            ops: Ops {
                first,
                second: None,
            },
            done,
        })
    }
}

//! How a run ends.
ghost use Rattle.std.specs.Prelude.{◌≡◌, ◌^◌, IsSome};
ghost use Rattle.cmd_forward.specs.Statuses.{status_by};
ghost use Rattle.cmd_forward.specs.Endings.{Closes, EndsWith, HasEnded, MayEnd, cause_of};
ghost use Rattle.cmd_forward.specs.Endings.{outcome_closed, outcome_ended};

use connector_run::Ended;
use exit_status::Status;
use forwarder::{ConnectNote, ForwardEnding, ForwardNote};
use reactor_model::Entry;

/// How many bytes are read at most: 2^40.
const MOST_INPUT: u64 = 1 << 40;

/// How a run of `forward` ended. Of several faults the first in this order is told.
#[derive(Clone, Copy, PartialEq, Eq, Debug)]
pub enum Outcome {
    /// The input was read to its end, and all was sent.
    Done {
        /// How many records were sent.
        records: u64,
        /// How many bytes were sent.
        bytes: u64,
    },
    /// The words don't call the command.
    Usage,
    /// A read of the input failed.
    ReadFault,
    /// A write to the output failed.
    WriteFault,
    /// A wait of the net failed, or the end was not attached to it.
    NetFault,
    /// There was no memory.
    NoMemory,
    /// A record is bad or unfinished.
    BadRecord {
        /// The offset of its first byte.
        at: u64,
    },
    /// As many bytes as may be read were read, and one more was there.
    TooLong,
    /// The connection could not be begun or made, or a write to the peer failed.
    PeerFault,
    /// The connection was not made in time.
    ConnectTimeout {
        /// The moment in milliseconds since the connection was begun.
        at: u64,
    },
    /// Nothing could be reported any more while something was still to be sent.
    Unfinished,
}

impl Outcome {
    /// Its status. A run that stopped at a byte too many tells how many may be read.
    pub fn status(self) -> Status
        ensures { result ≡ status_by (2 ^ 40) self }
    {
        match self {
            Outcome::Done { .. } => Status::Done,
            Outcome::Usage => Status::Usage,
            Outcome::ReadFault => Status::ReadFault,
            Outcome::WriteFault => Status::WriteFault,
            Outcome::NetFault => Status::NetFault,
            Outcome::NoMemory => Status::NoMemory,
            Outcome::BadRecord { at } => Status::BadRecord { at },
            Outcome::TooLong => Status::TooLong { limit: MOST_INPUT },
            Outcome::PeerFault => Status::PeerFault,
            Outcome::ConnectTimeout { at } => Status::TimedOut { at },
            Outcome::Unfinished => Status::Unfinished,
        }
    }

    /// That of a run, by how it ended, by the last entries of its journal, and by whether a read
    /// of the input failed.
    pub(crate) fn of(
        ended: Ended,
        entries: &[Entry<ConnectNote<ForwardNote>>],
        failed: bool,
    ) -> Outcome
        requires { MayEnd ended entries.now }
        ensures { HasEnded ended entries.now failed result }
    {
        match ended {
            Ended::Closed => closed(entries, failed),
            Ended::Over => Outcome::Unfinished,
            Ended::NetFault => Outcome::NetFault,
            Ended::NoMemory => Outcome::NoMemory,
        }
    }
}

// The status of a run whose connector closed itself, which the last turn of its journal notes.
fn closed(entries: &[Entry<ConnectNote<ForwardNote>>], failed: bool) -> Outcome
    requires { EndsWith entries.now }
    ensures { (ends : EndsWith entries.now) → result ≡ outcome_closed ends.note failed }
{
    match entries {
        [.., Entry::Returned { note, .. }, _, _] => by_note(note, failed),
        _ => unreachable!("the journal ends with its last turn"),
    }
}

// The status by the note with which the connector closed itself.
fn by_note(note: &ConnectNote<ForwardNote>, failed: bool) -> Outcome
    requires { Closes note.now }
    ensures { result ≡ outcome_closed note.now failed }
{
    match note {
        ConnectNote::Failed => Outcome::PeerFault,
        ConnectNote::TimedOut { now } => Outcome::ConnectTimeout { at: *now },
        ConnectNote::Live(said) => by_service(*said, failed),
        ConnectNote::Waiting | ConnectNote::Connected | ConnectNote::Shut => {
            unreachable!("it did not close itself so")
        }
    }
}

// The status by what the service noted as it ended.
fn by_service(said: ForwardNote, failed: bool) -> Outcome
    requires { IsSome said.ended }
    ensures { result ≡ outcome_ended said.ended said failed }
{
    let Some(how) = said.ended else {
        unreachable!("it ended")
    };
    match cause_of(said.stop, how) {
        ForwardEnding::NoMemory => Outcome::NoMemory,
        ForwardEnding::PeerFailed => Outcome::PeerFault,
        _ if failed => Outcome::ReadFault,
        ForwardEnding::End => Outcome::Done {
            records: said.records,
            bytes: said.bytes,
        },
        ForwardEnding::BadRecord { at } => Outcome::BadRecord { at },
        ForwardEnding::ReadFailed => Outcome::TooLong,
    }
}

// For what the service ended. If its peer failed, a bad record or a failed read comes first.
fn cause_of(stop: Option<ForwardEnding>, how: ForwardEnding) -> ForwardEnding
    ensures { result ≡ cause_of stop how }
{
    match (how, stop) {
        (ForwardEnding::PeerFailed, None | Some(ForwardEnding::End)) => ForwardEnding::PeerFailed,
        (ForwardEnding::PeerFailed, Some(first)) => first,
        (how, _) => how,
    }
}

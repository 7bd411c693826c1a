//! How a run of the command ended, and what it leaves.
ghost use Rattle.std.specs.Prelude.{◌≡◌, [], Some};
ghost use Rattle.grouped_lines.specs.laws_script_runs.specs.Connections.{lines_by_connection};
ghost use Rattle.cmd_pool.specs.Leaving.{WritesKept, end_by, unwritten_end};
ghost use Rattle.cmd_pool.specs.Statuses.{status_by};

use crate::line::Lines;
use crate::made::MadeLines;
use chosen_timers::ChosenTimers;
use ev_base::Sink;
use exit_status::Status;
use grouped_lines::write_given_by_connection;
use server_run::{DropVolumes, Ending, Entry, Journal, NoWatch, Parts, Served, ServerNote};
use std::alloc::Global;

/// How a run of the command ended. Of several causes the first in this order is told.
#[derive(Clone, Copy, PartialEq, Eq, Debug)]
pub(crate) enum PoolEnd {
    /// Nothing could be reported any more, or a notice ended the run. All lines were written.
    Done,
    /// A write to the output failed, and its count of faults rose.
    WriteFault,
    /// A wait of the net failed, or its attach of the listener did, and its count of these rose.
    NetFault,
    /// There was no memory.
    NoMemory,
    /// The host could not listen, and its count of faults rose.
    ListenFault,
}

/// What a run of the command leaves.
#[derive(Drop)]
pub(crate) struct PoolServed<M, K> {
    /// How it ended.
    pub(crate) end: PoolEnd,
    /// The net that the host gave, if it listened.
    pub(crate) net: Option<M>,
    /// The journal.
    pub(crate) journal: Journal<ServerNote>,
    /// The sink that was handed in.
    pub(crate) output: K,
}

impl PoolEnd {
    /// How it ends whose server ended so.
    fn by(ending: Ending) -> PoolEnd
        ensures { result ≡ end_by ending }
    {
        match ending {
            Ending::Over | Ending::Notified => PoolEnd::Done,
            Ending::NotAttached | Ending::NetFault => PoolEnd::NetFault,
            Ending::NoMemory | Ending::Broken | Ending::VolumeFault => PoolEnd::NoMemory,
        }
    }

    /// How it ends if there is no memory to write its lines.
    fn unwritten(self) -> PoolEnd
        ensures { result ≡ unwritten_end self }
    {
        match self {
            PoolEnd::Done => PoolEnd::NoMemory,
            other => other,
        }
    }

    /// Its status.
    pub(crate) fn status(self) -> Status
        ensures { result ≡ status_by self }
    {
        match self {
            PoolEnd::Done => Status::Done,
            PoolEnd::WriteFault => Status::WriteFault,
            PoolEnd::NetFault => Status::NetFault,
            PoolEnd::NoMemory => Status::NoMemory,
            PoolEnd::ListenFault => Status::ListenFault,
        }
    }
}

/// What is left of a run of the server: the lines of its journal are written, with those that
/// writers made.
pub(crate) fn leave<M, K: Sink>(
    alloc: Global,
    served: Served<M, ChosenTimers, NoWatch, DropVolumes>,
    made: Vec<Lines>,
    output: K,
) -> PoolServed<M, K>
    ensures net { result.net ≡ Some served.parts.net }
    ensures journal { result.journal.entries ≡ served.parts.journal.entries }
    ensures writes { WritesKept (end_by served.ending) served.parts.first (K.facts output)
        (lines_by_connection result.journal.entries) result.end (K.facts result.output) }
{
    let Served { ending, parts } = served;
    let Parts {
        journal,
        first,
        net,
        timers: _,
        watch: _,
        volumes: _,
    } = parts;
    let run = PoolEnd::by(ending);
    let made = MadeLines::of(alloc, made, journal.as_slice());
    let (end, output) = write_kept(alloc, run, first, journal.as_slice(), &made, output);
    PoolServed {
        end,
        net: Some(net),
        journal,
        output,
    }
}

/// Writes the lines of a run that ended so, if no entry of its journal was let go.
fn write_kept<K: Sink>(
    alloc: Global,
    run: PoolEnd,
    first: u64,
    entries: &[Entry<ServerNote>],
    made: &MadeLines,
    output: K,
) -> (PoolEnd, K)
    ensures { WritesKept run first (K.facts output) (lines_by_connection entries.now) result.0
        (K.facts result.1) }
{
    if first > 0 {
        return (PoolEnd::NoMemory, output);
    }
    match write_given_by_connection(alloc, output, entries, made) {
        (output, Ok(true)) => (run, output),
        (output, Ok(false)) => (PoolEnd::WriteFault, output),
        (output, Err(_)) => (run.unwritten(), output),
    }
}

/// What is left if no run was begun.
pub(crate) fn unserved<M, K>(
    alloc: Global,
    end: PoolEnd,
    net: Option<M>,
    output: K,
) -> PoolServed<M, K>
    ensures end { result.end ≡ end }
    ensures net { result.net ≡ net }
    ensures journal { result.journal.entries ≡ [] }
    ensures output { result.output ≡ output }
{
    PoolServed {
        end,
        net,
        journal: Journal::new(alloc),
        output,
    }
}

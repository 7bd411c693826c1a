//! How a run of the command ended, and what it leaves.
ghost use Rattle.std.specs.Prelude.{◌≡◌, [], true, ℕ, List};
ghost use Rattle.ev_base.specs.Terms.{Terms};
ghost use Rattle.reactor_model.specs.reactor_journal.specs.declared.entry.Entry.{Entry};
ghost use Rattle.proactor.specs.declared.service.AioNote.{AioNote};
ghost use Rattle.reactor_core.specs.Stands.{Stands};
ghost use Rattle.reactor_core.specs.Views.{net_of, watch_of};
ghost use Rattle.core_loop.specs.Idle.{IsIdle};
ghost use Rattle.core_loop.specs.Leading.{NoneOpen};
ghost use Rattle.cmd_aio.specs.Finishing.{Finishes, MayEnd, end_by, named};
ghost use Rattle.cmd_aio.specs.Statuses.{status_by};

use crate::AioCore;
use core_loop::RunEnd;
use ev_base::{Net, PeerEnd, Sink};
use exit_status::Status;
use proactor::AioNote;
use reactor_core::{Means, Parts};
use reactor_model::{Journal, Watch};
use std::alloc::Global;

/// How a run of the command ended. Of several causes the first in this order is told.
#[derive(Clone, Copy, PartialEq, Eq, Debug)]
pub(crate) enum AioEnd {
    /// Nothing could be reported any more, or as many connections were closed or refused as were
    /// asked for.
    Done,
    /// A write of the output failed, and its count of faults rose.
    WriteFault,
    /// A wait of the net failed, or its attach of the listener did, and its count of these rose.
    NetFault,
    /// There was no memory.
    NoMemory,
    /// The host could not listen, and its count of faults rose.
    ListenFault,
}

/// What a run of the command leaves.
#[derive(Drop)]
pub(crate) struct Ran<M, K> {
    /// How it ended.
    pub(crate) end: AioEnd,
    /// The net that the host gave, if it listened.
    pub(crate) net: Option<M>,
    /// The entries of the journal that were not let go.
    pub(crate) journal: Journal<AioNote>,
    /// The sink that was handed in.
    pub(crate) output: K,
}

impl AioEnd {
    /// How a run ends whose loop ended so. Nothing stops the reactor before, and its volumes take
    /// all.
    pub(crate) fn by(ended: RunEnd) -> AioEnd
        requires { MayEnd ended }
        ensures { result ≡ end_by ended }
    {
        match ended {
            RunEnd::Over | RunEnd::Enough => AioEnd::Done,
            RunEnd::Broken => AioEnd::WriteFault,
            RunEnd::NetFault => AioEnd::NetFault,
            RunEnd::NoMemory => AioEnd::NoMemory,
            RunEnd::Stopped | RunEnd::VolumeFault => unreachable!("it does not end so"),
        }
    }

    /// Its status.
    pub(crate) fn status(self) -> Status
        ensures { result ≡ status_by self }
    {
        match self {
            AioEnd::Done => Status::Done,
            AioEnd::WriteFault => Status::WriteFault,
            AioEnd::NetFault => Status::NetFault,
            AioEnd::NoMemory => Status::NoMemory,
            AioEnd::ListenFault => Status::ListenFault,
        }
    }
}

/// Stops a reactor with no upcall on its way, which closes its handlers, and takes it apart. A
/// failed write is told whatever else ended the run.
pub(crate) fn finish<E: PeerEnd, M: Net<End = E>, K: Sink>(
    core: AioCore<E, M, K>,
    end: AioEnd,
) -> Ran<M, K>
    requires { IsIdle ⟦<AioCore<E, M, K> as Means>⟧.m core }
    ensures { (t : Terms) (F : ℕ) (h : List (Entry AioNote))
        → Stands ⟦<AioCore<E, M, K> as Means>⟧.m t core F h → NoneOpen h
        → Finishes ⟦<AioCore<E, M, K> as Means>⟧.m E.tells K.facts t F h core end result }
{
    let mut core = core;
    core.stop();
    let Parts {
        journal,
        first: _,
        net,
        timers: _,
        watch,
        volumes: _,
    } = core.into_parts();
    Ran {
        end: named(watch.broken(), end),
        net: Some(net),
        journal,
        output: watch.into_output(),
    }
}

/// How a run ends that ended so, by whether a write of its output failed.
fn named(broken: bool, end: AioEnd) -> AioEnd
    ensures { result ≡ named broken end }
{
    if broken { AioEnd::WriteFault } else { end }
}

/// What is left if no reactor was made.
pub(crate) fn unmade<M, K>(alloc: Global, end: AioEnd, net: Option<M>, output: K) -> Ran<M, K>
    ensures end { result.end ≡ end }
    ensures net { result.net ≡ net }
    ensures journal { result.journal.entries ≡ [] }
    ensures output { result.output ≡ output }
{
    Ran {
        end,
        net,
        journal: Journal::new(alloc),
        output,
    }
}

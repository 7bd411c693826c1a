//! How a run over a host ended, and what it leaves.
ghost use Rattle.std.specs.Prelude.{◌≡◌};
ghost use Rattle.cmd_serve.specs.Leaving.{IsUnserved, end_of, left_by, told_end};

use chosen_timers::ChosenTimers;
use ev_base::Sink;
use server_run::{Ending, Journal, LineSink, Parts, Served, ServerNote, Watch};
use std::alloc::Global;

/// How a run over a host ended. Of several causes the first in this order is told; if the host
/// does not listen there is no other.
#[derive(Clone, Copy, PartialEq, Eq, Debug)]
pub enum HostEnd {
    /// Nothing could be reported any more, or a notice ended the run.
    Done,
    /// A write to the output failed, and its count of faults rose.
    WriteFault,
    /// A wait of the net failed, or its attach of the listener did, and its count of these rose.
    NetFault,
    /// There was no memory.
    NoMemory,
    /// The host could not listen, and its count of faults rose.
    ListenFault,
    /// A volume was not taken, and the volumes' count of faults rose.
    VolumeFault,
}

/// What a run over a host leaves.
#[derive(Drop)]
pub struct HostServed<M, K, V> {
    /// How it ended.
    pub end: HostEnd,
    /// The entries of the journal that were not handed over to the volumes, from number `first` on.
    /// If no reactor was made there are none.
    pub journal: Journal<ServerNote>,
    /// How many entries were handed over.
    pub first: u64,
    /// The net that the host gave, if it listened.
    pub net: Option<M>,
    /// The sink that was handed in.
    pub output: K,
    /// The keeper of volumes that was handed in.
    pub volumes: V,
}

/// What is left of a run of the server. Its timers are dropped.
pub(crate) fn leave<M, K: Sink, V>(
    served: Served<M, ChosenTimers, LineSink<K>, V>,
) -> HostServed<M, K, V>
    ensures { result ≡ left_by served }
{
    let Served { ending, parts } = served;
    let Parts {
        journal,
        first,
        net,
        timers: _,
        watch,
        volumes,
    } = parts;
    HostServed {
        end: end_by(watch.broken(), ending),
        journal,
        first,
        net: Some(net),
        output: watch.into_output(),
        volumes,
    }
}

/// How it ends, by whether a write of the output failed, and how the run of the server ended.
fn end_by(broken: bool, ending: Ending) -> HostEnd
    ensures { result ≡ end_of broken ending }
{
    if broken {
        return HostEnd::WriteFault;
    }
    match ending {
        Ending::Broken | Ending::NoMemory => HostEnd::NoMemory,
        Ending::NotAttached | Ending::NetFault => HostEnd::NetFault,
        Ending::VolumeFault => HostEnd::VolumeFault,
        Ending::Notified | Ending::Over => HostEnd::Done,
    }
}

/// How it ends, by whether no write of the output failed.
pub(crate) fn told_end(whole: bool, end: HostEnd) -> HostEnd
    ensures { result ≡ told_end whole end }
{
    if whole { end } else { HostEnd::WriteFault }
}

/// What is left if no run was begun.
pub(crate) fn unserved<M, K, V>(
    alloc: Global,
    end: HostEnd,
    net: Option<M>,
    output: K,
    volumes: V,
) -> HostServed<M, K, V>
    ensures end { result.end ≡ end }
    ensures net { result.net ≡ net }
    ensures untouched { IsUnserved output volumes result }
{
    HostServed {
        end,
        journal: Journal::new(alloc),
        first: 0,
        net,
        output,
        volumes,
    }
}

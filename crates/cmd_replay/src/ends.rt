//! How a replay ends, and what it leaves.
ghost use Rattle.std.specs.Prelude.{◌≡◌};

use chosen_timers::ChosenTimers;
use script_net::ScriptNet;
use server_run::{Ending, Journal, Parts, Served, ServerNote};

/// How a replay ended. Of several faults of a run the first in this order is told.
#[derive(Clone, Copy, PartialEq, Eq, Debug)]
pub enum ReplayEnd {
    /// The run ended as it was asked to: nothing could be reported any more, or by its notice. All
    /// was written.
    Done,
    /// This line, from 1, is the first that is none of a script's text. Nothing was served.
    BadText {
        /// The number of the line.
        line: u64,
    },
    /// A read failed. Nothing was served.
    ReadFault,
    /// A write failed, after which nothing was written.
    WriteFault,
    /// There was no memory. Text that is grouped was not written then; nor is it if entries were
    /// handed over, of which it is made too.
    NoMemory,
    /// As many bytes as the limit were read, and one more was there. Nothing was served.
    TooLong,
    /// A volume of the journal was not taken.
    VolumeFault,
}

/// What a run over a script leaves.
#[derive(Drop)]
pub struct Played<K, V> {
    /// How it ended.
    pub end: ReplayEnd,
    /// The entries of its journal that were not handed over, from number `first` on.
    pub journal: Journal<ServerNote>,
    /// How many entries were handed over.
    pub first: u64,
    /// The sink that was handed in.
    pub output: K,
    /// The keeper of volumes that was handed in.
    pub volumes: V,
}

/// What a replay leaves.
#[derive(Drop)]
pub struct Replayed<S, K, V> {
    /// The source that was handed in.
    pub input: S,
    /// What the run over the script leaves, or, if nothing was served, an empty journal and all
    /// that was handed in.
    pub played: Played<K, V>,
}

/// What is kept of a run, whose net and timers are let go.
#[derive(Drop)]
pub(crate) struct Kept<W, V> {
    pub ending: Ending,
    pub journal: Journal<ServerNote>,
    pub first: u64,
    pub watch: W,
    pub volumes: V,
}

/// Lets the net and the timers go that a run leaves.
pub(crate) fn kept_of<W, V>(served: Served<ScriptNet, ChosenTimers, W, V>) -> Kept<W, V>
    ensures { result ≡ record {
      ending = served.ending;
      journal = served.parts.journal;
      first = served.parts.first;
      watch = served.parts.watch;
      volumes = served.parts.volumes;
    } }
{
    let Served { ending, parts } = served;
    let Parts {
        journal,
        first,
        net: _,
        timers: _,
        watch,
        volumes,
    } = parts;
    Kept {
        ending,
        journal,
        first,
        watch,
        volumes,
    }
}

//! One connection on a source, to its closing line.
ghost use Rattle.std.specs.Prelude.{◌≡◌, ◌^◌};
ghost use Rattle.ev_base.specs.Source.{SourceFacts};
ghost use Rattle.ev_base.specs.Sink.{SinkFacts};
ghost use Rattle.reactor_core.specs.Views.{volumes_of};
ghost use Rattle.one_run.specs.Phases.{IsOpened};
ghost use Rattle.one_run.specs.Opening.{LeavesUnopened, terms_of_run};
ghost use Rattle.one_run.specs.Running.{one_meaning, StandsIn};
ghost use Rattle.cmd_one.specs.Ran.{RunsOne};

use crate::ending::{Faults, OneEnding};
use ev_base::{Sink, Source};
use log_handler::ServerNote;
use log_handler::laws::courses_account;
use one_run::{OneCore, Unopened, finish, open, run};
use reactor_core::Parts;
use reactor_model::{Journal, Volumes, Watch};
use std::alloc::Global;

/// What a run leaves.
#[derive(Drop)]
pub struct Ran<S, K, V> {
    /// How it ended.
    pub end: OneEnding,
    /// The entries of the reactor's journal that were not handed over to the volumes, from number
    /// `first` on.
    pub journal: Journal<ServerNote>,
    /// How many entries were handed over.
    pub first: u64,
    /// The source that was handed in.
    pub input: S,
    /// The sink that was handed in.
    pub output: K,
    /// The keeper of volumes that was handed in.
    pub volumes: V,
}

/// Serves one connection, number 0, whose bytes are the source's, on a reactor of its own (C++NPv2
/// chapter 4). The output has the lines of its notes, and the journal is handed over in volumes of
/// the size that their keeper says. At most 2^40 bytes are read, and one more to see whether it is
/// there.
pub fn one<S: Source, K: Sink, V: Volumes<ServerNote>>(
    alloc: Global,
    input: S,
    output: K,
    volumes: V,
) -> Ran<S, K, V>
    ensures { RunsOne S.facts K.facts V.facts (2 ^ 40) (S.facts input) (K.facts output)
        (V.facts volumes) result }
{
    match open(alloc, input, output, volumes) {
        Ok(core) => serve(core),
        Err(left) => give_up(left),
    }
}

/// What is left if there was no memory to begin.
fn give_up<S: Source, K: Sink, V: Volumes<ServerNote>>(left: Unopened<S, K, V>) -> Ran<S, K, V>
    ensures { (input : S) (output : K) → LeavesUnopened S.facts K.facts input output left
        → RunsOne S.facts K.facts V.facts (2 ^ 40) (S.facts input) (K.facts output)
        (V.facts left.volumes) result }
{
    let end = match left.broken {
        true => OneEnding::WriteFault,
        false => OneEnding::NoMemory,
    };
    Ran {
        end,
        journal: left.journal,
        first: 0,
        input: left.input,
        output: left.output,
        volumes: left.volumes,
    }
}

/// Serves the connection of a reactor until it is closed.
fn serve<S: Source, K: Sink, V: Volumes<ServerNote>>(core: OneCore<S, K, V>) -> Ran<S, K, V>
    requires { (i : SourceFacts) × (o : SinkFacts)
        × StandsIn (one_meaning S.facts K.facts V.facts)
        (terms_of_run i o (V.facts (volumes_of core))) IsOpened core }
    ensures { (i : SourceFacts) (o : SinkFacts) → StandsIn (one_meaning S.facts K.facts V.facts)
        (terms_of_run i o (V.facts (volumes_of core))) IsOpened core
        → RunsOne S.facts K.facts V.facts (2 ^ 40) i o (V.facts (volumes_of core)) result }
{
    let mut core = core;
    let ending = run(&mut core);
    let Parts {
        journal,
        first,
        net,
        timers: _,
        watch,
        volumes,
    } = finish(core);
    let end = net.into_retired();
    let faults = Faults {
        failed: end.has_failed(),
        broken: watch.broken(),
        too_long: end.is_too_long(),
    };
    courses_account();
    Ran {
        end: OneEnding::least(faults, ending),
        journal,
        first,
        input: end.into_input(),
        output: watch.into_output(),
        volumes,
    }
}

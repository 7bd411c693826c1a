//! The beginning of a run.
ghost use Rattle.std.specs.Prelude.{◌≡◌, ◌≤◌, ℕ, [], IfOk, IfErr};
ghost use Rattle.ev_base.specs.Terms.{Terms};
ghost use Rattle.one_run.specs.Phases.{IsOpened};
ghost use Rattle.reactor_core.specs.Stands.{Stands};
ghost use Rattle.reactor_core.specs.Views.{volume_of, volumes_of};
ghost use Rattle.one_net.specs.OneEnd.{input_of};
ghost use Rattle.one_run.specs.Running.{one_meaning, CanRun, StandsIn};
ghost use Rattle.one_run.specs.Opening.{StartsRun, TakesNothing, LeavesNothing, LeavesUnopened};

use crate::OneCore;
use ev_base::{Mask, Sink, Source, Why};
use log_handler::{LineSink, LogConnection, ServerNote};
use one_net::{OneEnd, OneNet};
use reactor_core::{Core, Parts};
use reactor_model::{EventHandler, Journal, Volumes, Watch};
use std::alloc::Global;
use timer_queue::SortedTimers;

/// How many bytes are read at most: 2^40.
const MOST_INPUT: u64 = 1 << 40;

/// What is left if there was no memory to begin a run.
#[derive(Drop)]
pub struct Unopened<S, K, V> {
    /// The journal: nothing, or the end of a reactor that had no handler.
    pub journal: Journal<ServerNote>,
    /// The source.
    pub input: S,
    /// The sink.
    pub output: K,
    /// The volumes.
    pub volumes: V,
    /// Whether a write failed.
    pub broken: bool,
}

/// A reactor for the one connection of a source, number 0, which is registered with it. It writes
/// the lines of its notes to the sink, and hands its journal over in volumes of at least as many
/// entries as the keeper of volumes says. For want of memory all comes back.
pub fn open<S: Source, K: Sink, V: Volumes<ServerNote>>(
    alloc: Global,
    input: S,
    output: K,
    volumes: V,
) -> Result<OneCore<S, K, V>, Unopened<S, K, V>>
    ensures ok { IfOk result (λ core. (t : Terms) → StartsRun t (S.facts input) (K.facts output)
        (V.facts volumes) → StandsIn (one_meaning S.facts K.facts V.facts) t IsOpened core) }
    ensures volume { IfOk result (λ core. volume_of core ≡ (V.facts volumes).size) }
    ensures volumes { IfOk result (λ core. TakesNothing (V.facts volumes)
        (V.facts (volumes_of core))) }
    ensures err { IfErr result (λ left. LeavesUnopened S.facts K.facts input output left
        × TakesNothing (V.facts volumes) (V.facts left.volumes)) }
{
    let end = OneEnd::new(input, MOST_INPUT);
    let made = Core::new(
        alloc,
        1,
        volumes.volume_size(),
        OneNet::new(alloc),
        SortedTimers::new(alloc),
        LineSink::new(output),
        volumes,
    );
    match made {
        Ok(core) => {
            let mut core = core;
            let handler = LogConnection::new(alloc, 0, end, None, 0);
            match core.register(handler, Mask::READ, None) {
                Ok(_) => Ok(core),
                Err((back, _)) => {
                    let (end, _note) = back.handle_close(Why::Refused);
                    Err(abandon(core, end))
                }
            }
        }
        Err((net, _timers, watch, volumes, _)) => {
            net.close();
            Err(Unopened {
                journal: Journal::new(alloc),
                input: end.into_input(),
                output: watch.into_output(),
                volumes,
                broken: false,
            })
        }
    }
}

/// Takes a reactor apart that has no handler, whose end comes back.
fn abandon<S: Source, K: Sink, V: Volumes<ServerNote>>(
    core: OneCore<S, K, V>,
    end: OneEnd<S>,
) -> Unopened<S, K, V>
    requires { CanRun (one_meaning S.facts K.facts V.facts) (λ h. h ≡ []) core }
    ensures left { (t : Terms) (F : ℕ) → Stands (one_meaning S.facts K.facts V.facts) t core F []
        → LeavesNothing K.facts t result }
    ensures input { result.input ≡ input_of end }
    ensures volumes { result.volumes ≡ volumes_of core }
{
    let mut core = core;
    core.stop();
    let Parts {
        journal,
        first: _,
        net,
        timers: _,
        watch,
        volumes,
    } = core.into_parts();
    net.close();
    let broken = watch.broken();
    Unopened {
        journal,
        input: end.into_input(),
        output: watch.into_output(),
        volumes,
        broken,
    }
}

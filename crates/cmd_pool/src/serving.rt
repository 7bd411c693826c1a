//! The run of the command over a host.
ghost use Rattle.std.specs.Prelude.{◌≡◌, ◌++◌, ◌∷◌, [], None, Some};
ghost use Rattle.ev_base.specs.Host.{GivesListener};
ghost use Rattle.cmd_pool.specs.Leaving.{LeavesPool, ListensSo};
ghost use Rattle.cmd_pool.specs.Starting.{asked_by, pool_terms};
ghost use Rattle.cmd_pool.specs.Words.{AreInRange};

use crate::PoolOptions;
use crate::ending::{PoolEnd, PoolServed, leave, unserved};
use crate::layers::{Layers, gather, start_all};
use chosen_timers::ChosenTimers;
use cmd_line::Timers;
use ev_base::{Host, ListenRefused, Net, PeerEnd, Sink, Wake};
use server_run::{Asked, Core, DropVolumes, Ground, Means, NoWatch, ServerHandler, serve_observed};
use std::alloc::Global;
use std::sync::Wait;
use std::thread::Threads;

/// The reactor of a run of the command.
pub type PoolCore<E, M> = Core<ServerHandler<E>, M, ChosenTimers, NoWatch, DropVolumes>;

/// How many connections may be live at once.
const CONNECTIONS: u64 = 1_000;

/// For how many milliseconds a wait goes on at most.
const MOST_WAIT: u64 = 1_000;

/// How many entries a journal has at most: a volume of so many is the whole journal.
const MOST_ENTRIES: u64 = 1 << 62;

/// What a run is asked for by these options.
fn asked_by(options: PoolOptions) -> Asked
    requires { AreInRange options }
    ensures { result ≡ asked_by options }
{
    Asked {
        workers: options.workers as usize,
        connections: CONNECTIONS,
        idle: None,
        until: options.until,
        limit: Some(MOST_WAIT),
        volume: MOST_ENTRIES,
    }
}

/// Listens on the port of the options, and runs the server over what the host gives.
pub(crate) fn serve_host<R: Threads + Wait + Copy + Send + Sync + 'static, H: Host, K: Sink>(
    rt: &R,
    alloc: Global,
    options: PoolOptions,
    host: &mut H,
    output: K,
) -> PoolServed<H::Net, K>
where
    H::End: Drop + Send,
    H::Net: Send,
    H::Waker: Drop + Sync,
    requires { AreInRange options }
    ensures leaves { LeavesPool ⟦<PoolCore<H::End, H::Net> as Means>⟧.m K.facts pool_terms
        (asked_by options) (K.facts output) result }
    ensures listens { ListensSo result.end result.net (H.faults host.old) (H.faults host.new) }
    ensures asked { H.ports host.new ≡ H.ports host.old ++ options.port ∷ [] }
{
    match host.listen(alloc, options.port) {
        Ok(given) => serve_given(rt, alloc, options, given, output),
        Err(ListenRefused::Failed) => unserved(alloc, PoolEnd::ListenFault, None, output),
        Err(ListenRefused::NoMemory) => unserved(alloc, PoolEnd::NoMemory, None, output),
    }
}

/// Runs the server over what a host gave: a new net, its listener, and what wakes the net. If
/// there is no memory for the timers or the pool the listener and the waker are dropped.
fn serve_given<
    R: Threads + Wait + Copy + Send + Sync + 'static,
    E: PeerEnd + Drop + Send,
    M: Net<End = E> + Send,
    W: Wake + Drop + Sync,
    K: Sink,
>(rt: &R, alloc: Global, options: PoolOptions, given: (M, E, W), output: K) -> PoolServed<M, K>
    requires ranges { AreInRange options }
    requires listener { GivesListener M.facts E.tells (given.0, given.1) }
    requires net_keeps { M.keeps pool_terms given.0 }
    requires listener_keeps { E.keeps pool_terms given.1 }
    ensures leaves { LeavesPool ⟦<PoolCore<E, M> as Means>⟧.m K.facts pool_terms (asked_by options)
        (K.facts output) result }
    ensures given { result.net ≡ None → ⊥ }
    ensures listened { result.end ≡ PoolEnd.ListenFault → ⊥ }
{
    let (net, listener, waker) = given;
    let Ok(timers) = ChosenTimers::new(alloc, Timers::List) else {
        return unserved(alloc, PoolEnd::NoMemory, Some(net), output);
    };
    let workers = options.workers as usize;
    let Ok(layers) = Layers::open(rt, alloc, workers, options.writers as usize) else {
        return unserved(alloc, PoolEnd::NoMemory, Some(net), output);
    };
    let Layers {
        shared,
        mut root,
        mut hired,
        mut seats,
        last,
    } = layers;
    let ground = Ground {
        net,
        listener,
        timers,
        watch: NoWatch,
        volumes: DropVolumes,
    };
    start_all(rt, &mut seats);
    let asked = asked_by(options);
    let served = serve_observed(rt, alloc, asked, ground, waker, &mut root, &mut hired);
    shared.end();
    let made = gather(rt, alloc, seats, last);
    leave(alloc, served, made, output)
}

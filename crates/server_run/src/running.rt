//! The run of the server.
ghost use Rattle.std.specs.Prelude.{◌≡◌, ◌+◌, ◌∷◌, [], length, IfOk};
ghost use Rattle.ev_base.specs.Host.{GivesListener};
ghost use Rattle.ev_base.specs.Terms.{Terms};
ghost use Rattle.tp_reactor.specs.reactor_core.specs.Stands.{Stands};
ghost use Rattle.tp_reactor.specs.reactor_core.specs.Views.{net_of, volume_of, volumes_of};
ghost use Rattle.server_run.specs.Journals.{first_entry, notice_for};
ghost use Rattle.server_run.specs.Observed.{ShowsUpcalls};
ghost use Rattle.server_run.specs.Served.{HasCauses, LeavesRun, ending_of};
ghost use Rattle.server_run.specs.Starting.{AreTermsOf, CanStart, IsFine};

use crate::finishing::{ServerCore, finish};
use crate::opening::open;
use crate::{Asked, Ending, Ground, Served};
use acceptor::ServerHandler;
use ev_base::{ACCEPTOR, Handle, Net, NoMemory, PeerEnd, Wake};
use log_handler::ServerNote;
use std::alloc::Global;
use std::sync::Wait;
use std::thread::Threads;
use tp_reactor::{Means, NoObserver, Observer, Ran, Reactor, TimerQueue, Volumes, Watch};

/// Runs the logging server (C++NPv2 chapter 4, `Logging_Acceptor`; POSA2, Leader/Followers): a
/// reactor whose first handler is the acceptor of the listener, and which a pool of workers leads
/// in turn. Its end is told with what it leaves. If `until` is given it is ended by a notice to
/// the acceptor, once as many handlers were closed or refused; else it goes on until nothing can be
/// reported any more. A worker that meets a fault leaves, and the others go on until they leave
/// too. Then the reactor is stopped and every handler closed.
///
/// For want of memory there may be no reactor, or one that was stopped before a worker led. If
/// the net does not take the listener in there is one with no handler. The listener and the waker
/// are dropped then.
pub fn serve<
    R: Threads + Wait + Sync,
    E: PeerEnd + Drop + Send,
    M: Net<End = E> + Send,
    K: Wake + Drop + Sync,
    Q: TimerQueue + Send,
    W: Watch<ServerNote> + Send,
    V: Volumes<ServerNote> + Send,
>(
    rt: &R,
    alloc: Global,
    asked: Asked,
    ground: Ground<E, M, Q, W, V>,
    waker: K,
) -> Served<M, Q, W, V>
    ghost terms: { Terms }
    requires fine { IsFine asked }
    requires listener { GivesListener M.facts E.tells (ground.net, ground.listener) }
    requires start { CanStart ⟦<ServerCore<E, M, Q, W, V> as Means>⟧.m Q.timers E.keeps asked ground
        terms }
    ensures run { LeavesRun ⟦<ServerCore<E, M, Q, W, V> as Means>⟧.m Q.timers terms asked result }
    ensures causes { HasCauses ⟦<ServerCore<E, M, Q, W, V> as Means>⟧.m ground.net ground.volumes
        result }
{
    match open(alloc, asked, ground) {
        Ok(core) => share(rt, alloc, asked, core, waker),
        Err(served) => served,
    }
}

/// Runs the logging server as `serve` does, with an observer for each worker: one for the first,
/// and one for each of the others. Each worker shows each upcall that it makes to its own observer,
/// once, before it is settled.
pub fn serve_observed<
    R: Threads + Wait + Sync,
    E: PeerEnd + Drop + Send,
    M: Net<End = E> + Send,
    K: Wake + Drop + Sync,
    Q: TimerQueue + Send,
    W: Watch<ServerNote> + Send,
    V: Volumes<ServerNote> + Send,
    O: Observer<ServerHandler<E>> + Send + Drop,
>(
    rt: &R,
    alloc: Global,
    asked: Asked,
    ground: Ground<E, M, Q, W, V>,
    waker: K,
    observer: &mut O,
    hired: &mut Vec<O>,
) -> Served<M, Q, W, V>
    ghost terms: { Terms }
    requires fine { IsFine asked }
    requires listener { GivesListener M.facts E.tells (ground.net, ground.listener) }
    requires start { CanStart ⟦<ServerCore<E, M, Q, W, V> as Means>⟧.m Q.timers E.keeps asked ground
        terms }
    requires workers { asked.workers ≡ length hired.old.items + 1 }
    ensures run { LeavesRun ⟦<ServerCore<E, M, Q, W, V> as Means>⟧.m Q.timers terms asked result }
    ensures causes { HasCauses ⟦<ServerCore<E, M, Q, W, V> as Means>⟧.m ground.net ground.volumes
        result }
    ensures observed { ShowsUpcalls ⟦<ServerCore<E, M, Q, W, V> as Means>⟧.m O.observes asked
        (record { root = observer.old; hired = hired.old.items })
        (record { root = observer.new; hired = hired.new.items }) }
{
    match open(alloc, asked, ground) {
        Ok(core) => share_observed(rt, alloc, asked, core, waker, observer, hired),
        Err(served) => served,
    }
}

/// Shares a reactor as `share_observed` does, with observers that do nothing.
fn share<
    R: Threads + Wait + Sync,
    E: PeerEnd + Send,
    M: Net<End = E> + Send,
    K: Wake + Drop + Sync,
    Q: TimerQueue + Send,
    W: Watch<ServerNote> + Send,
    V: Volumes<ServerNote> + Send,
>(
    rt: &R,
    alloc: Global,
    asked: Asked,
    core: ServerCore<E, M, Q, W, V>,
    waker: K,
) -> Served<M, Q, W, V>
    ghost terms: { Terms }
    requires fine { IsFine asked }
    requires terms { AreTermsOf asked terms }
    requires stands { Stands ⟦<ServerCore<E, M, Q, W, V> as Means>⟧.m terms core 0
        (first_entry ∷ []) }
    requires size { volume_of core ≡ asked.volume }
    ensures run { LeavesRun ⟦<ServerCore<E, M, Q, W, V> as Means>⟧.m Q.timers terms asked result }
    ensures causes { HasCauses ⟦<ServerCore<E, M, Q, W, V> as Means>⟧.m (net_of core)
        (volumes_of core) result }
{
    match no_observers(alloc, asked.workers - 1) {
        Ok(mut hired) => {
            let mut none = NoObserver;
            share_observed(rt, alloc, asked, core, waker, &mut none, &mut hired)
        }
        Err(_) => finish(core, Ending::NoMemory),
    }
}

/// So many observers that do nothing.
fn no_observers(alloc: Global, many: usize) -> Result<Vec<NoObserver>, NoMemory>
    ensures { IfOk result (λ observers. length observers.items ≡ many) }
{
    let mut observers = Vec::new(alloc);
    while observers.len() < many {
        observers.push(NoObserver)?;
    }
    Ok(observers)
}

/// Shares a reactor whose one handler is the acceptor among the workers, until all have left their
/// loops, and ends the run. Each upcall is shown to the observer of the worker that made it.
fn share_observed<
    R: Threads + Wait + Sync,
    E: PeerEnd + Send,
    M: Net<End = E> + Send,
    K: Wake + Drop + Sync,
    Q: TimerQueue + Send,
    W: Watch<ServerNote> + Send,
    V: Volumes<ServerNote> + Send,
    O: Observer<ServerHandler<E>> + Send + Drop,
>(
    rt: &R,
    alloc: Global,
    asked: Asked,
    core: ServerCore<E, M, Q, W, V>,
    waker: K,
    observer: &mut O,
    hired: &mut Vec<O>,
) -> Served<M, Q, W, V>
    ghost terms: { Terms }
    requires fine { IsFine asked }
    requires terms { AreTermsOf asked terms }
    requires stands { Stands ⟦<ServerCore<E, M, Q, W, V> as Means>⟧.m terms core 0
        (first_entry ∷ []) }
    requires size { volume_of core ≡ asked.volume }
    requires workers { asked.workers ≡ length hired.old.items + 1 }
    ensures run { LeavesRun ⟦<ServerCore<E, M, Q, W, V> as Means>⟧.m Q.timers terms asked result }
    ensures causes { HasCauses ⟦<ServerCore<E, M, Q, W, V> as Means>⟧.m (net_of core)
        (volumes_of core) result }
    ensures observed { ShowsUpcalls ⟦<ServerCore<E, M, Q, W, V> as Means>⟧.m O.observes asked
        (record { root = observer.old; hired = hired.old.items })
        (record { root = observer.new; hired = hired.new.items }) }
{
    match Reactor::new(alloc, core, waker) {
        Ok((reactor, root)) => {
            let mut root = root;
            let until = notice(asked.until);
            let ran = reactor.run_workers_observed(
                rt,
                alloc,
                &mut root,
                observer,
                hired,
                asked.limit,
                until,
            );
            finish(reactor.close(root), ending(ran))
        }
        Err((core, _waker, _)) => finish(core, Ending::NoMemory),
    }
}

/// After how many closings and refusals the acceptor is notified, if it is.
fn notice(until: Option<u64>) -> Option<(u64, Handle)>
    ensures { result ≡ notice_for until }
{
    match until {
        Some(count) => Some((count, ACCEPTOR)),
        None => None,
    }
}

/// How a run ended whose workers left their loops with this answer.
fn ending(ran: Ran) -> Ending
    ensures { result ≡ ending_of ran }
{
    match ran {
        Ran::Broken => Ending::Broken,
        Ran::NetFault => Ending::NetFault,
        Ran::NoMemory => Ending::NoMemory,
        Ran::VolumeFault => Ending::VolumeFault,
        Ran::Stopped => Ending::Notified,
        Ran::Over => Ending::Over,
    }
}

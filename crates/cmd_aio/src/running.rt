//! The run of the command over a host.
ghost use Rattle.std.specs.Prelude.{◌≡◌, ◌++◌, ◌∷◌, [], None};
ghost use Rattle.ev_base.specs.Host.{GivesListener};
ghost use Rattle.ev_base.specs.Sink.{SinkFacts};
ghost use Rattle.reactor_core.specs.Views.{net_of};
ghost use Rattle.cmd_aio.specs.Leaving.{LeavesRun, LeavesServed, ListensSo};
ghost use Rattle.cmd_aio.specs.Starting.{IsOpened, KeepsTerms};

use crate::AioCore;
use crate::ending::{AioEnd, Ran, finish, unmade};
use crate::opening::open;
use aio_words::AioWords;
use ev_base::{Host, ListenRefused, Net, PeerEnd, Sink};
use reactor_core::Means;
use std::alloc::Global;
use std::sync::Wait;

/// Listens on the port of the words, and serves what the host gives. What wakes the net is let go:
/// nobody else works on it.
pub(crate) fn serve_host<R: Wait, H: Host, K: Sink>(
    rt: &R,
    alloc: Global,
    said: AioWords,
    host: &mut H,
    output: K,
) -> Ran<H::Net, K>
where
    H::End: Drop,
    H::Waker: Drop,
    ensures leaves { LeavesRun ⟦<AioCore<H::End, H::Net, K> as Means>⟧.m H.End.tells K.facts
        (K.facts output) said.until result }
    ensures listens { ListensSo result.end result.net (H.faults host.old) (H.faults host.new) }
    ensures asked { H.ports host.new ≡ H.ports host.old ++ said.port ∷ [] }
{
    match host.listen(alloc, said.port) {
        Ok((net, listener, _)) => serve_net(rt, alloc, said.until, net, listener, output),
        Err(ListenRefused::Failed) => unmade(alloc, AioEnd::ListenFault, None, output),
        Err(ListenRefused::NoMemory) => unmade(alloc, AioEnd::NoMemory, None, output),
    }
}

/// Serves the connections of a listener over a new net.
fn serve_net<R: Wait, E: PeerEnd + Drop, M: Net<End = E>, K: Sink>(
    rt: &R,
    alloc: Global,
    until: Option<u64>,
    net: M,
    listener: E,
    output: K,
) -> Ran<M, K>
    requires listener { GivesListener M.facts E.tells (net, listener) }
    requires net_keeps { KeepsTerms M.keeps (K.facts output) net }
    requires listener_keeps { KeepsTerms E.keeps (K.facts output) listener }
    ensures { LeavesServed ⟦<AioCore<E, M, K> as Means>⟧.m E.tells K.facts (K.facts output)
        until result }
{
    match open(alloc, net, listener, output) {
        Ok(core) => serve(rt, core, until),
        Err(ran) => ran,
    }
}

/// Serves the connections that come, until as many were closed or refused as are asked for, nothing
/// can be reported any more, or something fails.
fn serve<R: Wait, E: PeerEnd, M: Net<End = E>, K: Sink>(
    rt: &R,
    core: AioCore<E, M, K>,
    until: Option<u64>,
) -> Ran<M, K>
    requires opened { (o : SinkFacts) × IsOpened ⟦<AioCore<E, M, K> as Means>⟧.m o core }
    requires new { (M.facts (net_of core)).failed_waits ≡ 0 }
    ensures { (o : SinkFacts) → IsOpened ⟦<AioCore<E, M, K> as Means>⟧.m o core
        → LeavesServed ⟦<AioCore<E, M, K> as Means>⟧.m E.tells K.facts o until result }
{
    let mut core = core;
    let ended = core_loop::run(rt, &mut core, None, until);
    finish(core, AioEnd::by(ended))
}

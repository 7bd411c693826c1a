//! The beginning of a run.
ghost use Rattle.std.specs.Prelude.{◌≡◌, ◌≤◌, IfErr, IfOk, true};
ghost use Rattle.ev_base.specs.End.{IsFresh};
ghost use Rattle.ev_base.specs.Host.{GivesListener};
ghost use Rattle.ev_base.specs.Sink.{SinkFacts};
ghost use Rattle.proactor.specs.declared.service.AioNote.{AioNote};
ghost use Rattle.reactor_model.specs.Volumes.{tells_nothing};
ghost use Rattle.reactor_core.specs.Views.{net_of, volume_of};
ghost use Rattle.cmd_aio.specs.Leaving.{LeavesServed};
ghost use Rattle.cmd_aio.specs.Starting.{IsOpened, KeepsTerms, MayRegister, aio_refusal};
ghost use Rattle.reactor_core.specs.Refusals.{MayRefuseFirst};

use crate::ending::{AioEnd, Ran, finish, unmade};
use aio_lines::ConnectionLines;
use ev_base::{Mask, Net, PeerEnd, Sink, Why};
use proactor::{AioHandler, AioNote, AsynchAcceptor};
use reactor_core::{Core, Means, RegisterRefused};
use reactor_model::{DropVolumes, EventHandler, Volumes};
use std::alloc::Global;
use timer_queue::SortedTimers;

/// The reactor of a run: the lines of its connections are written as its journal grows.
pub type AioCore<E, M, K> = Core<AioHandler<E>, M, SortedTimers, ConnectionLines<K>, DropVolumes>;

/// How many handlers may be live: the acceptor and 1,000 connections.
const MOST: u64 = 1_001;

/// A reactor over a new net, with the acceptor of a new listener. It lets its journal go in volumes
/// of as many entries as their keeper says. If there is no reactor, what is left is told, and the
/// listener is closed.
pub(crate) fn open<E: PeerEnd + Drop, M: Net<End = E>, K: Sink>(
    alloc: Global,
    net: M,
    listener: E,
    output: K,
) -> Result<AioCore<E, M, K>, Ran<M, K>>
    requires listener { GivesListener M.facts E.tells (net, listener) }
    requires net_keeps { KeepsTerms M.keeps (K.facts output) net }
    requires listener_keeps { KeepsTerms E.keeps (K.facts output) listener }
    ensures opened { IfOk result (λ core. IsOpened ⟦<AioCore<E, M, K> as Means>⟧.m (K.facts output)
        core) }
    ensures volume { IfOk result (λ core. volume_of core ≡ (tells_nothing {N = AioNote}).size) }
    ensures waits { IfOk result (λ core. (M.facts (net_of core)).failed_waits ≡ 0) }
    ensures unopened { IfErr result (λ ran. (until : _) → LeavesServed
        ⟦<AioCore<E, M, K> as Means>⟧.m E.tells K.facts (K.facts output) until ran) }
{
    let timers = SortedTimers::new(alloc);
    let lines = ConnectionLines::new(output);
    let volume = Volumes::<AioNote>::volume_size(&DropVolumes);
    match Core::new(alloc, MOST, volume, net, timers, lines, DropVolumes) {
        Ok(core) => register(core, AsynchAcceptor::new(alloc, listener)),
        Err((net, _, lines, ..)) => Err(unmade(
            alloc,
            AioEnd::NoMemory,
            Some(net),
            lines.into_output(),
        )),
    }
}

/// Registers the acceptor with a reactor that has no handler, to be read.
fn register<E: PeerEnd + Drop, M: Net<End = E>, K: Sink>(
    core: AioCore<E, M, K>,
    acceptor: AsynchAcceptor<E>,
) -> Result<AioCore<E, M, K>, Ran<M, K>>
    requires waits { (M.facts (net_of core)).failed_waits ≡ 0 }
    requires attaches { (M.facts (net_of core)).failed_attaches ≡ 0 }
    requires may { (o : SinkFacts) × MayRegister ⟦<AioCore<E, M, K> as Means>⟧.m o core acceptor }
    ensures opened { IfOk result (λ new. (o : SinkFacts)
        → MayRegister ⟦<AioCore<E, M, K> as Means>⟧.m o core acceptor
        → IsOpened ⟦<AioCore<E, M, K> as Means>⟧.m o new) }
    ensures volume { IfOk result (λ new. volume_of new ≡ volume_of core) }
    ensures waits { IfOk result (λ new. (M.facts (net_of new)).failed_waits ≡ 0) }
    ensures unopened { IfErr result (λ ran. (o : SinkFacts)
        → MayRegister ⟦<AioCore<E, M, K> as Means>⟧.m o core acceptor
        → (until : _) → LeavesServed ⟦<AioCore<E, M, K> as Means>⟧.m E.tells K.facts o until ran) }
{
    let mut core = core;
    match core.register(AioHandler::Listen(acceptor), Mask::READ, None) {
        Ok(_) => Ok(core),
        Err((back, refused)) => {
            back.handle_close(Why::Refused);
            Err(finish(core, refusal(refused)))
        }
    }
}

/// How a run ends whose acceptor was refused by a reactor that has no handler and was not stopped.
fn refusal(refused: RegisterRefused) -> AioEnd
    requires { MayRefuseFirst refused }
    ensures { result ≡ aio_refusal refused }
{
    match refused {
        RegisterRefused::NetFailed => AioEnd::NetFault,
        RegisterRefused::NoMemory => AioEnd::NoMemory,
        RegisterRefused::Stopped | RegisterRefused::Full { .. } => {
            unreachable!("it has a place for one handler")
        }
    }
}

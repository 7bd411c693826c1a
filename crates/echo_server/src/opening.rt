//! The beginning and the end of a run.
ghost use Rattle.std.specs.Prelude.{◌≡◌, ◌≤◌, IfErr, IfOk};
ghost use Rattle.reactor.specs.ev_base.specs.Host.{GivesListener};
ghost use Rattle.reactor.specs.reactor_model.specs.Turns.{most_milliseconds};
ghost use Rattle.reactor.specs.reactor_core.specs.Views.{net_of};
ghost use Rattle.reactor.specs.core_loop.specs.Idle.{IsIdle, LeavesParts};
ghost use Rattle.echo_server.specs.Handlers.{idle_of};
ghost use Rattle.echo_server.specs.Runs.{AreEchoed, HasCause, IsOpened, MayRegister};
ghost use Rattle.reactor.specs.reactor_core.specs.Refusals.{MayRefuseFirst};
ghost use Rattle.echo_server.specs.Runs.{echo_refusal, run_terms};

use crate::{EchoAcceptor, EchoHandler, EchoNote};
use reactor::{
    Core, DropVolumes, EventHandler, Mask, Means, Net, NoWatch, Parts, PeerEnd, RegisterRefused,
    SortedTimers, TimerQueue, Why, close,
};
use std::alloc::Global;

/// The reactor of the server over a net.
pub type EchoCore<E, M> = Core<EchoHandler<E>, M, SortedTimers, NoWatch, DropVolumes>;

/// What such a reactor leaves: its journal, its net, and its other parts.
pub type EchoParts<M> = Parts<EchoNote, M, SortedTimers, NoWatch, DropVolumes>;

/// How many handlers may be live: the acceptor and 1,000 connections.
pub const MOST: u64 = 1_001;

/// How many entries of its journal a reactor keeps at least before it hands them over.
const VOLUME: u64 = 65_536;

/// Why there is no server.
#[derive(Clone, Copy, PartialEq, Eq, Debug)]
pub enum OpenRefused {
    /// The net could not take the listener in, and its count of failed attaches rose.
    NotAttached,
    /// There was no memory.
    NoMemory,
}

/// A reactor over a new net, with the acceptor of a new listener. Its connections have this idle
/// time, from 1 to 4,294,967,295 milliseconds. If there is none, the net comes back and the
/// listener is closed.
pub fn open<E: PeerEnd + Drop, M: Net<End = E>>(
    alloc: Global,
    net: M,
    listener: E,
    idle: u64,
) -> Result<EchoCore<E, M>, (OpenRefused, M)>
    requires listener { GivesListener M.facts E.tells (net, listener) }
    requires some { 1 ≤ idle }
    requires few { idle ≤ most_milliseconds }
    requires net_keeps { M.keeps (run_terms idle) net }
    requires listener_keeps { E.keeps (run_terms idle) listener }
    ensures opened { IfOk result (λ core. IsOpened ⟦<EchoCore<E, M> as Means>⟧.m idle core) }
    ensures idle { IfOk result (λ core. IsIdle ⟦<EchoCore<E, M> as Means>⟧.m core) }
    ensures cause { IfErr result (λ back. HasCause back.0 (M.facts net).failed_attaches
        (M.facts back.1).failed_attaches) }
{
    let timers = SortedTimers::new(alloc);
    match Core::new(alloc, MOST, VOLUME, net, timers, NoWatch, DropVolumes) {
        Ok(core) => register(core, EchoAcceptor::new(listener, idle)),
        Err((net, ..)) => Err((OpenRefused::NoMemory, net)),
    }
}

/// Registers the acceptor with a reactor that has no handler.
fn register<E: PeerEnd + Drop, M: Net<End = E>>(
    core: EchoCore<E, M>,
    acceptor: EchoAcceptor<E>,
) -> Result<EchoCore<E, M>, (OpenRefused, M)>
    requires { MayRegister ⟦<EchoCore<E, M> as Means>⟧.m core acceptor }
    ensures opened { IfOk result (λ core.
        IsOpened ⟦<EchoCore<E, M> as Means>⟧.m (idle_of acceptor) core) }
    ensures idle { IfOk result (λ core. IsIdle ⟦<EchoCore<E, M> as Means>⟧.m core) }
    ensures cause { IfErr result (λ back. HasCause back.0 (M.facts (net_of core)).failed_attaches
        (M.facts back.1).failed_attaches) }
{
    let mut core = core;
    match core.register(EchoHandler::Listen(acceptor), Mask::READ, None) {
        Ok(_) => Ok(core),
        Err((back, refused)) => {
            back.handle_close(Why::Refused);
            Err((refusal(refused), close(core).net))
        }
    }
}

/// Why a reactor that has no handler and was not stopped did not take one.
fn refusal(refused: RegisterRefused) -> OpenRefused
    requires { MayRefuseFirst refused }
    ensures { result ≡ echo_refusal refused }
{
    match refused {
        RegisterRefused::NetFailed => OpenRefused::NotAttached,
        RegisterRefused::NoMemory => OpenRefused::NoMemory,
        RegisterRefused::Stopped | RegisterRefused::Full { .. } => {
            unreachable!("it has a place for one handler")
        }
    }
}

/// Stops a reactor with no upcall on its way, closes its handlers, and takes it apart. Of the bytes
/// that each connection's end gave, in order, the first were written to it, and nothing else was;
/// and if its input was at its end, all of them.
pub fn finish<E: PeerEnd, M: Net<End = E>>(core: EchoCore<E, M>) -> EchoParts<M>
    requires { IsIdle ⟦<EchoCore<E, M> as Means>⟧.m core }
    ensures leaves { LeavesParts ⟦<EchoCore<E, M> as Means>⟧.m ⟦<SortedTimers as TimerQueue>⟧.timers
        result }
    ensures echoed { AreEchoed E.tells (M.facts result.net).retired }
{
    close(core)
}

//! The beginning of a run.
ghost use Rattle.std.specs.Prelude.{◌≡◌, true, IfOk};
ghost use Rattle.ev_base.specs.End.{IsFresh};
ghost use Rattle.ev_base.specs.Host.{GivesListener};
ghost use Rattle.ev_base.specs.Story.{NumbersFrom};
ghost use Rattle.ev_base.specs.Terms.{Terms};
ghost use Rattle.acceptor.specs.Idle.{IsIdleTime};
ghost use Rattle.tp_reactor.specs.reactor_core.specs.Views.{net_of, volume_of, volumes_of};
ghost use Rattle.server_run.specs.Opening.{CanRegister, OpenCounts, OpensSo};
ghost use Rattle.tp_reactor.specs.reactor_core.specs.Refusals.{MayRefuseFirst};
ghost use Rattle.server_run.specs.Opening.{refused_ending};
ghost use Rattle.server_run.specs.Starting.{CanStart, IsFine};

use crate::finishing::{ServerCore, finish, leave};
use crate::{Asked, Ending, Ground, Served};
use acceptor::{Acceptor, ServerHandler};
use ev_base::{Mask, Net, PeerEnd, Why};
use log_handler::ServerNote;
use std::alloc::Global;
use tp_reactor::{
    Core, EventHandler, Journal, Means, Parts, RegisterRefused, TimerQueue, Volumes, Watch,
};

/// A reactor for so many connections and the acceptor of the listener, which is registered with it.
/// If there is no memory for it, or the net does not take the listener in, the run has ended.
pub(crate) fn open<
    E: PeerEnd + Drop,
    M: Net<End = E>,
    Q: TimerQueue,
    W: Watch<ServerNote>,
    V: Volumes<ServerNote>,
>(
    alloc: Global,
    asked: Asked,
    ground: Ground<E, M, Q, W, V>,
) -> Result<ServerCore<E, M, Q, W, V>, Served<M, Q, W, V>>
    requires fine { IsFine asked }
    requires listener { GivesListener M.facts E.tells (ground.net, ground.listener) }
    requires start { (t : Terms) × CanStart ⟦<ServerCore<E, M, Q, W, V> as Means>⟧.m Q.timers
        E.keeps asked ground t }
    ensures opens { (t : Terms)
        → CanStart ⟦<ServerCore<E, M, Q, W, V> as Means>⟧.m Q.timers E.keeps asked ground t
        → OpensSo ⟦<ServerCore<E, M, Q, W, V> as Means>⟧.m Q.timers t asked result }
    ensures size { IfOk result (λ core. volume_of core ≡ asked.volume) }
    ensures counts { OpenCounts ⟦<ServerCore<E, M, Q, W, V> as Means>⟧.m ground.net ground.volumes
        result }
{
    let Ground {
        net,
        listener,
        timers,
        watch,
        volumes,
    } = ground;
    let most = asked.connections + 1;
    match Core::new(alloc, most, asked.volume, net, timers, watch, volumes) {
        Ok(core) => register(alloc, asked, core, listener),
        Err((net, timers, watch, volumes, _)) => {
            let parts = Parts {
                journal: Journal::new(alloc),
                first: 0,
                net,
                timers,
                watch,
                volumes,
            };
            Err(leave(parts, Ending::NoMemory))
        }
    }
}

/// Registers the acceptor of a listener with a reactor that has no handler, to be read. If it is
/// not registered the reactor is stopped.
fn register<
    E: PeerEnd + Drop,
    M: Net<End = E>,
    Q: TimerQueue,
    W: Watch<ServerNote>,
    V: Volumes<ServerNote>,
>(
    alloc: Global,
    asked: Asked,
    core: ServerCore<E, M, Q, W, V>,
    listener: E,
) -> Result<ServerCore<E, M, Q, W, V>, Served<M, Q, W, V>>
    requires listener { (E.tells listener).listener ≡ true }
    requires fresh { IsFresh (E.tells listener) }
    requires numbered { NumbersFrom 0 (E.tells listener).offering }
    requires idle { IsIdleTime asked.idle }
    requires may { (t : Terms) × CanRegister ⟦<ServerCore<E, M, Q, W, V> as Means>⟧.m E.keeps asked
        listener core t }
    ensures opens { (t : Terms)
        → CanRegister ⟦<ServerCore<E, M, Q, W, V> as Means>⟧.m E.keeps asked listener core t
        → OpensSo ⟦<ServerCore<E, M, Q, W, V> as Means>⟧.m Q.timers t asked result }
    ensures size { IfOk result (λ opened. volume_of opened ≡ volume_of core) }
    ensures counts { OpenCounts ⟦<ServerCore<E, M, Q, W, V> as Means>⟧.m (net_of core)
        (volumes_of core) result }
{
    let mut core = core;
    let acceptor = ServerHandler::Listen(Acceptor::new(alloc, listener, asked.idle));
    match core.register(acceptor, Mask::READ, None) {
        Ok(_) => Ok(core),
        Err((back, refused)) => {
            back.handle_close(Why::Refused);
            Err(finish(core, refusal(refused)))
        }
    }
}

/// How a run ended whose acceptor was refused by a reactor that has no handler and was not stopped.
fn refusal(refused: RegisterRefused) -> Ending
    requires { MayRefuseFirst refused }
    ensures { result ≡ refused_ending refused }
{
    match refused {
        RegisterRefused::NetFailed => Ending::NotAttached,
        RegisterRefused::NoMemory => Ending::NoMemory,
        RegisterRefused::Stopped | RegisterRefused::Full { .. } => {
            unreachable!("it has a place for one handler")
        }
    }
}

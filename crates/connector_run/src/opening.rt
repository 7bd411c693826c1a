//! The beginning of a run.
ghost use Rattle.std.specs.Prelude.{◌≡◌, ◌≤◌, [], IfErr, IfOk, None};
ghost use Rattle.ev_base.specs.Terms.{Terms};
ghost use Rattle.ev_base.specs.ev_types.specs.declared.upcall.Why.TheVariants.{Refused};
ghost use Rattle.connector.specs.Connectors.{ConnectorFits, ConnectorGone};
ghost use Rattle.reactor_model.specs.Turns.{most_milliseconds};
ghost use Rattle.reactor_core.specs.Stands.{Stands};
ghost use Rattle.reactor_core.specs.Views.{net_of, volume_of};
ghost use Rattle.reactor_model.specs.Volumes.{tells_nothing};
ghost use Rattle.connector_run.specs.Opening.{CanOpen, CanRegister, LeavesUnopened};
ghost use Rattle.reactor_core.specs.Refusals.{MayRefuseFirst};
ghost use Rattle.connector_run.specs.Opening.{OpenHasCause, connect_refusal};
ghost use Rattle.connector_run.specs.Phases.{first_entries};

use crate::ConnectCore;
use connector::{ConnectNote, Connector, Service};
use core_loop::close;
use ev_base::{DialEnd, Mask, Net, Why};
use reactor_core::{Core, Means, RegisterRefused};
use reactor_model::{DropVolumes, EventHandler, NoWatch, Volumes};
use std::alloc::Global;
use timer_queue::SortedTimers;

/// Why there is no run.
#[derive(Clone, Copy, PartialEq, Eq, Debug)]
pub enum OpenRefused {
    /// The net could not take the end in, and its count of failed attaches rose.
    NotAttached,
    /// There was no memory.
    NoMemory,
}

/// What is left if there is no run.
pub struct Unopened<E, M> {
    /// Why there is none.
    pub why: OpenRefused,
    /// The net.
    pub net: M,
    /// The end of the connector.
    pub end: E,
}

/// A reactor over a new net, with one connector that had no turns. It is registered with the mask
/// write alone and a timer that comes due once after `wait` milliseconds, from 1 to 4,294,967,295.
/// It lets its journal go in volumes of as many entries as their keeper says. If there is no
/// reactor, the net, which was asked nothing, and the connector's end come back.
pub fn open<E: DialEnd, V: Service<End = E> + Drop, M: Net<End = E>>(
    alloc: Global,
    net: M,
    handler: Connector<E, V>,
    wait: u64,
) -> Result<ConnectCore<E, V, M>, Unopened<E, M>>
where
    V::Note: Drop,
    requires some { 1 ≤ wait }
    requires few { wait ≤ most_milliseconds }
    requires begins { (t : Terms) × (t.limit ≡ None) × CanOpen (M.facts net) (M.keeps t net)
        (ConnectorFits E.tells E.keeps V.serves t handler []) t }
    ensures opened { IfOk result (λ core. (t : Terms) → CanOpen (M.facts net) (M.keeps t net)
        (ConnectorFits E.tells E.keeps V.serves t handler []) t
        → Stands ⟦<ConnectCore<E, V, M> as Means>⟧.m t core 0 (first_entries wait)) }
    ensures volume { IfOk result (λ core. volume_of core ≡ (tells_nothing {N = V.Note}).size) }
    ensures unopened { IfErr result (λ left. (t : Terms) → CanOpen (M.facts net) (M.keeps t net)
        (ConnectorFits E.tells E.keeps V.serves t handler []) t
        → LeavesUnopened M.facts M.keeps
        (λ end said. ConnectorGone E.tells E.keeps V.serves t end [] Refused said) t left) }
    ensures cause { IfErr result (λ left. OpenHasCause left.why (M.facts net).failed_attaches
        (M.facts left.net).failed_attaches) }
{
    let timers = SortedTimers::new(alloc);
    let volume = Volumes::<ConnectNote<V::Note>>::volume_size(&DropVolumes);
    match Core::new(alloc, 1, volume, net, timers, NoWatch, DropVolumes) {
        Ok(core) => register(core, handler, wait),
        Err((net, ..)) => {
            let (end, _) = handler.handle_close(Why::Refused);
            Err(Unopened {
                why: OpenRefused::NoMemory,
                net,
                end,
            })
        }
    }
}

/// Registers the connector with a reactor that has no handler.
fn register<E: DialEnd, V: Service<End = E> + Drop, M: Net<End = E>>(
    core: ConnectCore<E, V, M>,
    handler: Connector<E, V>,
    wait: u64,
) -> Result<ConnectCore<E, V, M>, Unopened<E, M>>
where
    V::Note: Drop,
    requires some { 1 ≤ wait }
    requires few { wait ≤ most_milliseconds }
    requires may { (t : Terms) × (t.limit ≡ None)
        × CanRegister ⟦<ConnectCore<E, V, M> as Means>⟧.m t core handler }
    ensures opened { IfOk result (λ new. (t : Terms)
        → CanRegister ⟦<ConnectCore<E, V, M> as Means>⟧.m t core handler
        → Stands ⟦<ConnectCore<E, V, M> as Means>⟧.m t new 0 (first_entries wait)) }
    ensures volume { IfOk result (λ new. volume_of new ≡ volume_of core) }
    ensures unopened { IfErr result (λ left. (t : Terms)
        → CanRegister ⟦<ConnectCore<E, V, M> as Means>⟧.m t core handler
        → LeavesUnopened M.facts M.keeps
        (λ end said. ConnectorGone E.tells E.keeps V.serves t end [] Refused said) t left) }
    ensures cause { IfErr result (λ left. OpenHasCause left.why
        (M.facts (net_of core)).failed_attaches (M.facts left.net).failed_attaches) }
{
    let mut core = core;
    match core.register(handler, Mask::WRITE, Some((wait, 0))) {
        Ok(_) => Ok(core),
        Err((back, refused)) => {
            let (end, _) = back.handle_close(Why::Refused);
            Err(Unopened {
                why: refusal(refused),
                net: close(core).net,
                end,
            })
        }
    }
}

/// Why a reactor that has no handler and was not stopped did not take one.
fn refusal(refused: RegisterRefused) -> OpenRefused
    requires { MayRefuseFirst refused }
    ensures { result ≡ connect_refusal refused }
{
    match refused {
        RegisterRefused::NetFailed => OpenRefused::NotAttached,
        RegisterRefused::NoMemory => OpenRefused::NoMemory,
        RegisterRefused::Stopped | RegisterRefused::Full { .. } => {
            unreachable!("it has a place for one handler")
        }
    }
}

//! Laws of what a desk stands for, as whoever holds the token needs them. Each function has an
//! empty body: what it says is its contract, over the definitions alone.
ghost use Rattle.reactor_desk.specs.Laws.{LeadLeaves, SettleLeaves, StandsForOne};

use crate::Desk;
use ev_base::Net;
use reactor_core::Means;
use reactor_model::{EventHandler, Volumes, Watch};
use timer_queue::TimerQueue;

/// A lead leaves a history that begins with the one found, and beside the open events of that the
/// event of its job, if it gave one.
pub fn lead_leaves<
    H: EventHandler,
    M: Net<End = H::End>,
    Q: TimerQueue,
    W: Watch<H::Note>,
    V: Volumes<H::Note>,
>()
    ensures { LeadLeaves ⟦<Desk<H, M, Q, W, V> as Means>⟧.m }
{}

/// A settling leaves a history that begins with the one found, and of the open events of that all
/// but the one that was settled.
pub fn settle_leaves<
    H: EventHandler,
    M: Net<End = H::End>,
    Q: TimerQueue,
    W: Watch<H::Note>,
    V: Volumes<H::Note>,
>()
    ensures { SettleLeaves ⟦<Desk<H, M, Q, W, V> as Means>⟧.m }
{}

/// A desk stands for one history at most, among those that begin alike.
pub fn stands_for_one<
    H: EventHandler,
    M: Net<End = H::End>,
    Q: TimerQueue,
    W: Watch<H::Note>,
    V: Volumes<H::Note>,
>()
    ensures { StandsForOne ⟦<Desk<H, M, Q, W, V> as Means>⟧.m }
{}

//! What the parts of a core mean and tell, as contracts cite it.
ghost use Rattle.reactor_state.specs.State.{Shows, HasPlaces, IsPlaced};
ghost use Rattle.reactor_core.specs.Stands.{Meaning, meaning};

use crate::Core;
use ev_base::Net;
use reactor_model::{EventHandler, Volumes, Watch};
use timer_queue::TimerQueue;

/// What a reactor's parts mean and tell. The member is for contracts alone.
pub trait Means {
    /// Its handlers.
    type Handler;

    /// Its net.
    type Net;

    /// Its timers.
    type Timers;

    /// Its watch.
    type Watch;

    /// Its volumes.
    type Volumes;

    /// The notes of its handlers.
    type Note;

    /// Their ends.
    type End;

    // The meaning of all its parts.
    ghost m: { Meaning Self.Handler Self.Net Self.Timers Self.Watch Self.Volumes
        Self.Note Self.End };
}

impl<
    H: EventHandler,
    M: Net<End = H::End>,
    Q: TimerQueue,
    W: Watch<H::Note>,
    V: Volumes<H::Note>,
> Means for Core<H, M, Q, W, V> {
    type Handler = H;

    type Net = M;

    type Timers = Q;

    type Watch = W;

    type Volumes = V;

    type Note = H::Note;

    type End = H::End;

    ghost m = { meaning H.means M.facts M.keeps (Shows Q.timers) (HasPlaces Q.spare) IsPlaced
        W.stands W.faults W.is_broken W.whole V.facts };
}

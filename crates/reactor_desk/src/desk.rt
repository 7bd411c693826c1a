//! The desk: what a leader's token keeps.
ghost use Rattle.std.specs.Prelude.{◌≡◌};
ghost use Rattle.reactor_core.specs.Stands.{meaning, From};
ghost use Rattle.reactor_core.specs.reactor_state.specs.State.{Shows, HasPlaces, IsPlaced};
ghost use Rattle.reactor_core.specs.Views.{volume_of};
ghost use Rattle.reactor_desk.specs.Begins.{CanShare, desk_terms};
ghost use Rattle.reactor_desk.specs.Desks.{DeskStands, FillsVolume, core_of, drainer_of, marks_of};
ghost use Rattle.reactor_desk.specs.Desks.{no_terms};

use crate::DeskTerms;
use ev_base::Net;
use leader_token::Kept;
use notify_ring::Drainer;
use reactor_core::{Core, Means};
use reactor_model::{Entry, EventHandler, Volumes, Watch};
use timer_queue::TimerQueue;

/// A one-thread reactor and the drainer of its notifications, which whoever holds the token has
/// alone.
pub struct Desk<
    H: EventHandler,
    M: Net<End = H::End>,
    Q: TimerQueue,
    W: Watch<H::Note>,
    V: Volumes<H::Note>,
> {
    pub(crate) core: Core<H, M, Q, W, V>,
    pub(crate) drainer: Drainer,
}

/// Its parts mean what those of its reactor mean.
impl<
    H: EventHandler,
    M: Net<End = H::End>,
    Q: TimerQueue,
    W: Watch<H::Note>,
    V: Volumes<H::Note>,
> Means for Desk<H, M, Q, W, V> {
    type Handler = H;

    type Net = M;

    type Timers = Q;

    type Watch = W;

    type Volumes = V;

    type Note = H::Note;

    type End = H::End;

    ghost m = { meaning H.means M.facts M.keeps (Shows Q.timers) (HasPlaces Q.spare) IsPlaced
        W.stands W.faults W.is_broken W.whole V.facts };
}

impl<
    H: EventHandler,
    M: Net<End = H::End>,
    Q: TimerQueue,
    W: Watch<H::Note>,
    V: Volumes<H::Note>,
> Desk<H, M, Q, W, V> {
    /// A desk of a reactor and the drainer of a ring that has taken nothing. It stands for the
    /// history of the reactor if that has no notification, if at least a volume was handed
    /// over or nothing and, if the terms name the entry from which on it goes by turns, that is
    /// the next.
    pub fn new(core: Core<H, M, Q, W, V>, drainer: Drainer) -> Self
        ensures parts { (core_of result ≡ core) × (drainer_of result ≡ drainer) }
        ensures stands { From ⟦<Self as Means>⟧.m core (λ t F h. CanShare t h drainer
            → FillsVolume (volume_of core) F → DeskStands ⟦<Self as Means>⟧.m
            (desk_terms t h (volume_of core) drainer) F result h) }
    {
        Desk { core, drainer }
    }

    /// Takes it apart.
    pub fn into_parts(self) -> (Core<H, M, Q, W, V>, Drainer)
        ensures { (result.0 ≡ core_of self) × (result.1 ≡ drainer_of self) }
    {
        let Desk { core, drainer } = self;
        (core, drainer)
    }
}

/// It stands for the history of its reactor.
impl<
    H: EventHandler,
    M: Net<End = H::End>,
    Q: TimerQueue,
    W: Watch<H::Note>,
    V: Volumes<H::Note>,
> Kept for Desk<H, M, Q, W, V> {
    type Entry = Entry<H::Note>;

    type Terms = DeskTerms;

    ghost use Rattle.std.specs.Prelude.{refl};
    ghost use Rattle.reactor_core.specs.laws_turns.specs.Opens.{opens_of};
    ghost use Rattle.reactor_desk.specs.OpensOnce.{opens_once};

    ghost stands = { λ q first desk h. DeskStands ⟦<Self as Means>⟧.m q first desk h };

    ghost opens = { opens_of };

    ghost marks = { marks_of ⟦<Self as Means>⟧.m };

    ghost blank = { no_terms };

    ghost once = { λ q first desk h stands. opens_once q.run.most h stands.core.tracks.legal };

    ghost equally_many = { λ one other. refl };
}

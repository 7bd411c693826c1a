//! The shared reactor, and who calls it.
ghost use Rattle.std.specs.Prelude.{◌≡◌, length};
ghost use Rattle.reactor_core.specs.reactor_state.specs.State.{Shows, HasPlaces, IsPlaced};
ghost use Rattle.reactor_core.specs.Stands.{meaning};
ghost use Rattle.tp_reactor.specs.Words.{posted_of};

use crate::promoting::Turns;
use ev_base::{Net, Wake};
use leader_token::{Kept, Pass, Token};
use notify_ring::{Poster, Ring};
use reactor_core::Means;
use reactor_desk::{Desk, DeskTerms};
use reactor_model::{Entry, EventHandler, Volumes, Watch};
use std::sync::Mutex;
use std::sync::atomic::{AtomicBool, AtomicU64};
use timer_queue::TimerQueue;

/// A reactor that a pool of threads calls.
pub struct Reactor<
    H: EventHandler,
    M: Net<End = H::End>,
    Q: TimerQueue,
    W: Watch<H::Note>,
    V: Volumes<H::Note>,
    K: Wake,
>
where
    Desk<H, M, Q, W, V>: Kept<Entry = Entry<H::Note>, Terms = DeskTerms>,
{
    pub(crate) token: Token<Desk<H, M, Q, W, V>>,
    pub(crate) ring: Ring,
    pub(crate) waker: K,
    // How many calls that do not wait at the net want the token. A leader does not wait while there
    // are any. It is a hint, of which no contract speaks. At the gate all leaders but one wait: so
    // the token's own sleepers are calls that want it for microseconds.
    pub(crate) wanted: AtomicU64,
    // Whether a leader sleeps until these calls had it. Of this and of the gate no contract speaks
    // either.
    pub(crate) aside: AtomicBool,
    pub(crate) gate: Mutex<()>,
    pub(crate) turns: Turns,
}

/// Its parts mean what those of the reactor under its token mean.
impl<
    H: EventHandler,
    M: Net<End = H::End>,
    Q: TimerQueue,
    W: Watch<H::Note>,
    V: Volumes<H::Note>,
    K: Wake,
> Means for Reactor<H, M, Q, W, V, K> {
    type Handler = H;

    type Net = M;

    type Timers = Q;

    type Watch = W;

    type Volumes = V;

    type Note = H::Note;

    type End = H::End;

    ghost m = { meaning H.means M.facts M.keeps (Shows Q.timers) (HasPlaces Q.spare) IsPlaced
        W.stands W.faults W.is_broken W.whole V.facts };
}

/// One who calls a reactor. One thread has it at a time.
pub struct Worker<
    H: EventHandler,
    M: Net<End = H::End>,
    Q: TimerQueue,
    W: Watch<H::Note>,
    V: Volumes<H::Note>,
>
where
    Desk<H, M, Q, W, V>: Kept<Entry = Entry<H::Note>, Terms = DeskTerms>,
{
    pub(crate) pass: Pass<Desk<H, M, Q, W, V>>,
    pub(crate) poster: Poster,
}

impl<
    H: EventHandler,
    M: Net<End = H::End>,
    Q: TimerQueue,
    W: Watch<H::Note>,
    V: Volumes<H::Note>,
> Worker<H, M, Q, W, V> {
    /// How many postings it made.
    pub fn posted(&self) -> u64
        ensures { result ≡ length (posted_of self.now) }
    {
        self.poster.made()
    }

    pub(crate) fn into_parts(self) -> (Pass<Desk<H, M, Q, W, V>>, Poster)
        ensures { (result.0 ≡ self.pass) × (result.1 ≡ self.poster) }
    {
        let Self { pass, poster } = self;
        (pass, poster)
    }
}

/// A worker that is dropped instead of dismissed keeps its open event open for good.
impl<
    H: EventHandler,
    M: Net<End = H::End>,
    Q: TimerQueue,
    W: Watch<H::Note>,
    V: Volumes<H::Note>,
> Drop for Worker<H, M, Q, W, V> {
    fn drop(self) {
        let Worker { pass: _, poster: _ } = self;
    }
}

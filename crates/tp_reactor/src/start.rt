//! The beginning and the end of a shared reactor.
ghost use Rattle.std.specs.Prelude.{◌≡◌, List, length, None, IfOk, IfErr, true};
ghost use Rattle.ev_base.specs.Terms.{Terms};
ghost use Rattle.notify_ring.specs.Passes.{root_poster};
ghost use Rattle.notify_ring.specs.Words.{poster_view};
ghost use Rattle.reactor_model.specs.reactor_journal.specs.declared.entry.Entry.{Entry};
ghost use Rattle.reactor_core.specs.Views.{volume_of};
ghost use Rattle.reactor_desk.specs.Desks.{core_marks};
ghost use Rattle.tp_reactor.specs.Ends.{IsClosed, IsRoot, MayShare};
ghost use Rattle.tp_reactor.specs.Words.{known_by, poster_of, IsIdleWorker, IsOf};

use crate::promoting::Turns;
use crate::{Reactor, Worker};
use ev_base::{Net, NoMemory, Wake};
use leader_token::Token;
use notify_ring::Ring;
use reactor_core::{Core, Means};
use reactor_desk::Desk;
use reactor_model::{EventHandler, Volumes, Watch};
use std::alloc::Global;
use std::sync::Mutex;
use std::sync::atomic::{AtomicBool, AtomicU64};
use timer_queue::TimerQueue;

impl<
    H: EventHandler,
    M: Net<End = H::End>,
    Q: TimerQueue,
    W: Watch<H::Note>,
    V: Volumes<H::Note>,
    K: Wake + Drop,
> Reactor<H, M, Q, W, V, K> {
    /// Shares a reactor, in which no event is open and to which no notification was posted, and
    /// gives its root worker, who has seen its history. What it handed over until then is nothing,
    /// or at least a volume. For want of memory both come back.
    pub fn new(
        alloc: Global,
        core: Core<H, M, Q, W, V>,
        waker: K,
    ) -> Result<(Self, Worker<H, M, Q, W, V>), (Core<H, M, Q, W, V>, K, NoMemory)>
        ghost start: { Terms × List (Entry H.Note) }
        requires may { MayShare ⟦<Self as Means>⟧.m start.0 start.1 core }
        ensures of { IfOk result (λ r. IsOf r.1 r.0) }
        ensures root { IfOk result (λ r. IsRoot start.0 start.1
            (core_marks ⟦<Self as Means>⟧.m core) (known_by r.1)) }
        ensures volume { IfOk result (λ r. (known_by r.1).terms.volume ≡ volume_of core) }
        ensures poster { IfOk result (λ r. poster_view (poster_of r.1) ≡ root_poster) }
        ensures refused { IfErr result (λ e. (e.0 ≡ core) × (e.1 ≡ waker)) }
    {
        let (ring, poster, drainer) = match Ring::new(alloc) {
            Ok(made) => made,
            Err(refused) => return Err((core, waker, refused)),
        };
        match Token::new(alloc, Desk::new(core, drainer)) {
            Ok((token, pass)) => Ok((
                Reactor {
                    token,
                    ring,
                    waker,
                    wanted: AtomicU64::new(0),
                    aside: AtomicBool::new(false),
                    gate: Mutex::new(()),
                    turns: Turns::new(),
                },
                Worker { pass, poster },
            )),
            Err((desk, refused)) => {
                let (core, _drainer) = desk.into_parts();
                Err((core, waker, refused))
            }
        }
    }

    /// Gives the reactor back, once every hired worker was dismissed and the root has no open
    /// upcall. It takes no memory. What was posted and not drained is dropped.
    pub fn close(self, root: Worker<H, M, Q, W, V>) -> Core<H, M, Q, W, V>
        requires of { IsOf root self }
        requires root { ((known_by root).root ≡ true) × ((known_by root).children ≡ 0) }
        requires idle { IsIdleWorker root }
        ensures { IsClosed ⟦<Self as Means>⟧.m (known_by root) (poster_view (poster_of root))
            result }
    {
        let Reactor {
            token,
            ring,
            waker: _,
            wanted: _,
            aside: _,
            gate: _,
            turns: _,
        } = self;
        let (pass, poster) = root.into_parts();
        let (core, drainer) = token.close(pass).into_parts();
        ring.close(poster, drainer);
        core
    }
}

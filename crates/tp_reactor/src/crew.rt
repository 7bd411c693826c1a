//! Workers: how they are hired and dismissed.
ghost use Rattle.std.specs.Prelude.{◌≡◌, ◌<◌, ℕ, None, Some, true, false};
ghost use Rattle.leader_token.specs.Lists.{Begins};
ghost use Rattle.leader_token.specs.Passes.{IsOpenLater, split_left, split_right, joined};
ghost use Rattle.notify_ring.specs.Passes as ring;
ghost use Rattle.notify_ring.specs.Words.{poster_view};
ghost use Rattle.reactor_core.specs.laws_turns.specs.Opens.{opens_of};
ghost use Rattle.tp_reactor.specs.Words.{known_by, poster_of, IsOf, IsIdleWorker};

use crate::{Reactor, Worker};
use ev_base::{Net, Wake};
use reactor_model::{EventHandler, Volumes, Watch};
use timer_queue::TimerQueue;

impl<
    H: EventHandler,
    M: Net<End = H::End>,
    Q: TimerQueue,
    W: Watch<H::Note>,
    V: Volumes<H::Note>,
    K: Wake,
> Reactor<H, M, Q, W, V, K> {
    /// Hires a worker with the next number, who knows what the root knows. Fewer than 64 may have
    /// been made. It takes no memory.
    pub fn hire(&self, root: &mut Worker<H, M, Q, W, V>) -> Worker<H, M, Q, W, V>
        requires of { IsOf root.old self.now }
        requires root { (known_by root.old).root ≡ true }
        requires free { (known_by root.old).base ≡ None }
        requires few { (poster_view (poster_of root.old)).posters < 64 }
        ensures of { IsOf root.new self.now × IsOf result self.now }
        ensures root { (known_by root.new ≡ split_left (known_by root.old))
            × (poster_view (poster_of root.new)
            ≡ ring.split_left (poster_view (poster_of root.old))) }
        ensures child { (known_by result ≡ split_right (known_by root.old))
            × (poster_view (poster_of result) ≡ ring.split_right
            (poster_view (poster_of root.old))) }
    {
        let pass = self.token.split(&mut root.pass);
        let poster = self.ring.split(&mut root.poster);
        Worker { pass, poster }
    }

    /// Dismisses a worker that has no open upcall. Of what the root and the worker saw one is the
    /// beginning of the other, and the root keeps the longer. If the root has an upcall open, that
    /// is open in a list that begins with it. It takes no memory.
    pub fn dismiss(&self, root: &mut Worker<H, M, Q, W, V>, other: Worker<H, M, Q, W, V>)
        requires of { IsOf root.old self.now × IsOf other self.now }
        requires root { (known_by root.old).root ≡ true }
        requires free { (known_by root.old).base ≡ None }
        requires child { (known_by other).root ≡ false }
        requires idle { IsIdleWorker other }
        ensures of { IsOf root.new self.now }
        ensures root { (known_by root.new ≡ joined (known_by root.old) (known_by other))
            × (poster_view (poster_of root.new)
            ≡ ring.joined (poster_view (poster_of root.old)) (poster_view (poster_of other))) }
        ensures seen { Begins (known_by root.old).seen (known_by root.new).seen
            × Begins (known_by other).seen (known_by root.new).seen }
        ensures own { (e : ℕ) → (known_by root.old).mine ≡ Some e
            → IsOpenLater opens_of e (known_by root.new).seen }
    {
        let (pass, poster) = other.into_parts();
        self.token.join(&mut root.pass, pass);
        self.ring.join(&mut root.poster, poster);
    }
}

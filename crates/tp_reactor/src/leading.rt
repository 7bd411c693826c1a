//! The calls of a worker's loop: to lead, to settle and to post.
ghost use Rattle.std.specs.Prelude.{◌≡◌, ◌<◌, ◌^◌, length, None, Some};
ghost use Rattle.leader_token.specs.Passes.{IsGot};
ghost use Rattle.leader_token.specs.Words.{value_of};
ghost use Rattle.notify_ring.specs.Passes.{HasPosted};
ghost use Rattle.notify_ring.specs.Words.{poster_view};
ghost use Rattle.reactor_model.specs.reactor_journal.specs.Past.{past_of};
ghost use Rattle.reactor_core.specs.laws_turns.specs.Opens.{opens_of};
ghost use Rattle.reactor_core.specs.Polling.{FitsLimit};
ghost use Rattle.reactor_core.specs.Upcalls.{DoneFits};
ghost use Rattle.reactor_core.specs.Views.{done_event};
ghost use Rattle.reactor_desk.specs.Desks.{DeskStands, marks_of};
ghost use Rattle.tp_reactor.specs.Led.{IsLed, MarksTell};
ghost use Rattle.tp_reactor.specs.Settled.{HasSettled, SettlesOn};
ghost use Rattle.tp_reactor.specs.Words.{posted_of, known_by, poster_of, IsOf};

use crate::{Reactor, Worker};
use ev_base::{Handle, Kind, Net, Wake};
use leader_token::Held;
use notify_ring::Full;
use reactor_core::{Done, Means, Settled};
use reactor_desk::{Desk, Led};
use reactor_model::{EventHandler, Volumes, Watch};
use std::sync::Wait;
use std::sync::atomic::Ordering;
use std::thread::yield_now;
use timer_queue::TimerQueue;

/// How often a leader yields to calls that want the token before it sleeps for them.
const YIELDS: u32 = 20;

/// How often it sleeps for them: each such call, once it has the token, ends the sleep.
const SLEEPS: u32 = 8;

impl<
    H: EventHandler,
    M: Net<End = H::End>,
    Q: TimerQueue,
    W: Watch<H::Note>,
    V: Volumes<H::Note>,
    K: Wake,
> Reactor<H, M, Q, W, V, K> {
    /// Leads once (POSA2, Leader/Followers; ACE's `handle_events` of `ACE_TP_Reactor`): gets the
    /// token, hands a volume over if one is due, drains the notifications, and starts the next
    /// upcall, or waits at the net and looks again. A job that it answers is to be run and settled;
    /// meanwhile the token is free.
    pub fn lead<R: Wait>(
        &self,
        rt: &R,
        worker: &mut Worker<H, M, Q, W, V>,
        most_ms: Option<u64>,
    ) -> Led<H>
        requires of { IsOf worker.old self.now }
        requires free { ((known_by worker.old).base ≡ None) × ((known_by worker.old).mine ≡ None) }
        requires limit { FitsLimit (known_by worker.old).terms.run most_ms }
        ensures of { IsOf worker.new self.now }
        ensures led { IsLed ⟦<Self as Means>⟧.m (known_by worker.old) most_ms result
            (known_by worker.new) }
        ensures tells { MarksTell (known_by worker.old) result (known_by worker.new) }
        ensures poster { poster_of worker.new ≡ poster_of worker.old }
    {
        self.turns.follow();
        let gate = self.gate.lock(rt);
        self.turns.wait(rt);
        self.turns.promote();
        self.step_aside(rt);
        let led = self.lead_now(rt, worker, most_ms);
        drop(gate);
        led
    }

    // Leads as `lead` does, if it is said as a follower, and else at once.
    pub(crate) fn lead_on<R: Wait>(
        &self,
        rt: &R,
        worker: &mut Worker<H, M, Q, W, V>,
        most_ms: Option<u64>,
        follows: bool,
    ) -> Led<H>
        requires of { IsOf worker.old self.now }
        requires free { ((known_by worker.old).base ≡ None) × ((known_by worker.old).mine ≡ None) }
        requires limit { FitsLimit (known_by worker.old).terms.run most_ms }
        ensures of { IsOf worker.new self.now }
        ensures led { IsLed ⟦<Self as Means>⟧.m (known_by worker.old) most_ms result
            (known_by worker.new) }
        ensures poster { poster_of worker.new ≡ poster_of worker.old }
    {
        if follows {
            return self.lead(rt, worker, most_ms);
        }
        self.lead_now(rt, worker, most_ms)
    }

    // Whether a worker whose lead came to nothing is to follow: if others lead too. Else it lets
    // calls that want the token have it first.
    pub(crate) fn follows_others<R: Wait>(&self, rt: &R) -> bool {
        if !self.turns.is_alone() {
            return true;
        }
        self.step_aside(rt);
        false
    }

    // Leads as `lead` does, and passes by the gate.
    pub(crate) fn lead_now<R: Wait>(
        &self,
        rt: &R,
        worker: &mut Worker<H, M, Q, W, V>,
        most_ms: Option<u64>,
    ) -> Led<H>
        requires of { IsOf worker.old self.now }
        requires free { ((known_by worker.old).base ≡ None) × ((known_by worker.old).mine ≡ None) }
        requires limit { FitsLimit (known_by worker.old).terms.run most_ms }
        ensures of { IsOf worker.new self.now }
        ensures led { IsLed ⟦<Self as Means>⟧.m (known_by worker.old) most_ms result
            (known_by worker.new) }
        ensures tells { MarksTell (known_by worker.old) result (known_by worker.new) }
        ensures poster { poster_of worker.new ≡ poster_of worker.old }
    {
        let mut held = self.token.get(rt, &mut worker.pass);
        let counted = self.turns.begin();
        self.heed_callers();
        let led = held.value().lead(&self.ring, most_ms);
        self.end_turn(counted, has_started(&led), held.seen());
        self.token.put(&mut worker.pass, held);
        self.turns.rouse();
        led
    }

    // Lets calls that want the token have it before a leader does. It ends whether they got it or
    // not.
    fn step_aside<R: Wait>(&self, rt: &R) {
        for _ in 0..YIELDS {
            if self.wanted.load(Ordering::SeqCst) == 0 {
                return;
            }
            yield_now();
        }
        self.aside.store(true, Ordering::SeqCst);
        self.sleep_aside(rt);
        self.aside.store(false, Ordering::SeqCst);
    }

    // Sleeps while calls want the token. A call that had it lowers their count before it looks
    // whether anybody sleeps, and a sleeper says so before it looks at the count: so none sleeps
    // for a call that is over.
    fn sleep_aside<R: Wait>(&self, rt: &R) {
        for _ in 0..SLEEPS {
            match u32::try_from(self.wanted.load(Ordering::SeqCst)) {
                Ok(0) | Err(_) => return,
                Ok(wanted) => self.wanted.park(rt, wanted),
            }
        }
    }

    // Gets the token for a call that begins with no wait at the net, and ends the wait of a leader
    // who has it. A leader looks at the count when it has the token, and waits no longer if
    // there are any; one that looked before this call was counted is woken by it. So neither is
    // missed.
    pub(crate) fn take<R: Wait>(
        &self,
        rt: &R,
        worker: &mut Worker<H, M, Q, W, V>,
    ) -> Held<Desk<H, M, Q, W, V>>
        requires of { IsOf worker.old self.now }
        requires free { (known_by worker.old).base ≡ None }
        ensures of { IsOf worker.new self.now }
        ensures got { IsGot (λ q first desk h. DeskStands ⟦<Self as Means>⟧.m q first desk h)
            opens_of (marks_of ⟦<Self as Means>⟧.m) (known_by worker.old) (value_of result)
            (known_by worker.new) }
        ensures poster { poster_of worker.new ≡ poster_of worker.old }
    {
        if let Some(held) = self.token.try_get(&mut worker.pass) {
            return held;
        }
        self.turns.tell_delayed();
        self.wanted.fetch_add(1, Ordering::SeqCst);
        self.waker.wake();
        let held = self.token.get(rt, &mut worker.pass);
        self.wanted.fetch_sub(1, Ordering::SeqCst);
        self.wake_aside();
        held
    }

    // Ends the sleep of a leader that stepped aside.
    fn wake_aside(&self) {
        if self.aside.load(Ordering::SeqCst) {
            self.wanted.wake_all();
        }
    }

    /// Settles the worker's own upcall, which was made. Whatever entries came since it was started,
    /// it fits the journal still. It takes no memory and cannot fail.
    pub fn settle<R: Wait>(
        &self,
        rt: &R,
        worker: &mut Worker<H, M, Q, W, V>,
        done: Done<H>,
    ) -> Settled
        requires of { IsOf worker.old self.now }
        requires free { (known_by worker.old).base ≡ None }
        requires own { (known_by worker.old).mine ≡ Some (done_event done) }
        requires fits { DoneFits H.means (known_by worker.old).terms.run
            (past_of (known_by worker.old).seen) done }
        ensures of { IsOf worker.new self.now }
        ensures settled { HasSettled ⟦<Self as Means>⟧.m (known_by worker.old) done result
            (known_by worker.new) }
        ensures poster { poster_of worker.new ≡ poster_of worker.old }
    {
        let mut held = self.take(rt, worker);
        let settled = held.value().settle(done);
        self.token.put(&mut worker.pass, held);
        settled
    }

    // Settles the worker's own upcall as `settle` does, and leads in the same hold of the token, so
    // that a worker that goes on takes the token once for each upcall. It does not lead if as
    // many handlers were closed as `pause_at` says, so that the caller can post that first, nor
    // if a volume is to be handed over.
    pub(crate) fn settle_on<R: Wait>(
        &self,
        rt: &R,
        worker: &mut Worker<H, M, Q, W, V>,
        done: Done<H>,
        most_ms: Option<u64>,
        pause_at: Option<u64>,
    ) -> (Settled, Option<Led<H>>)
        requires of { IsOf worker.old self.now }
        requires free { (known_by worker.old).base ≡ None }
        requires own { (known_by worker.old).mine ≡ Some (done_event done) }
        requires fits { DoneFits H.means (known_by worker.old).terms.run
            (past_of (known_by worker.old).seen) done }
        requires limit { FitsLimit (known_by worker.old).terms.run most_ms }
        ensures of { IsOf worker.new self.now }
        ensures settled { SettlesOn ⟦<Self as Means>⟧.m (known_by worker.old) done result.0 most_ms
            result.1 (known_by worker.new) }
        ensures poster { poster_of worker.new ≡ poster_of worker.old }
    {
        let mut held = self.take(rt, worker);
        let counted = self.turns.begin();
        let settled = held.value().settle(done);
        if is_reached(pause_at, settled.closed) {
            self.end_turn(counted, false, held.seen());
            self.token.put(&mut worker.pass, held);
            self.turns.rouse();
            return (settled, None);
        }
        self.heed_callers();
        let led = held.value().lead_on(&self.ring, most_ms);
        self.end_turn(counted, led.as_ref().is_some_and(has_started), held.seen());
        self.token.put(&mut worker.pass, held);
        self.turns.rouse();
        (settled, led)
    }

    // Ends a counted turn of a leader, and says to a follower that asks whether upcalls wait.
    fn end_turn(&self, counted: bool, started: bool, desk: &Desk<H, M, Q, W, V>) {
        if !counted {
            return;
        }
        if started && self.turns.is_asked() && desk.has_next() {
            self.turns.tell_waiting();
        }
        self.turns.end();
    }

    // Lets the next wait end at once if calls want the token.
    fn heed_callers(&self) {
        if self.wanted.load(Ordering::SeqCst) > 0 {
            self.waker.wake();
        }
    }

    /// Posts a notification to the handler of a handle (ACE's `notify`), and wakes the leader. It
    /// neither waits nor takes memory. `Full` comes exactly if 256 places of the ring or more
    /// were held or in flight when it looked, and then nothing is posted.
    pub fn post(
        &self,
        worker: &mut Worker<H, M, Q, W, V>,
        handle: Handle,
        kind: Kind,
    ) -> Result<u64, Full>
        requires of { IsOf worker.old self.now }
        requires room { length (posted_of worker.old) < 2 ^ 56 }
        ensures of { IsOf worker.new self.now }
        ensures posted { HasPosted (poster_view (poster_of worker.old)) handle kind result
            (poster_view (poster_of worker.new)) }
        ensures pass { known_by worker.new ≡ known_by worker.old }
    {
        let posted = self.ring.post(&mut worker.poster, handle, kind);
        self.waker.wake();
        posted
    }
}

// Whether a lead started an upcall.
fn has_started<H: EventHandler>(led: &Led<H>) -> bool {
    match led {
        Led::Job(_) => true,
        _ => false,
    }
}

// Whether as many were closed.
fn is_reached(pause_at: Option<u64>, closed: u64) -> bool {
    match pause_at {
        Some(count) => count <= closed,
        None => false,
    }
}

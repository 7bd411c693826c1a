//! The lead of a desk: what the thread does that holds the token.
ghost use Rattle.std.specs.Prelude.{◌≡◌, false, IfSome, IfNone};
ghost use Rattle.std.specs.Option.{is_some};
ghost use Rattle.notify_ring.specs.Words.{drainer_ring, id_of};
ghost use Rattle.reactor_model.specs.reactor_journal.specs.Past.{past_of};
ghost use Rattle.reactor_core.specs.reactor_summary.specs.Summary.{pick, summary};
ghost use Rattle.reactor_core.specs.HandingOver.{is_due};
ghost use Rattle.reactor_core.specs.Polling.{FitsLimit};
ghost use Rattle.reactor_core.specs.Views.{net_of, volumes_of};
ghost use Rattle.reactor_desk.specs.Desks.{DeskWith, FromDesk, KeepsMarks, core_of, drainer_of};
ghost use Rattle.reactor_desk.specs.Desks.{first_of};
ghost use Rattle.reactor_desk.specs.Draining.{IsRunning, Drains, DrainsOne, HasLooked};
ghost use Rattle.reactor_desk.specs.Draining.{LeavesDrained};
ghost use Rattle.reactor_desk.specs.Leading.{DispatchGives, LeadGives, LeadTells, LeadsOn};
ghost use Rattle.reactor_desk.specs.Leading.{SomeList};
ghost use Rattle.reactor_desk.specs.Leading.{MayNotLeadOn, StartsFrom, FromStart, GivesBehind};
ghost use Rattle.reactor_desk.specs.Leading.{TellsVolumeFault};

use crate::Desk;
use ev_base::{Net, NoMemory};
use notify_ring::Ring;
use reactor_core::{HandOverRefused, Job, Means, PollRefused, Polled};
use reactor_model::{EventHandler, Volumes, Watch};
use timer_queue::TimerQueue;

/// What a leader came to.
pub enum Led<H: EventHandler> {
    /// This upcall is to be made, and settled.
    Job(Job<H>),
    /// The wait brought nothing that can be started.
    Quiet,
    /// Nothing can be reported any more, and nothing can be started.
    Over,
    /// The reactor was stopped.
    Stopped,
    /// Its watch failed.
    Broken,
    /// Its volumes failed.
    VolumeFault,
    /// The wait failed.
    NetFault,
    /// There was no memory.
    NoMemory,
}

/// How many postings one drain takes at most.
const MOST_TAKEN: u64 = 256;

impl<
    H: EventHandler,
    M: Net<End = H::End>,
    Q: TimerQueue,
    W: Watch<H::Note>,
    V: Volumes<H::Note>,
> Desk<H, M, Q, W, V> {
    /// Leads: hands a volume over if one is due, takes the postings of the ring, and starts the
    /// next upcall. If there is none to start, waits once at the net, at most `most_ms`
    /// milliseconds, which is the limit of the terms if they have one, and looks again (POSA2,
    /// Leader/Followers: the leader's wait for an event; ACE's `handle_events`).
    ///
    /// `Stopped` comes exactly if the reactor was stopped, and `Broken` exactly if it was not
    /// and its watch failed; both leave all as it was. `Quiet` and `Over` come if no upcall
    /// could be started before this call's wait nor after it, and the wait was answered so,
    /// `Quiet` also if its reports brought none. `VolumeFault` and `NetFault` come only if
    /// the count of faults of the volumes, or of failed waits, rose in this call, and with every
    /// other answer than `VolumeFault` that of the volumes is what it was. `NoMemory` and
    /// `NetFault` leave recorded what this call drained and waited for.
    pub fn lead(&mut self, ring: &Ring, most_ms: Option<u64>) -> Led<H>
        requires stands { DeskWith ⟦<Self as Means>⟧.m (λ q h. FitsLimit q.run most_ms) self.old }
        requires ring { drainer_ring (drainer_of self.old) ≡ id_of ring.now }
        ensures gives { FromDesk ⟦<Self as Means>⟧.m self.old (λ q F h. FitsLimit q.run most_ms
            → SomeList (LeadGives ⟦<Self as Means>⟧.m q F h most_ms self.old result self.new)) }
        ensures volumes { TellsVolumeFault ⟦<Self as Means>⟧.m self.old result self.new }
        ensures tells { LeadTells ⟦<Self as Means>⟧.m self.old result self.new }
        ensures marks { KeepsMarks ⟦<Self as Means>⟧.m self.old self.new }
    {
        if self.core.is_ended() {
            return Led::Stopped;
        }
        if self.core.is_broken() {
            return Led::Broken;
        }
        match self.core.hand_over() {
            Ok(_) => {}
            Err(HandOverRefused::Failed) => return Led::VolumeFault,
            Err(HandOverRefused::NoMemory) => return Led::NoMemory,
        }
        self.go_on(ring, most_ms)
    }

    /// Leads as `lead` does, in a hold of the token in which entries were appended before, and
    /// hands no volume over. None comes exactly when one is due, when the reactor was stopped,
    /// and when its watch failed, and leaves all as it was.
    pub fn lead_on(&mut self, ring: &Ring, most_ms: Option<u64>) -> Option<Led<H>>
        requires stands { DeskWith ⟦<Self as Means>⟧.m (λ q h. FitsLimit q.run most_ms) self.old }
        requires ring { drainer_ring (drainer_of self.old) ≡ id_of ring.now }
        ensures gives { FromDesk ⟦<Self as Means>⟧.m self.old
            (λ q F h. FitsLimit q.run most_ms → IfSome result
            (λ led. SomeList
            (LeadGives ⟦<Self as Means>⟧.m q F h most_ms self.old led self.new))) }
        ensures none { FromDesk ⟦<Self as Means>⟧.m self.old (λ q F h. IfNone result
            (MayNotLeadOn ⟦<Self as Means>⟧.m F h self.old × (self.new ≡ self.old))) }
        ensures due { FromDesk ⟦<Self as Means>⟧.m self.old (λ q F h. IfSome result
            (λ led. is_due (core_of self.old) F h ≡ false)) }
        ensures volumes { volumes_of (core_of self.new) ≡ volumes_of (core_of self.old) }
        ensures tells { IfSome result (λ led. LeadTells ⟦<Self as Means>⟧.m self.old led self.new) }
        ensures first { first_of self.new ≡ first_of self.old }
        ensures marks { KeepsMarks ⟦<Self as Means>⟧.m self.old self.new }
    {
        if self.core.is_ended() || self.core.is_broken() || self.core.is_volume_due() {
            return None;
        }
        Some(self.go_on(ring, most_ms))
    }

    /// Whether an upcall can be started without a wait (`Core::has_next`).
    pub fn has_next(&self) -> bool
        ensures { FromDesk ⟦<Self as Means>⟧.m self.now
            (λ q F h. result ≡ is_some (pick (summary (past_of h)))) }
    {
        self.core.has_next()
    }

    /// Takes the postings of the ring, and starts the next upcall, or waits once and looks again.
    fn go_on(&mut self, ring: &Ring, most_ms: Option<u64>) -> Led<H>
        requires stands { DeskWith ⟦<Self as Means>⟧.m (λ q h. IsRunning h
            × FitsLimit q.run most_ms) self.old }
        requires ring { drainer_ring (drainer_of self.old) ≡ id_of ring.now }
        ensures gives { FromDesk ⟦<Self as Means>⟧.m self.old
            (λ q F h. IsRunning h → FitsLimit q.run most_ms
            → SomeList (LeadsOn ⟦<Self as Means>⟧.m q F h most_ms self.old result self.new)) }
        ensures volumes { volumes_of (core_of self.new) ≡ volumes_of (core_of self.old) }
        ensures tells { LeadTells ⟦<Self as Means>⟧.m self.old result self.new }
        ensures first { first_of self.new ≡ first_of self.old }
        ensures marks { KeepsMarks ⟦<Self as Means>⟧.m self.old self.new }
    {
        match self.drain(ring) {
            Ok(_) => self.dispatch(most_ms),
            Err(NoMemory) => Led::NoMemory,
        }
    }

    /// Starts the next upcall, or waits once and looks again.
    fn dispatch(&mut self, most_ms: Option<u64>) -> Led<H>
        requires stands { DeskWith ⟦<Self as Means>⟧.m
            (λ q h. HasLooked q self.old h × IsRunning h × FitsLimit q.run most_ms) self.old }
        ensures gives { FromDesk ⟦<Self as Means>⟧.m self.old (λ q F h.
            HasLooked q self.old h → IsRunning h → FitsLimit q.run most_ms
            → SomeList (DispatchGives ⟦<Self as Means>⟧.m q F h most_ms
            (M.facts (net_of (core_of self.old))) result self.new)) }
        ensures volumes { volumes_of (core_of self.new) ≡ volumes_of (core_of self.old) }
        ensures tells { LeadTells ⟦<Self as Means>⟧.m self.old result self.new }
        ensures drainer { drainer_of self.new ≡ drainer_of self.old }
        ensures marks { KeepsMarks ⟦<Self as Means>⟧.m self.old self.new }
    {
        match self.core.start() {
            Ok(Some(job)) => return Led::Job(job),
            Ok(None) => {}
            Err(_) => return Led::NoMemory,
        }
        match self.core.poll(most_ms) {
            Ok(polled) => self.start_polled(polled),
            Err(PollRefused::NetFailed) => Led::NetFault,
            Err(PollRefused::NoMemory) => Led::NoMemory,
            Err(PollRefused::Stopped) => unreachable!("it was not stopped"),
        }
    }

    /// Starts the next upcall once a wait found this.
    fn start_polled(&mut self, polled: Polled) -> Led<H>
        requires starts { StartsFrom ⟦<Self as Means>⟧.m self.old }
        ensures gives { FromStart ⟦<Self as Means>⟧.m self.old (λ q F h.
            GivesBehind ⟦<Self as Means>⟧.m q F h polled result self.new) }
        ensures drainer { drainer_of self.new ≡ drainer_of self.old }
        ensures rest { LeavesDrained ⟦<Self as Means>⟧.m self.old self.new }
    {
        match self.core.start() {
            Ok(Some(job)) => Led::Job(job),
            Ok(None) => match polled {
                Polled::Over => Led::Over,
                Polled::Events => Led::Quiet,
                Polled::Quiet => Led::Quiet,
            },
            Err(_) => Led::NoMemory,
        }
    }

    /// Takes the postings of a ring, at most 256, until the ring is found empty, and records each:
    /// as `Posted` if its handle is alive, and else as `Stale`. The answer is how many it took.
    /// For want of memory it leaves what it recorded.
    pub fn drain(&mut self, ring: &Ring) -> Result<u64, NoMemory>
        requires stands { DeskWith ⟦<Self as Means>⟧.m (λ q h. IsRunning h) self.old }
        requires ring { drainer_ring (drainer_of self.old) ≡ id_of ring.now }
        ensures drains { FromDesk ⟦<Self as Means>⟧.m self.old (λ q F h. IsRunning h
            → Drains ⟦<Self as Means>⟧.m q F h result self.old self.new) }
        ensures rest { LeavesDrained ⟦<Self as Means>⟧.m self.old self.new }
    {
        for taken in 0..MOST_TAKEN {
            match self.drain_one(ring) {
                Ok(true) => {}
                Ok(false) => return Ok(taken),
                Err(refused) => return Err(refused),
            }
        }
        Ok(MOST_TAKEN)
    }

    /// Takes one posting and records it, or says that the ring was found empty. Room is made only
    /// if a posting is there.
    fn drain_one(&mut self, ring: &Ring) -> Result<bool, NoMemory>
        requires stands { DeskWith ⟦<Self as Means>⟧.m (λ q h. IsRunning h) self.old }
        requires ring { drainer_ring (drainer_of self.old) ≡ id_of ring.now }
        ensures drains { FromDesk ⟦<Self as Means>⟧.m self.old (λ q F h. IsRunning h
            → DrainsOne ⟦<Self as Means>⟧.m q F h result self.old self.new) }
        ensures ring { drainer_ring (drainer_of self.new) ≡ drainer_ring (drainer_of self.old) }
        ensures rest { LeavesDrained ⟦<Self as Means>⟧.m self.old self.new }
    {
        if ring.finds_none(&mut self.drainer) {
            return Ok(false);
        }
        self.record_one(ring)
    }

    /// Makes room for one posting, takes it and records it, or says that the ring was found empty.
    fn record_one(&mut self, ring: &Ring) -> Result<bool, NoMemory>
        requires stands { DeskWith ⟦<Self as Means>⟧.m (λ q h. IsRunning h) self.old }
        requires ring { drainer_ring (drainer_of self.old) ≡ id_of ring.now }
        ensures drains { FromDesk ⟦<Self as Means>⟧.m self.old (λ q F h. IsRunning h
            → DrainsOne ⟦<Self as Means>⟧.m q F h result self.old self.new) }
        ensures ring { drainer_ring (drainer_of self.new) ≡ drainer_ring (drainer_of self.old) }
        ensures rest { LeavesDrained ⟦<Self as Means>⟧.m self.old self.new }
    {
        match self.core.reserve_post() {
            Ok(()) => {}
            Err(refused) => return Err(refused),
        }
        match ring.next(&mut self.drainer) {
            Some(posting) => {
                self.core
                    .post_reserved(posting.handle, posting.kind, posting.from, posting.seq);
                Ok(true)
            }
            None => Ok(false),
        }
    }
}

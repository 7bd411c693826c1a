//! The loop of a worker.
ghost use Rattle.std.specs.Prelude.{◌≡◌, ◌<◌, ◌≤◌, ◌+◌, ◌^◌, length, None, Some, cond, true};
ghost use Rattle.notify_ring.specs.Words.{poster_view};
ghost use Rattle.reactor_core.specs.Polling.{FitsLimit};
ghost use Rattle.tp_reactor.specs.Observed.{Goes, RunsObserved, ServesAndLeadsObserved, loop_of};
ghost use Rattle.tp_reactor.specs.Working.{JobReady, LedBefore, MayPost, first_ran};
ghost use Rattle.tp_reactor.specs.Words.{posted_of, known_by, poster_of, IsOf, IsIdleWorker};
ghost use Rattle.tp_reactor.specs.Words.{SameKin};

use crate::{Observer, Reactor, Worker};
use ev_base::{Handle, Kind, Net, Wake};
use reactor_core::{Job, Means, Settled};
use reactor_desk::Led;
use reactor_model::{EventHandler, Volumes, Watch};
use std::sync::Wait;
use timer_queue::TimerQueue;

/// With which answer of a lead a worker left its loop, in the order in which they go first.
#[derive(Clone, Copy, PartialEq, Eq, Debug)]
pub enum Ran {
    /// The watch failed.
    Broken,
    /// The wait failed.
    NetFault,
    /// There was no memory.
    NoMemory,
    /// The volumes failed.
    VolumeFault,
    /// The reactor was stopped.
    Stopped,
    /// Nothing can be reported any more, and nothing can be started.
    Over,
}

impl Ran {
    // The one that goes first.
    pub(crate) fn or_first(self, other: Ran) -> Ran
        ensures { result ≡ first_ran self other }
    {
        if self as u8 <= other as u8 {
            self
        } else {
            other
        }
    }
}

impl<
    H: EventHandler,
    M: Net<End = H::End>,
    Q: TimerQueue,
    W: Watch<H::Note>,
    V: Volumes<H::Note>,
    K: Wake,
> Reactor<H, M, Q, W, V, K> {
    /// Leads, runs the job, shows it to the observer, settles it and leads again, until a lead
    /// answers neither a job nor Quiet.
    pub(crate) fn work<R: Wait, O: Observer<H>>(
        &self,
        rt: &R,
        worker: &mut Worker<H, M, Q, W, V>,
        observer: &mut O,
        most_ms: Option<u64>,
        until: Option<(u64, Handle)>,
        owes_notice: &mut bool,
    ) -> Ran
        requires of { IsOf worker.old self.now }
        requires idle { IsIdleWorker worker.old }
        requires limit { FitsLimit (known_by worker.old).terms.run most_ms }
        requires room { owes_notice.old ≡ true → length (posted_of worker.old) < 2 ^ 56 }
        ensures of { IsOf worker.new self.now }
        ensures idle { IsIdleWorker worker.new }
        ensures kin { SameKin (known_by worker.old) (known_by worker.new) }
        ensures runs { RunsObserved ⟦<Self as Means>⟧.m O.observes most_ms until
            (loop_of worker.old observer.old) result (loop_of worker.new observer.new) }
        ensures room { owes_notice.new ≡ true → length (posted_of worker.new) < 2 ^ 56 }
        ensures once { length (posted_of worker.new) + cond owes_notice.new 1 0
            ≤ length (posted_of worker.old) + cond owes_notice.old 1 0 }
    {
        self.turns.enter();
        let mut led = self.lead(rt, worker, most_ms);
        for _ in rt.forever() {
            match self.round(rt, worker, observer, led, most_ms, until, owes_notice) {
                Ok(next) => led = next,
                Err(ran) => {
                    self.turns.leave();
                    return ran;
                }
            }
        }
        unreachable!()
    }

    // One round, from what a lead answered: its job is run, shown and settled, and the next lead is
    // made. With an Err the loop ends.
    fn round<R: Wait, O: Observer<H>>(
        &self,
        rt: &R,
        worker: &mut Worker<H, M, Q, W, V>,
        observer: &mut O,
        led: Led<H>,
        most_ms: Option<u64>,
        until: Option<(u64, Handle)>,
        owes_notice: &mut bool,
    ) -> Result<Led<H>, Ran>
        requires of { IsOf worker.old self.now }
        requires led { LedBefore ⟦<Self as Means>⟧.m most_ms led (known_by worker.old) }
        requires limit { FitsLimit (known_by worker.old).terms.run most_ms }
        requires room { owes_notice.old ≡ true → length (posted_of worker.old) < 2 ^ 56 }
        ensures of { IsOf worker.new self.now }
        ensures kin { SameKin (known_by worker.old) (known_by worker.new) }
        ensures goes { Goes ⟦<Self as Means>⟧.m O.observes most_ms until led
            (loop_of worker.old observer.old) result (loop_of worker.new observer.new) }
        ensures room { owes_notice.new ≡ true → length (posted_of worker.new) < 2 ^ 56 }
        ensures once { length (posted_of worker.new) + cond owes_notice.new 1 0
            ≤ length (posted_of worker.old) + cond owes_notice.old 1 0 }
    {
        match led {
            Led::Job(job) => {
                Ok(self.serve(rt, worker, observer, job, most_ms, until, owes_notice))
            }
            Led::Quiet => Ok(self.lead_on(rt, worker, most_ms, self.follows_others(rt))),
            Led::Over => Err(Ran::Over),
            Led::Stopped => Err(Ran::Stopped),
            Led::Broken => Err(Ran::Broken),
            Led::VolumeFault => Err(Ran::VolumeFault),
            Led::NetFault => Err(Ran::NetFault),
            Led::NoMemory => Err(Ran::NoMemory),
        }
    }

    // Runs a job, shows it to the observer, settles it and leads again. If a notice is due it is
    // posted before that.
    fn serve<R: Wait, O: Observer<H>>(
        &self,
        rt: &R,
        worker: &mut Worker<H, M, Q, W, V>,
        observer: &mut O,
        job: Job<H>,
        most_ms: Option<u64>,
        until: Option<(u64, Handle)>,
        owes_notice: &mut bool,
    ) -> Led<H>
        requires of { IsOf worker.old self.now }
        requires ready { JobReady ⟦<Self as Means>⟧.m (known_by worker.old) job }
        requires limit { FitsLimit (known_by worker.old).terms.run most_ms }
        requires room { owes_notice.old ≡ true → length (posted_of worker.old) < 2 ^ 56 }
        ensures of { IsOf worker.new self.now }
        ensures serves { ServesAndLeadsObserved ⟦<Self as Means>⟧.m O.observes most_ms until job
            (loop_of worker.old observer.old) result (loop_of worker.new observer.new) }
        ensures room { owes_notice.new ≡ true → length (posted_of worker.new) < 2 ^ 56 }
        ensures once { length (posted_of worker.new) + cond owes_notice.new 1 0
            ≤ length (posted_of worker.old) + cond owes_notice.old 1 0 }
    {
        let done = job.run();
        observer.observe(&done);
        let pause_at = if *owes_notice {
            until.map(|(count, _)| count)
        } else {
            None
        };
        let (settled, led) = self.settle_on(rt, worker, done, most_ms, pause_at);
        self.tell(worker, until, settled, owes_notice);
        match led {
            Some(led) => led,
            None => self.lead_now(rt, worker, most_ms),
        }
    }

    // Posts a notice, if one is still to be posted, once as many handlers were closed or refused as
    // were asked for. If the ring is full it is still to be posted.
    fn tell(
        &self,
        worker: &mut Worker<H, M, Q, W, V>,
        until: Option<(u64, Handle)>,
        settled: Settled,
        owes_notice: &mut bool,
    )
        requires of { IsOf worker.old self.now }
        requires room { owes_notice.old ≡ true → length (posted_of worker.old) < 2 ^ 56 }
        ensures of { IsOf worker.new self.now }
        ensures posts { MayPost until settled (poster_view (poster_of worker.old))
            (poster_view (poster_of worker.new)) }
        ensures pass { known_by worker.new ≡ known_by worker.old }
        ensures room { owes_notice.new ≡ true → length (posted_of worker.new) < 2 ^ 56 }
        ensures once { length (posted_of worker.new) + cond owes_notice.new 1 0
            ≤ length (posted_of worker.old) + cond owes_notice.old 1 0 }
    {
        let Some((count, handle)) = until else {
            return;
        };
        if !*owes_notice || settled.closed < count || settled.ended {
            return;
        }
        match self.post(worker, handle, Kind::Except) {
            Ok(_) => *owes_notice = false,
            Err(_) => {}
        }
    }
}

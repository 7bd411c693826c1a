//! The pool: workers that lead in turn, each on a thread of its own.
ghost use Rattle.std.specs.Prelude.{◌≡◌, ◌<◌, ◌≤◌, ◌+◌, ◌^◌, [], All, IfSome, cond};
ghost use Rattle.std.specs.Prelude.{length, true, vec_capacity};
ghost use Rattle.std.specs.List.{AllZip};
ghost use Rattle.notify_ring.specs.Words.{poster_view};
ghost use Rattle.reactor_core.specs.reactor_state.specs.State.{HasPlaces, IsPlaced, Shows};
ghost use Rattle.reactor_core.specs.Polling.{FitsLimit};
ghost use Rattle.reactor_core.specs.Stands.{meaning};
ghost use Rattle.tp_reactor.specs.Hired.{AreHired, IsBack, IsReady, MayLeave, ends_of};
ghost use Rattle.tp_reactor.specs.Hired.{observers_of};
ghost use Rattle.tp_reactor.specs.Observed.{PoolObserved, RunObserves, RunsObserved, loop_of};
ghost use Rattle.tp_reactor.specs.Pool.{Dismisses, hirer, hirer_posted};
ghost use Rattle.tp_reactor.specs.Workers.{MayRun, RunsWorkers, SameWorker, worker_end};
ghost use Rattle.tp_reactor.specs.Words.{IsIdleWorker, IsOf, SameKin, known_by, posted_of};
ghost use Rattle.tp_reactor.specs.Words.{poster_of};

use crate::observer::no_observers;
use crate::{NoObserver, Observer, Ran, Reactor, Worker};
use ev_base::{Handle, Net, Wake};
use leader_token::Kept;
use reactor_core::Means;
use reactor_desk::{Desk, DeskTerms};
use reactor_model::{Entry, EventHandler, Volumes, Watch};
use std::alloc::Global;
use std::sync::Wait;
use std::thread::{Threads, for_each_mut, join_mut};
use timer_queue::TimerQueue;

/// A hired worker, its observer, and with which answer it left its loop.
pub(crate) struct Hired<
    H: EventHandler,
    M: Net<End = H::End>,
    Q: TimerQueue,
    W: Watch<H::Note>,
    V: Volumes<H::Note>,
    O,
>
where
    Desk<H, M, Q, W, V>: Kept<Entry = Entry<H::Note>, Terms = DeskTerms>,
{
    pub(crate) worker: Worker<H, M, Q, W, V>,
    pub(crate) observer: O,
    pub(crate) ran: Ran,
}

impl<
    H: EventHandler,
    M: Net<End = H::End>,
    Q: TimerQueue,
    W: Watch<H::Note>,
    V: Volumes<H::Note>,
    O,
> Hired<H, M, Q, W, V, O> {
    fn into_parts(self) -> (Worker<H, M, Q, W, V>, O, Ran)
        ensures { (result.0 ≡ self.worker) × (result.1 ≡ self.observer) × (result.2 ≡ self.ran) }
    {
        let Self {
            worker,
            observer,
            ran,
        } = self;
        (worker, observer, ran)
    }
}

/// It is dropped as its worker is.
impl<
    H: EventHandler,
    M: Net<End = H::End>,
    Q: TimerQueue,
    W: Watch<H::Note>,
    V: Volumes<H::Note>,
    O: Drop,
> Drop for Hired<H, M, Q, W, V, O> {
    fn drop(self) {
        let Hired {
            worker: _,
            observer: _,
            ran: _,
        } = self;
    }
}

impl<
    H: EventHandler + Send,
    M: Net<End = H::End> + Send,
    Q: TimerQueue + Send,
    W: Watch<H::Note> + Send,
    V: Volumes<H::Note> + Send,
    K: Wake + Sync,
> Reactor<H, M, Q, W, V, K>
where
    H::Note: Send,
    H::End: Send,
{
    /// Runs the reactor with so many workers, from 1: the root, and hired ones, each on a thread of
    /// its own if one can be started, and else one after another (POSA2, Leader/Followers;
    /// ACE's `run_reactor_event_loop`, called by a pool of threads). Each leads, runs the job and
    /// settles it, until a lead answers neither a job nor Quiet. Then the hired ones are dismissed,
    /// and if each left with `Over` the root goes on alone.
    ///
    /// With `until` each of them posts a notice to the handle, once, when as many handlers as it
    /// names were closed or refused.
    ///
    /// The answer is the first in the order of `Ran` with which any of them left. It is `NoMemory`
    /// too if there was none for the list of the hired workers: then nobody was hired, and no
    /// lead was made.
    pub fn run_workers<R: Threads + Wait + Sync>(
        &self,
        rt: &R,
        alloc: Global,
        root: &mut Worker<H, M, Q, W, V>,
        n: usize,
        most_ms: Option<u64>,
        until: Option<(u64, Handle)>,
    ) -> Ran
        requires of { IsOf root.old self.now }
        requires may { MayRun root.old n most_ms until }
        ensures runs { RunsWorkers ⟦<Self as Means>⟧.m n most_ms until root.old result root.new }
        ensures worker { SameWorker self.now root.old root.new }
    {
        match no_observers(alloc, n - 1) {
            Ok(mut hired) => {
                let mut none = NoObserver;
                self.run_workers_observed(rt, alloc, root, &mut none, &mut hired, most_ms, until)
            }
            Err(_) => Ran::NoMemory,
        }
    }

    /// Runs the reactor as `run_workers` does, with an observer for each worker: the root's, and
    /// one for each that is to be hired, in the order of their hiring. Each worker shows each
    /// upcall that it makes to its own observer, once, before it settles it.
    ///
    /// At the end the observers stand in the same order. If nobody was hired for want of memory,
    /// no observer was shown anything.
    pub fn run_workers_observed<R: Threads + Wait + Sync, O: Observer<H> + Send + Drop>(
        &self,
        rt: &R,
        alloc: Global,
        root: &mut Worker<H, M, Q, W, V>,
        observer: &mut O,
        hired: &mut Vec<O>,
        most_ms: Option<u64>,
        until: Option<(u64, Handle)>,
    ) -> Ran
        requires of { IsOf root.old self.now }
        requires may { MayRun root.old (length hired.old.items + 1) most_ms until }
        ensures runs { RunsWorkers ⟦<Self as Means>⟧.m (length hired.old.items + 1) most_ms until
            root.old result root.new }
        ensures worker { SameWorker self.now root.old root.new }
        ensures observed { RunObserves ⟦<Self as Means>⟧.m O.observes most_ms until
            (known_by root.old) (poster_view (poster_of root.old))
            (record { root = observer.old; hired = hired.old.items }) (worker_end result root.new)
            (record { root = observer.new; hired = hired.new.items }) }
    {
        let many = hired.len();
        if many == 0 {
            let mut owes_notice = until.is_some();
            return self.work(rt, root, observer, most_ms, until, &mut owes_notice);
        }
        match Vec::with_capacity(alloc, many) {
            Ok(room) => self.run_pool(rt, root, observer, hired, room, most_ms, until),
            Err(_) => Ran::NoMemory,
        }
    }

    // Hires a worker for each of these observers, into a list that has room for them, lets them and
    // the root make their loops, and dismisses them. If each left with Over, the root goes on
    // alone.
    fn run_pool<R: Threads + Wait + Sync, O: Observer<H> + Send + Drop>(
        &self,
        rt: &R,
        root: &mut Worker<H, M, Q, W, V>,
        observer: &mut O,
        observers: &mut Vec<O>,
        room: Vec<Hired<H, M, Q, W, V, O>>,
        most_ms: Option<u64>,
        until: Option<(u64, Handle)>,
    ) -> Ran
        requires few { (poster_view (poster_of root.old)).posters + length observers.old.items
            ≤ 64 }
        requires of { IsOf root.old self.now }
        requires root { (known_by root.old).root ≡ true }
        requires idle { IsIdleWorker root.old }
        requires limit { FitsLimit (known_by root.old).terms.run most_ms }
        requires room { IfSome until (λ asked. length (posted_of root.old) < 2 ^ 56) }
        requires empty { room.items ≡ [] }
        requires places { length observers.old.items ≤ vec_capacity room }
        ensures of { IsOf root.new self.now }
        ensures idle { IsIdleWorker root.new }
        ensures runs { PoolObserved ⟦<Self as Means>⟧.m O.observes most_ms until
            (length observers.old.items) (known_by root.old) (poster_view (poster_of root.old))
            (record { root = observer.old; hired = observers.old.items })
            (worker_end result root.new)
            (record { root = observer.new; hired = observers.new.items }) }
        ensures once { length (posted_of root.new) ≤ length (posted_of root.old) + 1 }
    {
        let hired = self.hire_all(root, room, observers);
        let mut owes_notice = until.is_some();
        let (ran, back) = self.run_all(rt, root, observer, hired, most_ms, until, &mut owes_notice);
        match self.dismiss_all(root, back, observers, ran) {
            Ran::Over => self.work(rt, root, observer, most_ms, until, &mut owes_notice),
            first => first,
        }
    }

    // Hires a worker for each of these observers, into a list that has room for them.
    fn hire_all<O: Drop>(
        &self,
        root: &mut Worker<H, M, Q, W, V>,
        room: Vec<Hired<H, M, Q, W, V, O>>,
        observers: &mut Vec<O>,
    ) -> Vec<Hired<H, M, Q, W, V, O>>
        requires few { (poster_view (poster_of root.old)).posters + length observers.old.items
            ≤ 64 }
        requires of { IsOf root.old self.now }
        requires root { (known_by root.old).root ≡ true }
        requires idle { IsIdleWorker root.old }
        requires empty { room.items ≡ [] }
        requires places { length observers.old.items ≤ vec_capacity room }
        ensures of { IsOf root.new self.now }
        ensures known { known_by root.new ≡ hirer (known_by root.old) (length result.items) }
        ensures posted { poster_view (poster_of root.new) ≡ hirer_posted
            (poster_view (poster_of root.old)) (length result.items) }
        ensures hired { AreHired self.now (known_by root.old) (poster_view (poster_of root.old)) 0
            result.items }
        ensures observers { observers_of result.items ≡ observers.old.items }
        ensures none { observers.new.items ≡ [] }
        ensures capacity { vec_capacity observers.new ≡ vec_capacity observers.old }
    {
        let mut hired = room;
        while observers.len() > 0 {
            let worker = self.hire(root);
            let observer = observers.remove(0);
            hired.push_reserved(Hired {
                worker,
                observer,
                ran: Ran::Over,
            });
        }
        hired
    }

    // The loops of the root and of the hired workers, at once if threads can be started.
    fn run_all<'a, R: Threads + Wait + Sync, O: Observer<H> + Send + Drop + 'a>(
        &'a self,
        rt: &R,
        root: &mut Worker<H, M, Q, W, V>,
        observer: &mut O,
        hired: Vec<Hired<H, M, Q, W, V, O>>,
        most_ms: Option<u64>,
        until: Option<(u64, Handle)>,
        owes_notice: &mut bool,
    ) -> (Ran, Vec<Hired<H, M, Q, W, V, O>>)
        requires of { IsOf root.old self.now }
        requires idle { IsIdleWorker root.old }
        requires limit { FitsLimit (known_by root.old).terms.run most_ms }
        requires room { owes_notice.old ≡ true → length (posted_of root.old) < 2 ^ 56 }
        requires ready { All (λ x. IsReady self.now most_ms x) hired.items }
        ensures of { IsOf root.new self.now }
        ensures idle { IsIdleWorker root.new }
        ensures kin { SameKin (known_by root.old) (known_by root.new) }
        ensures runs { RunsObserved ⟦<Self as Means>⟧.m O.observes most_ms until
            (loop_of root.old observer.old) result.0 (loop_of root.new observer.new) }
        ensures room { owes_notice.new ≡ true → length (posted_of root.new) < 2 ^ 56 }
        ensures once { length (posted_of root.new) + cond owes_notice.new 1 0
            ≤ length (posted_of root.old) + cond owes_notice.old 1 0 }
        ensures back { AllZip (IsBack ⟦<Self as Means>⟧.m O.observes self.now most_ms until)
            hired.items result.1.items }
    {
        let mut crew = hired;
        let limit = most_ms;
        let end = until;
        let mut mine = || -> Ran
            requires { IsOf root.now self.now × IsIdleWorker root.now
                × FitsLimit (known_by root.now).terms.run most_ms
                × (owes_notice.now ≡ true → length (posted_of root.now) < 2 ^ 56) }
            ensures { IsOf root.exit.now self.entry.now × IsIdleWorker root.exit.now
                × SameKin (known_by root.entry.now) (known_by root.exit.now)
                × RunsObserved (meaning H.means M.facts M.keeps (Shows Q.timers)
                (HasPlaces Q.spare) IsPlaced W.stands W.faults W.is_broken W.whole V.facts)
                O.observes most_ms until (loop_of root.entry.now observer.entry.now) result
                (loop_of root.exit.now observer.exit.now)
                × (owes_notice.exit.now ≡ true → length (posted_of root.exit.now) < 2 ^ 56)
                × (length (posted_of root.exit.now) + cond owes_notice.exit.now 1 0
                ≤ length (posted_of root.entry.now) + cond owes_notice.entry.now 1 0) }
        { self.work(rt, root, observer, most_ms, until, owes_notice) };
        let mut theirs = ||
            requires { All (λ x. IsReady self.now limit x) crew.items }
            ensures { AllZip (IsBack (meaning H.means M.facts M.keeps (Shows Q.timers)
                (HasPlaces Q.spare) IsPlaced W.stands W.faults W.is_broken W.whole V.facts)
                O.observes self.entry.now limit end) crew.entry.items crew.exit.items }
        { self.work_all(rt, &mut crew, limit, end) };
        let (_, ran) = join_mut(rt, &mut theirs, &mut mine);
        (ran, crew)
    }

    // The loops of hired workers, each on a thread of its own if one can be started, and else
    // one after another.
    fn work_all<R: Threads + Wait + Sync, O: Observer<H> + Send + Drop>(
        &self,
        rt: &R,
        hired: &mut Vec<Hired<H, M, Q, W, V, O>>,
        most_ms: Option<u64>,
        until: Option<(u64, Handle)>,
    )
        requires { All (λ x. IsReady self.now most_ms x) hired.old.items }
        ensures { AllZip (IsBack ⟦<Self as Means>⟧.m O.observes self.now most_ms until)
            hired.old.items hired.new.items }
    {
        self.work_each(rt, hired.as_mut_slice(), most_ms, until);
    }

    fn work_each<R: Threads + Wait + Sync, O: Observer<H> + Send + Drop>(
        &self,
        rt: &R,
        hired: &mut [Hired<H, M, Q, W, V, O>],
        most_ms: Option<u64>,
        until: Option<(u64, Handle)>,
    )
        requires { All (λ x. IsReady self.now most_ms x) hired.old }
        ensures { AllZip (IsBack ⟦<Self as Means>⟧.m O.observes self.now most_ms until) hired.old
            hired.new }
    {
        let threads = hired.len();
        if threads == 0 {
            return;
        }
        for_each_mut(
            rt,
            hired,
            threads,
            &|_at: usize, seat: &mut Hired<H, M, Q, W, V, O>|
                requires { IsReady self.now most_ms seat.now }
                ensures { IsBack (meaning H.means M.facts M.keeps (Shows Q.timers)
                    (HasPlaces Q.spare) IsPlaced W.stands W.faults W.is_broken W.whole V.facts)
                    O.observes self.entry.now most_ms until seat.entry.now seat.exit.now }
            { self.work_seat(rt, seat, most_ms, until) },
        );
    }

    // The loop of one hired worker.
    fn work_seat<R: Wait, O: Observer<H>>(
        &self,
        rt: &R,
        seat: &mut Hired<H, M, Q, W, V, O>,
        most_ms: Option<u64>,
        until: Option<(u64, Handle)>,
    )
        requires { IsReady self.now most_ms seat.old }
        ensures { IsBack ⟦<Self as Means>⟧.m O.observes self.now most_ms until seat.old seat.new }
    {
        let mut owes_notice = until.is_some();
        seat.ran = self.work(
            rt,
            &mut seat.worker,
            &mut seat.observer,
            most_ms,
            until,
            &mut owes_notice,
        );
    }

    // Dismisses the hired workers, gives their observers back, and gives the answer that goes first
    // of theirs and of the root's.
    fn dismiss_all<O: Drop>(
        &self,
        root: &mut Worker<H, M, Q, W, V>,
        hired: Vec<Hired<H, M, Q, W, V, O>>,
        observers: &mut Vec<O>,
        ran: Ran,
    ) -> Ran
        requires of { IsOf root.old self.now }
        requires root { (known_by root.old).root ≡ true }
        requires idle { IsIdleWorker root.old }
        requires leave { All (λ x. MayLeave self.now x) hired.items }
        requires empty { observers.old.items ≡ [] }
        requires places { length hired.items ≤ vec_capacity observers.old }
        ensures of { IsOf root.new self.now }
        ensures idle { IsIdleWorker root.new }
        ensures dismisses { Dismisses (worker_end ran root.old) (ends_of hired.items)
            (worker_end result root.new) }
        ensures observers { observers.new.items ≡ observers_of hired.items }
    {
        let mut first = ran;
        for seat in hired {
            let (worker, observer, ran) = seat.into_parts();
            self.dismiss(root, worker);
            observers.push_reserved(observer);
            first = first.or_first(ran);
        }
        first
    }
}

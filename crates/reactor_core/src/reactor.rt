//! The core: a reactor that one thread at a time calls.
ghost use Rattle.std.specs.Prelude.{◌≡◌, ◌≤◌, ℕ, [], IfOk, IfErr, true, drop, Some};
ghost use Rattle.ev_base.specs.Counts.{Rose};
ghost use Rattle.ev_base.specs.Terms.{Terms};
ghost use Rattle.reactor_model.specs.reactor_journal.specs.Past.{past_of};
ghost use Rattle.reactor_summary.specs.Summary.{summary};
ghost use Rattle.reactor_model.specs.Volumes.{BeginsJournal};
ghost use Rattle.reactor_core.specs.Views.{volume_of, net_of, watch_of, volumes_of, over_of};
ghost use Rattle.reactor_core.specs.Stands.{From, Stands, StandsWith};
ghost use Rattle.reactor_core.specs.Ends.{WhereTold};
ghost use Rattle.reactor_core.specs.Marks.{IsOverAt, answers};
ghost use Rattle.reactor_core.specs.Beginning.{CanBegin, IsShutDown, PartsStand};

use crate::marks::WaitMarks;
use crate::means::Means;
use ev_base::{Net, NoMemory};
use handler_repo::PlacedRepo;
use reactor_model::{EventHandler, Journal, Volumes, Watch};
use reactor_state::ReactorState;
use std::alloc::Global;
use timer_queue::TimerQueue;

/// A reactor that one thread at a time calls (POSA2, Reactor: Initiation Dispatcher; C++NPv2
/// chapter 3, `ACE_Reactor`): it waits for what its net, its timers and its posters report, records
/// each as an event in its journal, and dispatches the events to the handlers one by one.
///
/// It hands out each upcall as a job, so that its caller chooses when and where it runs, and takes
/// it back to be settled.
pub struct Core<
    H: EventHandler,
    M: Net<End = H::End>,
    Q: TimerQueue,
    W: Watch<H::Note>,
    V: Volumes<H::Note>,
> {
    pub(crate) alloc: Global,
    pub(crate) most: u64,
    pub(crate) volume: u64,
    pub(crate) first: u64,
    pub(crate) journal: Journal<H::Note>,
    pub(crate) state: ReactorState<Q>,
    pub(crate) repo: PlacedRepo<H>,
    pub(crate) net: M,
    pub(crate) watch: W,
    pub(crate) volumes: V,
    pub(crate) marks: WaitMarks,
}

/// What a reactor that is over leaves.
#[derive(Drop)]
pub struct Parts<N, M, Q, W, V> {
    /// The entries that were not handed over.
    pub journal: Journal<N>,
    /// How many entries were handed over.
    pub first: u64,
    /// The net.
    pub net: M,
    /// The timer queue.
    pub timers: Q,
    /// The watch.
    pub watch: W,
    /// The volumes.
    pub volumes: V,
}

impl<
    H: EventHandler,
    M: Net<End = H::End>,
    Q: TimerQueue,
    W: Watch<H::Note>,
    V: Volumes<H::Note>,
> Core<H, M, Q, W, V> {
    /// A reactor for at most so many live handlers, from 1 to 4,097, which hands its journal over
    /// in volumes of at least so many entries, from 1. Its timer queue is empty, its watch has seen
    /// nothing, and its net has made no call. The volumes begin another journal. With `NoMemory`
    /// all comes back as it was.
    pub fn new(
        alloc: Global,
        most: u64,
        volume: u64,
        net: M,
        timers: Q,
        watch: W,
        volumes: V,
    ) -> Result<Self, (M, Q, W, V, NoMemory)>
        requires least { 1 ≤ most }
        requires greatest { most ≤ 4097 }
        requires volume { 1 ≤ volume }
        requires begins { (t : Terms) × CanBegin (M.facts net) (M.keeps t net) (Q.timers timers)
            (W.stands t watch []) (V.facts volumes) t most }
        ensures ok { IfOk result (λ core. (t : Terms) → CanBegin (M.facts net) (M.keeps t net)
            (Q.timers timers) (W.stands t watch []) (V.facts volumes) t most
            → Stands ⟦<Self as Means>⟧.m t core 0 []) }
        ensures volume { IfOk result (λ core. volume_of core ≡ volume) }
        ensures parts { IfOk result (λ core. (net_of core ≡ net) × (watch_of core ≡ watch)) }
        ensures volumes { IfOk result (λ core.
            BeginsJournal (V.facts volumes) (V.facts (volumes_of core))) }
        ensures err { IfErr result (λ back. (back.0 ≡ net) × (back.1 ≡ timers)
            × (back.2 ≡ watch) × (back.3 ≡ volumes)) }
    {
        let mut journal = Journal::new(alloc);
        match journal.reserve(1) {
            Ok(()) => {}
            Err(refused) => {
                journal.into_vec().destroy_empty();
                return Err((net, timers, watch, volumes, refused));
            }
        }
        let mut volumes = volumes;
        volumes.begin();
        Ok(Core {
            alloc,
            most,
            volume,
            first: 0,
            journal,
            state: ReactorState::new(alloc, timers),
            repo: PlacedRepo::new(alloc),
            net,
            watch,
            volumes,
            marks: WaitMarks { made: 0, over: 0 },
        })
    }

    /// The entries that were not handed over, in order.
    pub fn journal(&self) -> &Journal<H::Note>
        ensures { From ⟦<Self as Means>⟧.m self.now (λ t F h. result.now.entries ≡ drop F h) }
    {
        &self.journal
    }

    /// How many entries were handed over.
    pub fn first(&self) -> u64
        ensures { From ⟦<Self as Means>⟧.m self.now (λ t F h. result ≡ F) }
    {
        self.first
    }

    /// How many handlers may be live at once.
    pub fn most(&self) -> u64
        ensures { From ⟦<Self as Means>⟧.m self.now (λ t F h. result ≡ t.most) }
    {
        self.most
    }

    /// Whether it was stopped.
    pub fn is_ended(&self) -> bool
        ensures { From ⟦<Self as Means>⟧.m self.now
            (λ t F h. result ≡ (summary (past_of h)).ended) }
    {
        self.state.is_ended()
    }

    /// Whether its watch failed. If it did, a fault rose after the start.
    pub fn is_broken(&self) -> bool
        ensures told { result ≡ W.is_broken (watch_of self.now) }
        ensures rose { From ⟦<Self as Means>⟧.m self.now (λ t F h. (before : ℕ) → result ≡ true
            → t.output_faults ≡ Some before → Rose before (W.faults (watch_of self.now))) }
    {
        self.watch.broken()
    }

    /// The number, from 1, of the last wait that was answered `Over`, or 0 if there was none.
    /// The n-th wait that did not fail has the n-th `Polled` of the journal.
    pub fn over(&self) -> u64
        ensures mark { result ≡ over_of self.now }
        ensures there { From ⟦<Self as Means>⟧.m self.now (λ t F h. 1 ≤ result
            → WhereTold (λ calls. IsOverAt result (answers calls))
            (M.facts (net_of self.now)).calls) }
    {
        self.marks.over
    }

    /// Takes apart a reactor that was stopped and whose handlers were all closed. The net, the
    /// watch and the volumes are its own, so their counts of faults are those of its last call.
    pub fn into_parts(self) -> Parts<H::Note, M, Q, W, V>
        requires stands { StandsWith ⟦<Self as Means>⟧.m (λ t h. IsShutDown (summary (past_of h)))
            self }
        ensures stands { From ⟦<Self as Means>⟧.m self
            (λ t F h. PartsStand ⟦<Self as Means>⟧.m Q.timers t F h result) }
        ensures net { result.net ≡ net_of self }
        ensures watch { result.watch ≡ watch_of self }
        ensures volumes { result.volumes ≡ volumes_of self }
    {
        let Core {
            alloc: _,
            most: _,
            volume: _,
            first,
            journal,
            state,
            repo,
            net,
            watch,
            volumes,
            marks: _,
        } = self;
        repo.close();
        Parts {
            journal,
            first,
            net,
            timers: state.into_timers(),
            watch,
            volumes,
        }
    }
}

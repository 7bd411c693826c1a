//! The start of an upcall.
ghost use Rattle.std.specs.Prelude.{◌≡◌, Some, IfOk, OnErr};
ghost use Rattle.std.specs.Option.{is_some};
ghost use Rattle.reactor_model.specs.reactor_journal.specs.declared.entry.Entry.{Entry};
ghost use Rattle.reactor_model.specs.reactor_journal.specs.Past.{past_of};
ghost use Rattle.reactor_summary.specs.Summary.{pick, summary};
ghost use Rattle.ev_base.specs.Net.{Reserves};
ghost use Rattle.reactor_core.specs.Rest.{LeavesRest};
ghost use Rattle.reactor_core.specs.Refusals.{LeavesStart};
ghost use Rattle.reactor_core.specs.Stands.{From, Somewhere, Each, IsStanding, StandsAsBefore};
ghost use Rattle.reactor_core.specs.Steps.{MayDispatch};
ghost use Rattle.reactor_core.specs.Views.{net_of};
ghost use Rattle.reactor_core.specs.Upcalls.{StartGives};
ghost use Rattle.reactor_state.specs.State.{IsPlaced};

use crate::append::append;
use crate::means::Means;
use crate::{Core, Job};
use ev_base::Net;
use reactor_model::{Entry, EventHandler, Volumes, Watch};
use reactor_state::{Pick, Places};
use timer_queue::TimerQueue;

/// Why no upcall was started.
#[derive(Clone, Copy, PartialEq, Eq, Debug)]
pub enum StartRefused {
    /// There was no memory for what its settling may append.
    NoMemory,
}

/// How many entries the start of an upcall takes room for: its own, and five for its settling.
const UPCALL_ENTRIES: usize = 6;

/// The places that it takes: those of a registration with its timer, of the timer that is armed
/// again, and of an event.
const UPCALL_PLACES: Places = Places {
    handles: 1,
    timers: 2,
    timeouts: 1,
    events: 1,
    opens: 1,
};

impl<
    H: EventHandler,
    M: Net<End = H::End>,
    Q: TimerQueue,
    W: Watch<H::Note>,
    V: Volumes<H::Note>,
> Core<H, M, Q, W, V> {
    /// Starts the upcall of the event that is to be dispatched next, and gives its job, or None
    /// exactly if there is no such event, and then nothing has changed. The journal has one more
    /// entry, `Started`. The net may have more places, and is else as it was. After `NoMemory`
    /// nothing has changed but the room.
    #[inline(always)]
    pub fn start(&mut self) -> Result<Option<Job<H>>, StartRefused>
        requires stands { IsStanding ⟦<Self as Means>⟧.m self.old }
        ensures ok { IfOk result (λ job. From ⟦<Self as Means>⟧.m self.old
            (λ t F h. StartGives ⟦<Self as Means>⟧.m t F h job self.new)) }
        ensures err { OnErr result (StandsAsBefore ⟦<Self as Means>⟧.m self.old self.new) }
        ensures refused { LeavesStart ⟦<Self as Means>⟧.m self.old result self.new }
        ensures net { Reserves (M.facts (net_of self.old)) (M.facts (net_of self.new)) }
        ensures rest { LeavesRest ⟦<Self as Means>⟧.m self.old self.new }
    {
        let Some(pick) = self.state.find_pick() else {
            return Ok(None);
        };
        match self.make_room(UPCALL_ENTRIES, UPCALL_PLACES) {
            Ok(()) => {}
            Err(_) => return Err(StartRefused::NoMemory),
        }
        Ok(Some(self.dispatch(pick)))
    }

    /// Whether `start` would find an event to be dispatched. It goes past those events that wait
    /// whose handle is busy or suspended.
    pub fn has_next(&self) -> bool
        ensures { From ⟦<Self as Means>⟧.m self.now (λ t F h. result
            ≡ is_some (pick (summary (past_of h)))) }
    {
        self.state.find_pick().is_some()
    }

    /// Starts the upcall of the pick, for which there is room.
    #[inline(always)]
    fn dispatch(&mut self, pick: Pick) -> Job<H>
        requires may { Somewhere (MayDispatch ⟦<Self as Means>⟧.m pick.event) self.old }
        requires placed { IsPlaced self.old.state pick }
        ensures stands { Each (MayDispatch ⟦<Self as Means>⟧.m pick.event) self.old
            (λ t F h. StartGives ⟦<Self as Means>⟧.m t F h (Some result) self.new) }
        ensures net { self.new.net ≡ self.old.net }
        ensures rest { LeavesRest ⟦<Self as Means>⟧.m self.old self.new }
    {
        let event = pick.event;
        let moment = self.state.moment();
        let handler = match self.repo.take(event.handle) {
            Some(handler) => handler,
            None => unreachable!("a handler that may run is at home"),
        };
        self.state.start(pick);
        append(
            &mut self.journal,
            &mut self.watch,
            Entry::Started { event: event.event },
        );
        Job {
            event: event.event,
            handle: event.handle,
            upcall: event.upcall,
            now: moment,
            handler,
        }
    }
}

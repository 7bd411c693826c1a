//! The state of a one-thread reactor: its parts, its room, and what is asked of it.

ghost use Rattle.std.specs.Prelude.{◌≡◌, ◌≤◌, ◌+◌, ◌-◌, ◌*◌, ◌==◌, ◌&&◌, if◌then◌else◌, [], length};
ghost use Rattle.std.specs.Prelude.{map, nat_le, OnOk, IsOk, IfSome};
ghost use Rattle.std.specs.List.{find};
ghost use Rattle.std.specs.Option.{option_map};
ghost use Rattle.reactor_summary.specs.reactor_journal.specs.Past as P;
ghost use Rattle.reactor_summary.specs.Summary as S;
ghost use Rattle.reactor_summary.specs.Summary.{Summary};
ghost use Rattle.reactor_summary.specs.Rules as R;
ghost use Rattle.reactor_state.specs.Tables.{alive_count, armed_of, first_armed_deadline};
ghost use Rattle.reactor_state.specs.State.{Shows, HasPlaces, KeepsPlaces, Tells, IsPlaced, owed};
ghost use Rattle.reactor_state.specs.State.{no_places};

use crate::armed::Armed;
use crate::handles::{find_live, is_alive, is_wanted, next_alive};
use crate::opens::is_busy;
use crate::places::{Pick, Places};
use crate::waiting::Waiting;
use ev_types::{Handle, Kind, NoMemory};
use reactor_summary::{LiveHandle, OpenEvent};
use std::alloc::Global;
use timer_queue::TimerQueue;

/// What a one-thread reactor keeps beside its journal: the live handles, the waiting events, the
/// open events, the armed timers, and numbers. Contracts say of it which summary it stands for
/// (`Shows`), and for how many more of each it has room (`HasPlaces`). Only `reserve` takes memory.
#[derive(Drop)]
pub struct ReactorState<Q> {
    pub(crate) entries: u64,
    pub(crate) moment: u64,
    pub(crate) opened: u64,
    pub(crate) closed: u64,
    pub(crate) scheduled: u64,
    pub(crate) refused: u64,
    pub(crate) ended: bool,
    // How many of the handles are alive.
    pub(crate) alive: usize,
    // In rising order.
    pub(crate) handles: Vec<LiveHandle>,
    pub(crate) waiting: Waiting,
    pub(crate) opens: Vec<OpenEvent>,
    pub(crate) armed: Armed<Q>,
}

impl<Q: TimerQueue> ReactorState<Q> {
    /// That of no entries, over a timer queue that has no timer. It takes no memory.
    pub fn new(alloc: Global, timers: Q) -> Self
        requires { Q.timers timers ≡ [] }
        ensures shows { Shows Q.timers result S.nothing }
        ensures places { HasPlaces Q.spare no_places result }
    {
        ReactorState {
            entries: 0,
            moment: 0,
            opened: 0,
            closed: 0,
            scheduled: 0,
            refused: 0,
            ended: false,
            alive: 0,
            handles: Vec::new(alloc),
            waiting: Waiting::new(alloc),
            opens: Vec::new(alloc),
            armed: Armed::new(alloc, timers),
        }
    }

    /// The timer queue, with the timers that are armed.
    pub fn into_timers(self) -> Q
        ensures { Tells Q.timers self (λ s. map armed_of (Q.timers result) ≡ s.armed) }
    {
        let ReactorState {
            armed,
            handles: _handles,
            waiting: _waiting,
            opens: _opens,
            entries: _,
            moment: _,
            opened: _,
            closed: _,
            scheduled: _,
            refused: _,
            ended: _,
            alive: _,
        } = self;
        let Armed {
            timers,
            owners: _owners,
        } = armed;
        timers
    }

    /// Makes room for so many more. If there is that much it answers Ok; after `NoMemory` it
    /// stands for what it did, with at least the room that it had.
    pub fn reserve(&mut self, more: Places) -> Result<(), NoMemory>
        ensures shows { (s : Summary) → Shows Q.timers self.old s → Shows Q.timers self.new s }
        ensures room { OnOk result (HasPlaces Q.spare more self.new) }
        ensures kept { KeepsPlaces Q.spare self.old self.new }
        ensures at_once { HasPlaces Q.spare more self.old → IsOk result }
        ensures placed { (pick : Pick) → IsPlaced self.old pick → IsPlaced self.new pick }
    {
        self.handles.reserve(more.handles)?;
        self.armed.reserve(more.timers)?;
        self.waiting.reserve(more.timeouts, more.events)?;
        self.opens.reserve(more.opens)?;
        Ok(())
    }

    /// How many entries there are.
    pub fn entries(&self) -> u64
        ensures { Tells Q.timers self.now (λ s. result ≡ s.entries) }
    {
        self.entries
    }

    /// The moment of the last wait, in milliseconds.
    pub fn moment(&self) -> u64
        ensures { Tells Q.timers self.now (λ s. result ≡ s.moment) }
    {
        self.moment
    }

    /// How many handles were opened: the number of the next one.
    pub fn opened(&self) -> u64
        ensures { Tells Q.timers self.now (λ s. result ≡ s.opened) }
    {
        self.opened
    }

    /// How many timers were set: the number of the next one.
    pub fn scheduled(&self) -> u64
        ensures { Tells Q.timers self.now (λ s. result ≡ s.scheduled) }
    {
        self.scheduled
    }

    /// How many handles are live: opened and not closed.
    pub fn live(&self) -> u64
        ensures { Tells Q.timers self.now (λ s. result ≡ R.live s) }
    {
        self.opened.saturating_sub(self.closed)
    }

    /// How many handlers are done with: closed, or not registered.
    pub fn finished(&self) -> u64
        ensures { Tells Q.timers self.now (λ s. result ≡ s.closed + s.refused) }
    {
        self.closed.saturating_add(self.refused)
    }

    /// Whether the reactor was stopped.
    pub fn is_ended(&self) -> bool
        ensures { Tells Q.timers self.now (λ s. result ≡ s.ended) }
    {
        self.ended
    }

    /// How many places of the journal are owed: five for each open event, two for each alive
    /// handle, one for each other live one, and one while the reactor was not stopped. It walks
    /// nothing.
    pub fn owed(&self) -> usize
        ensures { Tells Q.timers self.now (λ s. result ≡ owed s) }
    {
        owed_of(&self.opens, &self.handles, self.alive, self.ended)
    }

    /// How many handles are alive.
    pub fn alive_count(&self) -> usize
        ensures { Tells Q.timers self.now (λ s. result ≡ alive_count s.handles) }
    {
        self.alive
    }

    /// How many events are open.
    pub fn open_count(&self) -> usize
        ensures { Tells Q.timers self.now (λ s. result ≡ length s.opens) }
    {
        self.opens.len()
    }

    /// The handle, if it is live.
    pub fn live_handle(&self, handle: Handle) -> Option<LiveHandle>
        ensures { Tells Q.timers self.now (λ s. result
            ≡ find (λ h. h.handle.0 == handle.0) s.handles) }
    {
        find_live(&self.handles, handle)
    }

    /// Whether the handle is alive.
    pub fn is_alive(&self, handle: Handle) -> bool
        ensures { Tells Q.timers self.now (λ s. result ≡ S.is_alive s handle.0) }
    {
        is_alive(&self.handles, handle)
    }

    /// Whether an event of the handle is open.
    pub fn is_busy(&self, handle: Handle) -> bool
        ensures { Tells Q.timers self.now (λ s. result ≡ S.is_busy s handle.0) }
    {
        is_busy(&self.opens, handle)
    }

    /// Whether the handle is alive and wants reports of the kind.
    pub fn is_wanted(&self, handle: Handle, kind: Kind) -> bool
        ensures { Tells Q.timers self.now (λ s. result ≡ S.is_wanted s handle.0 kind) }
    {
        is_wanted(&self.handles, handle, kind)
    }

    /// The first alive handle that is not below this one, for a walk in rising order.
    pub fn next_alive(&self, from: Handle) -> Option<Handle>
        ensures { Tells Q.timers self.now (λ s. result
            ≡ option_map (λ h. h.handle) (find (λ h. nat_le from.0 h.handle.0 && h.alive)
            s.handles)) }
    {
        next_alive(&self.handles, from)
    }

    /// How many timers are armed.
    pub fn armed_count(&self) -> usize
        ensures { Tells Q.timers self.now (λ s. result ≡ length s.armed) }
    {
        self.armed.len()
    }

    /// The handle of the timer, if it is armed.
    pub fn armed_handle(&self, timer: u64) -> Option<Handle>
        ensures { Tells Q.timers self.now (λ s. result
            ≡ option_map (λ a. a.handle) (S.armed_timer s timer)) }
    {
        self.armed.handle_of(timer)
    }

    /// The handle of the first timeout of the timer that waits. It may walk all timeouts that wait.
    pub fn timeout_handle(&self, timer: u64) -> Option<Handle>
        ensures { Tells Q.timers self.now (λ s. result
            ≡ option_map (λ w. w.handle) (find (λ w. P.is_timeout_of timer w.upcall) s.waiting)) }
    {
        self.waiting.timeout_handle(timer)
    }

    /// How many milliseconds are left from the moment to the first deadline, 0 if it is reached;
    /// `None` if no timer is armed.
    pub fn time_to_deadline(&self) -> Option<u64>
        ensures { Tells Q.timers self.now (λ s. result
            ≡ option_map (λ d. d - s.moment) (first_armed_deadline s.armed)) }
    {
        match self.armed.earliest() {
            Some(deadline) => Some(deadline.saturating_sub(self.moment)),
            None => None,
        }
    }

    /// The event to be started next: the first of the first class that has an event of a free
    /// handle. It goes past those events alone whose handle is busy or suspended.
    pub fn find_pick(&self) -> Option<Pick>
        ensures pick { Tells Q.timers self.now (λ s. option_map (λ p. p.event) result ≡ S.pick s) }
        ensures placed { Tells Q.timers self.now (λ s. IfSome result (λ p. IsPlaced self.now p)) }
    {
        self.waiting.find_pick(&self.handles, &self.opens)
    }
}

// Five for each open event, one for each handle and one more for each alive one, and one if it
// was not stopped.
fn owed_of(opens: &[OpenEvent], handles: &[LiveHandle], alive: usize, ended: bool) -> usize
    ensures { alive ≤ length handles.now → result
        ≡ 5 * length opens.now + (alive + length handles.now) + (if ended then 0 else 1) }
{
    let last = if ended { 0 } else { 1 };
    (5 * opens.len() + handles.len() + last).saturating_add(alive)
}

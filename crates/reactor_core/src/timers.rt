//! Timers that are set for event handlers, and taken away.
ghost use Rattle.std.specs.Prelude.{◌≡◌, ◌<◌, ◌≤◌, ◌+◌, ◌-◌, ◌||◌, IfOk, OnOk, OnErr};
ghost use Rattle.reactor_model.specs.reactor_journal.specs.declared.entry.Entry.{Entry};
ghost use Rattle.reactor_core.specs.Rest.{LeavesRest};
ghost use Rattle.reactor_core.specs.Refusals.{LeavesLive, LeavesTimer};
ghost use Rattle.reactor_core.specs.Stands.{IsStanding, StandsAsBefore};
ghost use Rattle.reactor_core.specs.Requests.{GoesOnBy, WhereStanding, IsLiveAnswer};
ghost use Rattle.reactor_core.specs.Timers.{is_pending, IsCancelAnswer};

use crate::append::append;
use crate::means::Means;
use crate::requests::NO_PLACES;
use crate::{Core, LiveRefused};
use ev_base::{Handle, Net};
use reactor_model::{Entry, EventHandler, Volumes, Watch};
use reactor_state::Places;
use timer_queue::TimerQueue;

/// Why a timer was not cancelled.
#[derive(Clone, Copy, PartialEq, Eq, Debug)]
pub enum CancelRefused {
    /// The timer is not armed, and no event of it waits to be started.
    NotArmed,
    /// There was no memory for the entry.
    NoMemory,
}

/// The places of one timer.
const TIMER_PLACES: Places = Places {
    handles: 0,
    timers: 1,
    timeouts: 0,
    events: 0,
    opens: 0,
};

impl<
    H: EventHandler,
    M: Net<End = H::End>,
    Q: TimerQueue,
    W: Watch<H::Note>,
    V: Volumes<H::Note>,
> Core<H, M, Q, W, V> {
    /// Sets a timer for the handler of an alive handle (ACE's `schedule_timer`), and gives its
    /// number: the number of timers that were set before. It comes due after `delay` milliseconds
    /// from the moment of the last wait, and then every `every` milliseconds, or once if that is
    /// 0. The journal has one more entry, `Scheduled`. `NotLive` comes exactly if the handle is
    /// not alive; after a refusal nothing has changed but, with `NoMemory`, the room.
    pub fn schedule(&mut self, handle: Handle, delay: u64, every: u64) -> Result<u64, LiveRefused>
        requires stands { IsStanding ⟦<Self as Means>⟧.m self.old }
        requires some { 1 ≤ delay }
        requires within { delay ≤ 4294967295 }
        requires period { every ≤ 4294967295 }
        ensures ok { IfOk result (λ timer. GoesOnBy ⟦<Self as Means>⟧.m self.old
            (λ s. Entry.Scheduled timer handle (s.moment + delay) every) self.new) }
        ensures err { OnErr result (StandsAsBefore ⟦<Self as Means>⟧.m self.old self.new) }
        ensures refused { LeavesLive ⟦<Self as Means>⟧.m self.old result self.new }
        ensures cause { WhereStanding ⟦<Self as Means>⟧.m self.old
            (λ s. IsLiveAnswer s handle.0 result) }
        ensures rest { LeavesRest ⟦<Self as Means>⟧.m self.old self.new }
    {
        if !self.state.is_alive(handle) {
            return Err(LiveRefused::NotLive);
        }
        match self.make_room(1, TIMER_PLACES) {
            Ok(()) => {}
            Err(_) => return Err(LiveRefused::NoMemory),
        }
        let first = self.state.moment() + delay;
        let timer = self.state.schedule(handle, first, every);
        append(
            &mut self.journal,
            &mut self.watch,
            Entry::Scheduled {
                timer,
                handle,
                first,
                every,
            },
        );
        Ok(timer)
    }

    /// Takes a timer away, and the event of it that waits to be started (ACE's `cancel_timer`). The
    /// journal has one more entry, `Cancelled`. `NotArmed` comes exactly if the timer is not
    /// armed and no event of it waits; after a refusal nothing has changed but, with `NoMemory`,
    /// the room.
    pub fn cancel(&mut self, timer: u64) -> Result<(), CancelRefused>
        requires stands { IsStanding ⟦<Self as Means>⟧.m self.old }
        ensures ok { OnOk result (GoesOnBy ⟦<Self as Means>⟧.m self.old
            (λ s. Entry.Cancelled timer) self.new) }
        ensures err { OnErr result (StandsAsBefore ⟦<Self as Means>⟧.m self.old self.new) }
        ensures refused { LeavesTimer ⟦<Self as Means>⟧.m self.old result self.new }
        ensures cause { WhereStanding ⟦<Self as Means>⟧.m self.old
            (λ s. IsCancelAnswer s timer result) }
        ensures rest { LeavesRest ⟦<Self as Means>⟧.m self.old self.new }
    {
        if !self.is_pending(timer) {
            return Err(CancelRefused::NotArmed);
        }
        match self.make_room(1, NO_PLACES) {
            Ok(()) => {}
            Err(_) => return Err(CancelRefused::NoMemory),
        }
        self.state.cancel(timer);
        append(
            &mut self.journal,
            &mut self.watch,
            Entry::Cancelled { timer },
        );
        Ok(())
    }

    /// Whether a timer is armed, or an event of it waits to be started.
    fn is_pending(&self, timer: u64) -> bool
        ensures { WhereStanding ⟦<Self as Means>⟧.m self.now (λ s. result ≡ is_pending s timer) }
    {
        self.state.armed_handle(timer).is_some() || self.state.timeout_handle(timer).is_some()
    }
}

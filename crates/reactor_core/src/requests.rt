//! What a user asks of a handle: to suspend it, to resume it, and to change its mask.
ghost use Rattle.std.specs.Prelude.{◌≡◌, ◌<◌, OnOk, OnErr, true, false};
ghost use Rattle.reactor_model.specs.reactor_journal.specs.declared.entry.Entry.{Entry};
ghost use Rattle.reactor_core.specs.Rest.{LeavesRest};
ghost use Rattle.reactor_core.specs.Refusals.{LeavesState, LeavesLive};
ghost use Rattle.reactor_core.specs.Stands.{IsStanding, StandsAsBefore};
ghost use Rattle.reactor_core.specs.Requests.{GoesOnBy, WhereStanding, suspension, IsStateAnswer};
ghost use Rattle.reactor_core.specs.Requests.{IsLiveAnswer};

use crate::Core;
use crate::append::append;
use crate::means::Means;
use ev_base::{Handle, Mask, Net};
use reactor_model::{Entry, EventHandler, Volumes, Watch};
use reactor_state::Places;
use timer_queue::TimerQueue;

/// Why a handle was not suspended or resumed.
#[derive(Clone, Copy, PartialEq, Eq, Debug)]
pub enum StateRefused {
    /// The handle is not alive.
    NotLive,
    /// It is suspended, or not suspended, already.
    Same,
    /// There was no memory for the entry.
    NoMemory,
}

/// Why something that is for alive handles was not done.
#[derive(Clone, Copy, PartialEq, Eq, Debug)]
pub enum LiveRefused {
    /// The handle is not alive.
    NotLive,
    /// There was no memory for it.
    NoMemory,
}

/// No place of any kind.
pub(crate) const NO_PLACES: Places = Places {
    handles: 0,
    timers: 0,
    timeouts: 0,
    events: 0,
    opens: 0,
};

impl<
    H: EventHandler,
    M: Net<End = H::End>,
    Q: TimerQueue,
    W: Watch<H::Note>,
    V: Volumes<H::Note>,
> Core<H, M, Q, W, V> {
    /// Suspends a handle: from now on none of its events is started, while reports and timeouts of
    /// it still wait (ACE's `suspend_handler`). The journal has one more entry, `Suspended`.
    /// `NotLive` comes exactly if the handle is not alive, and `Same` exactly if it is alive
    /// and suspended already; after a refusal nothing has changed but, with `NoMemory`, the room.
    pub fn suspend(&mut self, handle: Handle) -> Result<(), StateRefused>
        requires stands { IsStanding ⟦<Self as Means>⟧.m self.old }
        ensures ok { OnOk result (GoesOnBy ⟦<Self as Means>⟧.m self.old
            (λ s. Entry.Suspended handle) self.new) }
        ensures err { OnErr result (StandsAsBefore ⟦<Self as Means>⟧.m self.old self.new) }
        ensures refused { LeavesState ⟦<Self as Means>⟧.m self.old result self.new }
        ensures cause { WhereStanding ⟦<Self as Means>⟧.m self.old
            (λ s. IsStateAnswer s handle.0 true result) }
        ensures rest { LeavesRest ⟦<Self as Means>⟧.m self.old self.new }
    {
        match self.suspension(handle) {
            None => return Err(StateRefused::NotLive),
            Some(true) => return Err(StateRefused::Same),
            Some(false) => {}
        }
        match self.make_room(1, NO_PLACES) {
            Ok(()) => {}
            Err(_) => return Err(StateRefused::NoMemory),
        }
        self.state.suspend(handle);
        append(
            &mut self.journal,
            &mut self.watch,
            Entry::Suspended { handle },
        );
        Ok(())
    }

    /// Ends the suspension of a handle (ACE's `resume_handler`): what waited for it may be started
    /// again. The journal has one more entry, `Resumed`. `NotLive` comes exactly if the handle
    /// is not alive, and `Same` exactly if it is alive and not suspended; after a refusal
    /// nothing has changed but, with `NoMemory`, the room.
    pub fn resume(&mut self, handle: Handle) -> Result<(), StateRefused>
        requires stands { IsStanding ⟦<Self as Means>⟧.m self.old }
        ensures ok { OnOk result (GoesOnBy ⟦<Self as Means>⟧.m self.old
            (λ s. Entry.Resumed handle) self.new) }
        ensures err { OnErr result (StandsAsBefore ⟦<Self as Means>⟧.m self.old self.new) }
        ensures refused { LeavesState ⟦<Self as Means>⟧.m self.old result self.new }
        ensures cause { WhereStanding ⟦<Self as Means>⟧.m self.old
            (λ s. IsStateAnswer s handle.0 false result) }
        ensures rest { LeavesRest ⟦<Self as Means>⟧.m self.old self.new }
    {
        match self.suspension(handle) {
            None => return Err(StateRefused::NotLive),
            Some(false) => return Err(StateRefused::Same),
            Some(true) => {}
        }
        match self.make_room(1, NO_PLACES) {
            Ok(()) => {}
            Err(_) => return Err(StateRefused::NoMemory),
        }
        self.state.resume(handle);
        append(
            &mut self.journal,
            &mut self.watch,
            Entry::Resumed { handle },
        );
        Ok(())
    }

    /// Whether an alive handle is suspended, or None if the handle is not alive.
    fn suspension(&self, handle: Handle) -> Option<bool>
        ensures { WhereStanding ⟦<Self as Means>⟧.m self.now (λ s. result ≡ suspension s handle.0) }
    {
        let Some(live) = self.state.live_handle(handle) else {
            return None;
        };
        if live.alive {
            Some(live.suspended)
        } else {
            None
        }
    }

    /// Changes which reports an alive handle wants (ACE's `mask_ops`); the net is told the new
    /// mask, and reports that wait and are of a kind that it lacks are dropped. The journal has one
    /// more entry, `Masked`. `NotLive` comes exactly if the handle is not alive; after a refusal
    /// nothing has changed but, with `NoMemory`, the room.
    pub fn set_mask(&mut self, handle: Handle, mask: Mask) -> Result<(), LiveRefused>
        requires stands { IsStanding ⟦<Self as Means>⟧.m self.old }
        ensures ok { OnOk result (GoesOnBy ⟦<Self as Means>⟧.m self.old
            (λ s. Entry.Masked handle mask) self.new) }
        ensures err { OnErr result (StandsAsBefore ⟦<Self as Means>⟧.m self.old self.new) }
        ensures refused { LeavesLive ⟦<Self as Means>⟧.m self.old result self.new }
        ensures cause { WhereStanding ⟦<Self as Means>⟧.m self.old
            (λ s. IsLiveAnswer s handle.0 result) }
        ensures rest { LeavesRest ⟦<Self as Means>⟧.m self.old self.new }
    {
        if !self.state.is_alive(handle) {
            return Err(LiveRefused::NotLive);
        }
        match self.make_room(1, NO_PLACES) {
            Ok(()) => {}
            Err(_) => return Err(LiveRefused::NoMemory),
        }
        self.net.set_mask(handle, mask);
        self.state.set_mask(handle, mask);
        append(
            &mut self.journal,
            &mut self.watch,
            Entry::Masked { handle, mask },
        );
        Ok(())
    }
}

//! What the entries on the mask of a handle and its suspension change of the state.

ghost use Rattle.std.specs.Prelude.{◌≡◌};
ghost use Rattle.reactor_summary.specs.reactor_journal.specs.declared.entry.Entry.{Entry};
ghost use Rattle.reactor_state.specs.State.{after, CanStep, TakesTo, KeepsPlaces, HasNumber};

use crate::handles::{set_mask, set_suspended};
use crate::state::ReactorState;
use ev_types::{Handle, Mask};
use timer_queue::TimerQueue;

impl<Q: TimerQueue> ReactorState<Q> {
    /// The mask of the handle changes: `Masked`. Its reports that wait and that the mask lacks are
    /// dropped. It walks the queues of those reports alone.
    pub fn set_mask(&mut self, handle: Handle, mask: Mask)
        requires { CanStep Q.timers self.old HasNumber }
        ensures steps { TakesTo Q.timers self.old HasNumber
            (λ s. after s (Entry.Masked handle mask)) self.new }
        ensures places { KeepsPlaces Q.spare self.old self.new }
    {
        set_mask(&mut self.handles, handle, mask);
        self.waiting.drop_masked(handle, mask);
        self.entries += 1;
    }

    /// The handle is suspended: `Suspended`.
    pub fn suspend(&mut self, handle: Handle)
        requires { CanStep Q.timers self.old HasNumber }
        ensures steps { TakesTo Q.timers self.old HasNumber (λ s. after s (Entry.Suspended handle))
            self.new }
        ensures places { KeepsPlaces Q.spare self.old self.new }
    {
        set_suspended(&mut self.handles, handle, true);
        self.entries += 1;
    }

    /// The handle is suspended no longer: `Resumed`.
    pub fn resume(&mut self, handle: Handle)
        requires { CanStep Q.timers self.old HasNumber }
        ensures steps { TakesTo Q.timers self.old HasNumber (λ s. after s (Entry.Resumed handle))
            self.new }
        ensures places { KeepsPlaces Q.spare self.old self.new }
    {
        set_suspended(&mut self.handles, handle, false);
        self.entries += 1;
    }
}

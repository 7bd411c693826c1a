//! What callers ask of a desk: the calls of its reactor that no turn makes.
ghost use Rattle.std.specs.Prelude.{◌≡◌, ◌≤◌, ◌+◌, ◌↔◌, false, true, IfOk, OnOk, OnErr, IsErr};
ghost use Rattle.reactor_model.specs.reactor_journal.specs.declared.entry.Entry.{Entry};
ghost use Rattle.reactor_model.specs.reactor_journal.specs.Past.{past_of};
ghost use Rattle.reactor_core.specs.reactor_summary.specs.Summary.{is_alive};
ghost use Rattle.reactor_model.specs.Turns.{IsTimer};
ghost use Rattle.reactor_core.specs.Refusals.{LeavesLive, LeavesOffer, LeavesState, LeavesTimer};
ghost use Rattle.reactor_core.specs.Registering.{IsOffered};
ghost use Rattle.reactor_core.specs.Requests.{IsLiveAnswer, IsStateAnswer};
ghost use Rattle.reactor_core.specs.Timers.{IsCancelAnswer};
ghost use Rattle.reactor_desk.specs.Asking.{DeskAsBefore, DeskGoesOnBy, DeskRegisters, DeskRemoves};
ghost use Rattle.reactor_desk.specs.Asking.{DeskStops, IsAskable, MayAsk, WhereAsked, WhereDesk};
ghost use Rattle.reactor_desk.specs.Desks.{DeskWith, FromDesk, KeepsMarks, core_of};

use crate::Desk;
use ev_base::{Handle, Mask, Net};
use reactor_core::{CancelRefused, LiveRefused, Means, NotLive, RegisterRefused, StateRefused};
use reactor_model::{EventHandler, Volumes, Watch};
use timer_queue::TimerQueue;

impl<
    H: EventHandler,
    M: Net<End = H::End>,
    Q: TimerQueue,
    W: Watch<H::Note>,
    V: Volumes<H::Note>,
> Desk<H, M, Q, W, V> {
    /// Registers a handler (`Core::register`), with the reports that it wants and, if one is
    /// given, a timer: its first delay, from 1 to 4,294,967,295 milliseconds, and its period, 0 for
    /// once. With each refusal the handler that was offered comes back, and all is as it was, but
    /// that after `NoMemory` there may be more room. `Stopped` comes exactly if the reactor was
    /// stopped; `Full` exactly if it was not, and as many handlers are live as may be or
    /// 4,294,967,295 were registered; `NetFailed` only if the net failed to attach its end,
    /// once.
    pub fn register(
        &mut self,
        handler: H,
        mask: Mask,
        timer: Option<(u64, u64)>,
    ) -> Result<Handle, (H, RegisterRefused)>
        requires stands { DeskWith ⟦<Self as Means>⟧.m
            (λ q h. MayAsk q × IsOffered H.means q.run (past_of h) handler) self.old }
        requires timer { IsTimer timer }
        ensures gives { WhereAsked ⟦<Self as Means>⟧.m self.old (λ q F h.
            IsOffered H.means q.run (past_of h) handler
            → DeskRegisters ⟦<Self as Means>⟧.m q F h mask timer self.old result self.new) }
        ensures refused { LeavesOffer ⟦<Self as Means>⟧.m handler (core_of self.old) result
            (core_of self.new) }
        ensures marks { KeepsMarks ⟦<Self as Means>⟧.m self.old self.new }
    {
        self.core.register(handler, mask, timer)
    }

    /// Removes a handler (`Core::remove`); if it is not out for an upcall it is closed at once.
    /// It takes no memory. `NotLive` comes exactly if the handle is not alive, and leaves all as
    /// it was.
    pub fn remove(&mut self, handle: Handle) -> Result<(), NotLive>
        requires stands { IsAskable ⟦<Self as Means>⟧.m self.old }
        ensures not_live { WhereDesk ⟦<Self as Means>⟧.m self.old
            (λ s. IsErr result ↔ (is_alive s handle.0 ≡ false)) }
        ensures ok { OnOk result (WhereAsked ⟦<Self as Means>⟧.m self.old
            (λ q F h. DeskRemoves ⟦<Self as Means>⟧.m q F h handle self.new)) }
        ensures err { OnErr result (self.new ≡ self.old) }
        ensures marks { KeepsMarks ⟦<Self as Means>⟧.m self.old self.new }
    {
        self.core.remove(handle)
    }

    /// Suspends a handle (`Core::suspend`): from now on none of its events is started. `NotLive`
    /// comes exactly if the handle is not alive, and `Same` exactly if it is alive and
    /// suspended already; after a refusal nothing has changed but, with `NoMemory`, the room.
    pub fn suspend(&mut self, handle: Handle) -> Result<(), StateRefused>
        requires stands { IsAskable ⟦<Self as Means>⟧.m self.old }
        ensures ok { OnOk result (DeskGoesOnBy ⟦<Self as Means>⟧.m self.old
            (λ s. Entry.Suspended handle) self.new) }
        ensures err { OnErr result (DeskAsBefore ⟦<Self as Means>⟧.m self.old self.new) }
        ensures refused { LeavesState ⟦<Self as Means>⟧.m (core_of self.old) result
            (core_of self.new) }
        ensures cause { WhereDesk ⟦<Self as Means>⟧.m self.old
            (λ s. IsStateAnswer s handle.0 true result) }
        ensures marks { KeepsMarks ⟦<Self as Means>⟧.m self.old self.new }
    {
        self.core.suspend(handle)
    }

    /// Ends the suspension of a handle (`Core::resume`). `NotLive` comes exactly if the handle
    /// is not alive, and `Same` exactly if it is alive and not suspended; after a refusal
    /// nothing has changed but, with `NoMemory`, the room.
    pub fn resume(&mut self, handle: Handle) -> Result<(), StateRefused>
        requires stands { IsAskable ⟦<Self as Means>⟧.m self.old }
        ensures ok { OnOk result (DeskGoesOnBy ⟦<Self as Means>⟧.m self.old
            (λ s. Entry.Resumed handle) self.new) }
        ensures err { OnErr result (DeskAsBefore ⟦<Self as Means>⟧.m self.old self.new) }
        ensures refused { LeavesState ⟦<Self as Means>⟧.m (core_of self.old) result
            (core_of self.new) }
        ensures cause { WhereDesk ⟦<Self as Means>⟧.m self.old
            (λ s. IsStateAnswer s handle.0 false result) }
        ensures marks { KeepsMarks ⟦<Self as Means>⟧.m self.old self.new }
    {
        self.core.resume(handle)
    }

    /// Sets a timer for the handler of an alive handle (`Core::schedule`), and gives its number. It
    /// comes due after `delay` milliseconds, from 1 to 4,294,967,295, and then every `every`
    /// milliseconds, or once if that is 0. `NotLive` comes exactly if the handle is not
    /// alive; after a refusal nothing has changed but, with `NoMemory`, the room.
    pub fn schedule(&mut self, handle: Handle, delay: u64, every: u64) -> Result<u64, LiveRefused>
        requires stands { IsAskable ⟦<Self as Means>⟧.m self.old }
        requires some { 1 ≤ delay }
        requires within { delay ≤ 4294967295 }
        requires period { every ≤ 4294967295 }
        ensures ok { IfOk result (λ timer. DeskGoesOnBy ⟦<Self as Means>⟧.m self.old
            (λ s. Entry.Scheduled timer handle (s.moment + delay) every) self.new) }
        ensures err { OnErr result (DeskAsBefore ⟦<Self as Means>⟧.m self.old self.new) }
        ensures refused { LeavesLive ⟦<Self as Means>⟧.m (core_of self.old) result
            (core_of self.new) }
        ensures cause { WhereDesk ⟦<Self as Means>⟧.m self.old
            (λ s. IsLiveAnswer s handle.0 result) }
        ensures marks { KeepsMarks ⟦<Self as Means>⟧.m self.old self.new }
    {
        self.core.schedule(handle, delay, every)
    }

    /// Takes a timer away, and the event of it that waits to be started (`Core::cancel`).
    /// `NotArmed` comes exactly if the timer is not armed and no event of it waits; after a
    /// refusal nothing has changed but, with `NoMemory`, the room.
    pub fn cancel(&mut self, timer: u64) -> Result<(), CancelRefused>
        requires stands { IsAskable ⟦<Self as Means>⟧.m self.old }
        ensures ok { OnOk result (DeskGoesOnBy ⟦<Self as Means>⟧.m self.old
            (λ s. Entry.Cancelled timer) self.new) }
        ensures err { OnErr result (DeskAsBefore ⟦<Self as Means>⟧.m self.old self.new) }
        ensures refused { LeavesTimer ⟦<Self as Means>⟧.m (core_of self.old) result
            (core_of self.new) }
        ensures cause { WhereDesk ⟦<Self as Means>⟧.m self.old
            (λ s. IsCancelAnswer s timer result) }
        ensures marks { KeepsMarks ⟦<Self as Means>⟧.m self.old self.new }
    {
        self.core.cancel(timer)
    }

    /// Stops the reactor (`Core::stop`): each handler whose handle is alive is removed, in rising
    /// order. It takes no memory, and does nothing if the reactor was stopped before.
    pub fn stop(&mut self)
        requires stands { IsAskable ⟦<Self as Means>⟧.m self.old }
        ensures stops { WhereAsked ⟦<Self as Means>⟧.m self.old
            (λ q F h. DeskStops ⟦<Self as Means>⟧.m q F h self.new) }
        ensures marks { KeepsMarks ⟦<Self as Means>⟧.m self.old self.new }
    {
        self.core.stop();
    }
}

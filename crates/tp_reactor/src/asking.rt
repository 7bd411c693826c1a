//! What a worker asks of the reactor that no turn asks.
ghost use Rattle.std.specs.Prelude.{◌≤◌, ◌+◌, true, false};
ghost use Rattle.reactor_model.specs.reactor_journal.specs.declared.entry.Entry.{Entry};
ghost use Rattle.reactor_model.specs.Turns.{IsTimer};
ghost use Rattle.reactor_core.specs.Refusals.{LeavesLive, LeavesState, LeavesTimer};
ghost use Rattle.reactor_core.specs.Requests.{IsLiveAnswer, IsStateAnswer};
ghost use Rattle.reactor_core.specs.Timers.{IsCancelAnswer};
ghost use Rattle.tp_reactor.specs.Asked.{Asks, IsOfferedAnywhere, RegistersAt, RemovesHandle};
ghost use Rattle.tp_reactor.specs.Asked.{StopsReactor};
ghost use Rattle.tp_reactor.specs.Words.{known_by};
ghost use Rattle.tp_reactor.specs.Workers.{HasAskedOf, MayAskOf};

use crate::{Reactor, Worker};
use ev_base::{Handle, Mask, Net, Wake};
use reactor_core::{CancelRefused, LiveRefused, Means, NotLive, RegisterRefused, StateRefused};
use reactor_model::{EventHandler, Volumes, Watch};
use std::sync::Wait;
use timer_queue::TimerQueue;

impl<
    H: EventHandler,
    M: Net<End = H::End>,
    Q: TimerQueue,
    W: Watch<H::Note>,
    V: Volumes<H::Note>,
    K: Wake,
> Reactor<H, M, Q, W, V, K> {
    /// Suspends a handle (`Core::suspend`): from now on none of its events is started. Its refusals
    /// are those of that call.
    pub fn suspend<R: Wait>(
        &self,
        rt: &R,
        worker: &mut Worker<H, M, Q, W, V>,
        handle: Handle,
    ) -> Result<(), StateRefused>
        requires may { MayAskOf self.now worker.old }
        ensures asked { HasAskedOf ⟦<Self as Means>⟧.m self.now worker.old
            (Asks (λ s done. Entry.Suspended handle) result (λ s. IsStateAnswer s handle.0 true)
            (LeavesState ⟦<Self as Means>⟧.m)) worker.new }
    {
        let mut held = self.take(rt, worker);
        let answer = held.value().suspend(handle);
        self.token.put(&mut worker.pass, held);
        answer
    }

    /// Ends the suspension of a handle (`Core::resume`). Its refusals are those of that call.
    pub fn resume<R: Wait>(
        &self,
        rt: &R,
        worker: &mut Worker<H, M, Q, W, V>,
        handle: Handle,
    ) -> Result<(), StateRefused>
        requires may { MayAskOf self.now worker.old }
        ensures asked { HasAskedOf ⟦<Self as Means>⟧.m self.now worker.old
            (Asks (λ s done. Entry.Resumed handle) result (λ s. IsStateAnswer s handle.0 false)
            (LeavesState ⟦<Self as Means>⟧.m)) worker.new }
    {
        let mut held = self.take(rt, worker);
        let answer = held.value().resume(handle);
        self.token.put(&mut worker.pass, held);
        answer
    }

    /// Sets a timer for the handler of an alive handle (`Core::schedule`), and gives its number:
    /// its first delay, from 1 to 4,294,967,295 milliseconds, and its period, 0 for once. Its
    /// refusals are those of that call.
    pub fn schedule<R: Wait>(
        &self,
        rt: &R,
        worker: &mut Worker<H, M, Q, W, V>,
        handle: Handle,
        delay: u64,
        every: u64,
    ) -> Result<u64, LiveRefused>
        requires may { MayAskOf self.now worker.old }
        requires some { 1 ≤ delay }
        requires within { delay ≤ 4294967295 }
        requires period { every ≤ 4294967295 }
        ensures asked { HasAskedOf ⟦<Self as Means>⟧.m self.now worker.old
            (Asks (λ s timer. Entry.Scheduled timer handle (s.moment + delay) every) result
            (λ s. IsLiveAnswer s handle.0) (LeavesLive ⟦<Self as Means>⟧.m)) worker.new }
    {
        let mut held = self.take(rt, worker);
        let answer = held.value().schedule(handle, delay, every);
        self.token.put(&mut worker.pass, held);
        answer
    }

    /// Takes a timer away, and the event of it that waits to be started (`Core::cancel`). Its
    /// refusals are those of that call.
    pub fn cancel<R: Wait>(
        &self,
        rt: &R,
        worker: &mut Worker<H, M, Q, W, V>,
        timer: u64,
    ) -> Result<(), CancelRefused>
        requires may { MayAskOf self.now worker.old }
        ensures asked { HasAskedOf ⟦<Self as Means>⟧.m self.now worker.old
            (Asks (λ s done. Entry.Cancelled timer) result (λ s. IsCancelAnswer s timer)
            (LeavesTimer ⟦<Self as Means>⟧.m)) worker.new }
    {
        let mut held = self.take(rt, worker);
        let answer = held.value().cancel(timer);
        self.token.put(&mut worker.pass, held);
        answer
    }

    /// Registers a handler (`Core::register`), with the reports that it wants and, if one is
    /// given, a timer: its first delay, from 1 to 4,294,967,295 milliseconds, and its period, 0 for
    /// once. With each refusal, which are those of that call, it comes back.
    pub fn register<R: Wait>(
        &self,
        rt: &R,
        worker: &mut Worker<H, M, Q, W, V>,
        handler: H,
        mask: Mask,
        timer: Option<(u64, u64)>,
    ) -> Result<Handle, (H, RegisterRefused)>
        requires may { MayAskOf self.now worker.old }
        requires offered { IsOfferedAnywhere H.means (known_by worker.old).terms.run handler }
        requires timer { IsTimer timer }
        ensures asked { HasAskedOf ⟦<Self as Means>⟧.m self.now worker.old
            (RegistersAt ⟦<Self as Means>⟧.m (known_by worker.old).terms.run handler mask timer
            result) worker.new }
    {
        let mut held = self.take(rt, worker);
        let answer = held.value().register(handler, mask, timer);
        self.token.put(&mut worker.pass, held);
        answer
    }

    /// Removes a handler (`Core::remove`). It takes no memory. `NotLive` comes exactly if the
    /// handle is not alive.
    pub fn remove<R: Wait>(
        &self,
        rt: &R,
        worker: &mut Worker<H, M, Q, W, V>,
        handle: Handle,
    ) -> Result<(), NotLive>
        requires may { MayAskOf self.now worker.old }
        ensures asked { HasAskedOf ⟦<Self as Means>⟧.m self.now worker.old
            (RemovesHandle handle result) worker.new }
    {
        let mut held = self.take(rt, worker);
        let answer = held.value().remove(handle);
        self.token.put(&mut worker.pass, held);
        answer
    }

    /// Stops the reactor (`Core::stop`). It takes no memory.
    pub fn stop<R: Wait>(&self, rt: &R, worker: &mut Worker<H, M, Q, W, V>)
        requires may { MayAskOf self.now worker.old }
        ensures asked { HasAskedOf ⟦<Self as Means>⟧.m self.now worker.old StopsReactor
            worker.new }
    {
        let mut held = self.take(rt, worker);
        held.value().stop();
        self.token.put(&mut worker.pass, held);
    }
}

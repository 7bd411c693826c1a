//! The removal of a handler, and the end.
ghost use Rattle.std.specs.Prelude.{◌≡◌, [], true, false, OnOk, OnErr, IsErr, ◌↔◌};
ghost use Rattle.reactor_model.specs.reactor_journal.specs.Past.{past_of};
ghost use Rattle.reactor_summary.specs.Summary.{summary, is_alive};
ghost use Rattle.reactor_core.specs.Rest.{LeavesRest};
ghost use Rattle.reactor_core.specs.Stands.{From, FromQuiet, IsStanding, QuietWith};
ghost use Rattle.reactor_core.specs.Removing.{Removes, RemovesQuietly, RemovesFirst, RemovesAll};
ghost use Rattle.reactor_core.specs.Removing.{StopsOnce, alive_handles};

use crate::Core;
use crate::append::append;
use crate::means::Means;
use ev_base::{Handle, Net, Why};
use reactor_model::{Entry, EventHandler, Volumes, Watch};
use timer_queue::TimerQueue;

/// The handle is not alive: it was not opened, or its life has ended.
#[derive(Clone, Copy, PartialEq, Eq, Debug)]
pub struct NotLive;

impl<
    H: EventHandler,
    M: Net<End = H::End>,
    Q: TimerQueue,
    W: Watch<H::Note>,
    V: Volumes<H::Note>,
> Core<H, M, Q, W, V> {
    /// Removes a handler (ACE's `remove_handler`). The journal has `Removed`; if the handler is
    /// not out for an upcall it is closed at once, and `Closed` follows. It takes no memory.
    /// `NotLive` comes exactly if the handle is not alive, and leaves all as it was.
    pub fn remove(&mut self, handle: Handle) -> Result<(), NotLive>
        requires stands { IsStanding ⟦<Self as Means>⟧.m self.old }
        ensures not_live { From ⟦<Self as Means>⟧.m self.old (λ t F h.
            IsErr result ↔ (is_alive (summary (past_of h)) handle.0 ≡ false)) }
        ensures ok { OnOk result (From ⟦<Self as Means>⟧.m self.old
            (λ t F h. Removes ⟦<Self as Means>⟧.m t F h handle self.new)) }
        ensures err { OnErr result (self.new ≡ self.old) }
        ensures rest { LeavesRest ⟦<Self as Means>⟧.m self.old self.new }
    {
        if !self.state.is_alive(handle) {
            return Err(NotLive);
        }
        self.remove_alive(handle);
        Ok(())
    }

    /// Removes the handler of a handle that is alive.
    pub(crate) fn remove_alive(&mut self, handle: Handle)
        requires stands { QuietWith ⟦<Self as Means>⟧.m
            (λ t h. is_alive (summary (past_of h)) handle.0 ≡ true) self.old }
        ensures stands { FromQuiet ⟦<Self as Means>⟧.m self.old (λ t F h.
            is_alive (summary (past_of h)) handle.0 ≡ true
            → RemovesQuietly ⟦<Self as Means>⟧.m t F h handle self.new) }
        ensures rest { LeavesRest ⟦<Self as Means>⟧.m self.old self.new }
    {
        self.state.remove(handle);
        append(
            &mut self.journal,
            &mut self.watch,
            Entry::Removed { handle },
        );
        let Some(handler) = self.repo.take(handle) else {
            return;
        };
        self.close_handler(handle, handler, Why::Removed);
    }

    /// Stops the reactor: the journal has `Ended`, and each handler whose handle is alive is
    /// removed, in rising order. It takes no memory, and does nothing if the reactor was stopped
    /// before.
    pub fn stop(&mut self)
        requires stands { IsStanding ⟦<Self as Means>⟧.m self.old }
        ensures stands { From ⟦<Self as Means>⟧.m self.old (λ t F h.
            StopsOnce ⟦<Self as Means>⟧.m t F h self.new (summary (past_of h)).ended) }
        ensures rest { LeavesRest ⟦<Self as Means>⟧.m self.old self.new }
    {
        if self.state.is_ended() {
            return;
        }
        self.state.end();
        append(&mut self.journal, &mut self.watch, Entry::Ended);
        self.remove_all();
    }

    /// Removes all handlers whose handles are alive.
    fn remove_all(&mut self)
        requires stands { QuietWith ⟦<Self as Means>⟧.m (λ t h. Unit {0}) self.old }
        ensures stands { FromQuiet ⟦<Self as Means>⟧.m self.old
            (λ t F h. RemovesAll ⟦<Self as Means>⟧.m t F h self.new) }
        ensures rest { LeavesRest ⟦<Self as Means>⟧.m self.old self.new }
    {
        for _removed in 0..self.state.alive_count() {
            if !self.remove_first() {
                return;
            }
        }
    }

    /// Removes the first handler whose handle is alive, and tells whether there was one.
    fn remove_first(&mut self) -> bool
        requires stands { QuietWith ⟦<Self as Means>⟧.m (λ t h. Unit {0}) self.old }
        ensures some { result ≡ true → FromQuiet ⟦<Self as Means>⟧.m self.old
            (λ t F h. RemovesFirst ⟦<Self as Means>⟧.m t F h self.new) }
        ensures none { result ≡ false → FromQuiet ⟦<Self as Means>⟧.m self.old
            (λ t F h. alive_handles (summary (past_of h)) ≡ []) }
        ensures same { result ≡ false → self.new ≡ self.old }
        ensures rest { LeavesRest ⟦<Self as Means>⟧.m self.old self.new }
    {
        let Some(handle) = self.state.next_alive(Handle(0)) else {
            return false;
        };
        self.remove_alive(handle);
        true
    }
}

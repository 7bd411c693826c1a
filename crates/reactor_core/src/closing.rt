//! The closing of a handler.
ghost use Rattle.std.specs.Prelude.{◌≤◌, ◌++◌, ◌∷◌, [], None};
ghost use Rattle.reactor_model.specs.reactor_journal.specs.declared.entry.Entry.{Entry};
ghost use Rattle.reactor_core.specs.Rest.{LeavesRest};
ghost use Rattle.reactor_core.specs.Stands.{Somewhere, Each, Tracks, SpendsRoom};
ghost use Rattle.reactor_core.specs.Steps.{MayClose};

use crate::Core;
use crate::append::append;
use crate::means::Means;
use ev_base::{Handle, Net, Why};
use handler_repo::Placed;
use reactor_model::{Entry, EventHandler, Volumes, Watch};
use timer_queue::TimerQueue;

impl<
    H: EventHandler,
    M: Net<End = H::End>,
    Q: TimerQueue,
    W: Watch<H::Note>,
    V: Volumes<H::Note>,
> Core<H, M, Q, W, V> {
    /// Closes the handler in hand, whose handle waits for its close, and retires its end. It takes
    /// no memory.
    pub(crate) fn close_handler(&mut self, handle: Handle, handler: Placed<H>, why: Why)
        requires may { Somewhere (MayClose ⟦<Self as Means>⟧.m handle handler why) self.old }
        requires room { 1 ≤ self.old.journal.spare }
        ensures tracks { Each (MayClose ⟦<Self as Means>⟧.m handle handler why) self.old (λ t F h.
            (note : H.Note)
            × Tracks ⟦<Self as Means>⟧.m t self.new F
            (h ++ Entry.Closed handle note ∷ []) None []) }
        ensures room { SpendsRoom ⟦<Self as Means>⟧.m 1 self.old self.new }
        ensures rest { LeavesRest ⟦<Self as Means>⟧.m self.old self.new }
    {
        let handler = self.repo.drop_out(handle, handler);
        let (end, note) = handler.handle_close(why);
        self.net.retire(handle, end);
        self.state.close::<H::Note>(handle);
        append(
            &mut self.journal,
            &mut self.watch,
            Entry::Closed { handle, note },
        );
    }
}

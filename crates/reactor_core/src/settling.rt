//! The settling of an upcall.
ghost use Rattle.std.specs.Prelude.{◌≡◌, ◌≤◌, ◌+◌, ◌-◌, ◌++◌, ◌∷◌, [], Some, None};
ghost use Rattle.reactor_model.specs.reactor_journal.specs.declared.entry.Entry.{Entry};
ghost use Rattle.reactor_model.specs.reactor_journal.specs.Past.{past_of};
ghost use Rattle.reactor_summary.specs.declared.parts.OpenEvent.{OpenEvent};
ghost use Rattle.reactor_summary.specs.Summary.{summary, open_event};
ghost use Rattle.reactor_state.specs.State.{HasNumber, no_places, HasPlaces};
ghost use Rattle.reactor_state.specs.declared.places.Places.{Places};
ghost use Rattle.reactor_core.specs.Rest.{LeavesRest};
ghost use Rattle.reactor_core.specs.Stands.{From, FromTracks, Somewhere, Each, StandsWith, Tracks};
ghost use Rattle.reactor_core.specs.Stands.{TracksWith, SpendsRoom};
ghost use Rattle.reactor_core.specs.Steps.{MayTakeBack};
ghost use Rattle.reactor_core.specs.Settling.{why_of, IsSettling};
ghost use Rattle.reactor_core.specs.Settles.{TakesBack, SettlesEvent};

use crate::Core;
use crate::append::append;
use crate::means::Means;
use ev_base::{Answer, Handle, Net, Why};
use handler_repo::Placed;
use reactor_model::{Entry, EventHandler, Volumes, Watch};
use reactor_summary::OpenEvent;
use timer_queue::TimerQueue;

/// Why a handler is closed when its upcall is settled: for itself if it was alive until then,
/// and else as it was removed.
fn why_of(alive: bool) -> Why
    ensures { result ≡ why_of alive }
{
    if alive { Why::Own } else { Why::Removed }
}

impl<
    H: EventHandler,
    M: Net<End = H::End>,
    Q: TimerQueue,
    W: Watch<H::Note>,
    V: Volumes<H::Note>,
> Core<H, M, Q, W, V> {
    /// Settles an upcall but for its act: its handler goes home, or is closed if its handle is
    /// not alive any more.
    pub(crate) fn settle_event(
        &mut self,
        settled: OpenEvent,
        answer: Answer,
        note: H::Note,
        handler: Placed<H>,
    )
        requires stands { StandsWith ⟦<Self as Means>⟧.m
            (λ t h. IsSettling H.means t (past_of h) settled answer note handler) self.old }
        ensures settles { From ⟦<Self as Means>⟧.m self.old (λ t F h.
            IsSettling H.means t (past_of h) settled answer note handler
            → SettlesEvent ⟦<Self as Means>⟧.m t F h settled answer note self.new) }
        ensures rest { LeavesRest ⟦<Self as Means>⟧.m self.old self.new }
    {
        let alive = self.state.is_alive(settled.handle);
        self.record_return(settled.event, answer, note);
        self.take_back(settled.handle, handler, why_of(alive));
    }

    /// Appends the `Returned` of an open event.
    fn record_return(&mut self, event: u64, answer: Answer, note: H::Note)
        requires tracks { TracksWith ⟦<Self as Means>⟧.m None []
            (λ t h. HasNumber (summary (past_of h))) self.old }
        requires room { 1 ≤ self.old.journal.spare }
        requires places { HasPlaces Q.spare
            (record no_places { timeouts = 1; events = 1 }) self.old.state }
        ensures tracks { FromTracks ⟦<Self as Means>⟧.m None [] self.old (λ t F h. (o : OpenEvent)
            → open_event (summary (past_of h)) event ≡ Some o → HasNumber (summary (past_of h))
            → Tracks ⟦<Self as Means>⟧.m t self.new F
            (h ++ Entry.Returned event answer note ∷ []) (Some o.handle.0) []) }
        ensures journal { self.new.journal.spare + 1 ≡ self.old.journal.spare }
        ensures places { (p : Places) → HasPlaces Q.spare p self.old.state
            → HasPlaces Q.spare
            (record p { timeouts = p.timeouts - 1; events = p.events - 1 }) self.new.state }
        ensures repo { self.new.repo ≡ self.old.repo }
        ensures net { self.new.net ≡ self.old.net }
        ensures rest { LeavesRest ⟦<Self as Means>⟧.m self.old self.new }
    {
        self.state.settle::<H::Note>(event, answer);
        append(
            &mut self.journal,
            &mut self.watch,
            Entry::Returned {
                event,
                answer,
                note,
            },
        );
    }

    /// The handler in hand goes home if its handle is alive, and is closed else.
    fn take_back(&mut self, handle: Handle, handler: Placed<H>, why: Why)
        requires may { Somewhere (MayTakeBack ⟦<Self as Means>⟧.m handle handler why) self.old }
        requires room { 1 ≤ self.old.journal.spare }
        ensures takes { Each (MayTakeBack ⟦<Self as Means>⟧.m handle handler why) self.old (λ t F h.
            TakesBack ⟦<Self as Means>⟧.m t F h handle self.old self.new) }
        ensures room { SpendsRoom ⟦<Self as Means>⟧.m 1 self.old self.new }
        ensures rest { LeavesRest ⟦<Self as Means>⟧.m self.old self.new }
    {
        if self.state.is_alive(handle) {
            self.repo.give_back(handle, handler);
            return;
        }
        self.close_handler(handle, handler, why);
    }
}

//! Notifications that are posted to event handlers.
ghost use Rattle.std.specs.Prelude.{◌≡◌, ◌<◌, ◌+◌, ◌-◌, ◌++◌, ◌∷◌, [], OnOk, OnErr, false};
ghost use Rattle.reactor_model.specs.reactor_journal.specs.declared.entry.Entry.{Entry};
ghost use Rattle.reactor_model.specs.reactor_journal.specs.Past.{past_of};
ghost use Rattle.reactor_summary.specs.Summary.{summary};
ghost use Rattle.reactor_core.specs.Rest.{LeavesRest};
ghost use Rattle.reactor_core.specs.Refusals.{LeavesPosting};
ghost use Rattle.reactor_core.specs.Views.{net_of};
ghost use Rattle.reactor_core.specs.Stands.{From, Stands, IsStanding, StandsWith, StandsAsBefore};
ghost use Rattle.reactor_core.specs.Stands.{HasRoom, Keeps};
ghost use Rattle.reactor_core.specs.Requests.{GoesOnBy, WhereStanding};
ghost use Rattle.reactor_core.specs.Postings.{posting, post_places, IsPostAnswer};

use crate::Core;
use crate::append::append;
use crate::means::Means;
use ev_base::{Handle, Kind, Net, NoMemory};
use reactor_model::{Entry, EventHandler, Volumes, Watch};
use reactor_state::Places;
use timer_queue::TimerQueue;

/// Why a notification was not taken.
#[derive(Clone, Copy, PartialEq, Eq, Debug)]
pub enum PostRefused {
    /// The reactor was stopped.
    Stopped,
    /// There was no memory for it.
    NoMemory,
}

/// The places of one notification: that of the event that it is.
const POST_PLACES: Places = Places {
    handles: 0,
    timers: 0,
    timeouts: 0,
    events: 1,
    opens: 0,
};

impl<
    H: EventHandler,
    M: Net<End = H::End>,
    Q: TimerQueue,
    W: Watch<H::Note>,
    V: Volumes<H::Note>,
> Core<H, M, Q, W, V> {
    /// Posts a notification to the handler of a handle (ACE's `notify`). `from` is the poster's
    /// number, and `seq` its own number for the notification, from 0. The journal has one more
    /// entry: `Posted` if the handle is alive, and else `Stale`. `Stopped` comes exactly if
    /// the reactor was stopped; after a refusal nothing has changed but, with `NoMemory`, the room.
    pub fn post(
        &mut self,
        handle: Handle,
        kind: Kind,
        from: u64,
        seq: u64,
    ) -> Result<(), PostRefused>
        requires stands { IsStanding ⟦<Self as Means>⟧.m self.old }
        ensures ok { OnOk result (GoesOnBy ⟦<Self as Means>⟧.m self.old
            (λ s. posting s handle kind from seq) self.new) }
        ensures err { OnErr result (StandsAsBefore ⟦<Self as Means>⟧.m self.old self.new) }
        ensures refused { LeavesPosting ⟦<Self as Means>⟧.m self.old result self.new }
        ensures cause { WhereStanding ⟦<Self as Means>⟧.m self.old (λ s. IsPostAnswer s result) }
        ensures rest { LeavesRest ⟦<Self as Means>⟧.m self.old self.new }
    {
        if self.state.is_ended() {
            return Err(PostRefused::Stopped);
        }
        match self.reserve_post() {
            Ok(()) => {}
            Err(_) => return Err(PostRefused::NoMemory),
        }
        self.post_reserved(handle, kind, from, seq);
        Ok(())
    }

    /// Makes room for one notification, beside what is owed. Nothing changes but the room: after
    /// `NoMemory` there is no less of it than before.
    pub fn reserve_post(&mut self) -> Result<(), NoMemory>
        ensures kept { Keeps ⟦<Self as Means>⟧.m self.old self.new }
        ensures stands { StandsAsBefore ⟦<Self as Means>⟧.m self.old self.new }
        ensures room { OnOk result (WhereStanding ⟦<Self as Means>⟧.m self.old
            (λ s. HasRoom ⟦<Self as Means>⟧.m 1 post_places self.new s)) }
        ensures rest { LeavesRest ⟦<Self as Means>⟧.m self.old self.new }
    {
        self.make_room(1, POST_PLACES)
    }

    /// Posts a notification for which there is room, while the reactor was not stopped. It appends
    /// what `post` appends, uses that room, takes no memory and leaves the net alone.
    pub fn post_reserved(&mut self, handle: Handle, kind: Kind, from: u64, seq: u64)
        requires stands { StandsWith ⟦<Self as Means>⟧.m (λ t h.
            HasRoom ⟦<Self as Means>⟧.m 1 post_places self.old (summary (past_of h))
            × ((summary (past_of h)).ended ≡ false)) self.old }
        ensures stands { From ⟦<Self as Means>⟧.m self.old (λ t F h.
            HasRoom ⟦<Self as Means>⟧.m 1 post_places self.old (summary (past_of h))
            → (summary (past_of h)).ended ≡ false → Stands ⟦<Self as Means>⟧.m t self.new F
            (h ++ posting (summary (past_of h)) handle kind from seq ∷ [])) }
        ensures net { net_of self.new ≡ net_of self.old }
        ensures rest { LeavesRest ⟦<Self as Means>⟧.m self.old self.new }
    {
        if self.state.is_alive(handle) {
            self.state.post(handle, kind);
            append(
                &mut self.journal,
                &mut self.watch,
                Entry::Posted {
                    handle,
                    kind,
                    from,
                    seq,
                },
            );
            return;
        }
        self.state.skip();
        append(
            &mut self.journal,
            &mut self.watch,
            Entry::Stale { handle, from, seq },
        );
    }
}

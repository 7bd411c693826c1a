//! Room for what a call appends, and for what is owed.
ghost use Rattle.std.specs.Prelude.{◌≡◌, ◌≤◌, ◌+◌, ◌<◌, ◌^◌, max, OnOk, IfSome, IfNone};
ghost use Rattle.reactor_model.specs.reactor_journal.specs.Past.{past_of};
ghost use Rattle.reactor_summary.specs.Summary.{summary};
ghost use Rattle.reactor_core.specs.Rest.{LeavesRest};
ghost use Rattle.reactor_core.specs.Stands.{From, Keeps, HasRoom, places_for};

use crate::Core;
use crate::means::Means;
use ev_base::{Net, NoMemory};
use reactor_model::{EventHandler, Volumes, Watch};
use reactor_state::Places;
use timer_queue::TimerQueue;

/// How many entries a history has at most.
pub(crate) const MOST_ENTRIES: u64 = 1 << 62;

/// Places for so many more beside those for the open events, or None exactly if some of them are
/// too many.
fn places_for(opened: usize, more: Places) -> Option<Places>
    ensures places { IfSome result (λ places. places ≡ places_for opened more) }
    ensures beyond { IfNone result (2 ^ 64
        ≤ opened + max (max more.handles more.timers) (max more.timeouts more.events)) }
{
    Some(Places {
        handles: opened.checked_add(more.handles)?,
        timers: opened.checked_add(more.timers)?,
        timeouts: opened.checked_add(more.timeouts)?,
        events: opened.checked_add(more.events)?,
        opens: more.opens,
    })
}

/// How many entries there must be room for, beside those that there are, or None exactly if they
/// are too many.
fn entries_for(owed: usize, more: usize, held: u64) -> Option<usize>
    ensures entries { IfSome result (λ entries. entries ≡ owed + more) }
    ensures within { IfSome result (λ entries. held + entries ≤ 2 ^ 62) }
    ensures beyond { IfNone result (2 ^ 62 < held + (owed + more)) }
{
    let entries = owed.checked_add(more)?;
    let all = held.checked_add(entries as u64)?;
    if all > MOST_ENTRIES {
        None
    } else {
        Some(entries)
    }
}

impl<
    H: EventHandler,
    M: Net<End = H::End>,
    Q: TimerQueue,
    W: Watch<H::Note>,
    V: Volumes<H::Note>,
> Core<H, M, Q, W, V> {
    /// Makes room for so many more entries and places. `NoMemory` comes also if the history,
    /// with what is owed, would pass 2^62 entries, or the places would pass the greatest `usize`:
    /// there is no memory for so many. After it there is no less room than before.
    pub(crate) fn make_room(&mut self, entries: usize, more: Places) -> Result<(), NoMemory>
        ensures kept { Keeps ⟦<Self as Means>⟧.m self.old self.new }
        ensures room { OnOk result (From ⟦<Self as Means>⟧.m self.old
            (λ t F h. HasRoom ⟦<Self as Means>⟧.m entries more self.new (summary (past_of h)))) }
        ensures rest { LeavesRest ⟦<Self as Means>⟧.m self.old self.new }
    {
        let open = self.state.open_count();
        let Some(entries) = entries_for(self.state.owed(), entries, self.state.entries()) else {
            return Err(NoMemory);
        };
        let Some(places) = places_for(open, more) else {
            return Err(NoMemory);
        };
        self.journal.reserve(entries)?;
        self.state.reserve(places)?;
        self.repo.reserve(places.handles)?;
        self.net.reserve(places.handles)?;
        Ok(())
    }
}

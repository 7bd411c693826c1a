//! How the entries that a reactor holds are handed over: a long run cannot keep its whole journal.
ghost use Rattle.std.specs.Prelude.{◌≡◌, ◌≤◌, true, IfOk, IfErr, OnErr};
ghost use Rattle.reactor_core.specs.Stands.{From, IsStanding, StandsAsBefore};
ghost use Rattle.reactor_core.specs.HandingOver.{is_due, HandsOver, HandsNothing, HasCause};
ghost use Rattle.reactor_core.specs.HandingOver.{hand_over_refusal};

use crate::Core;
use crate::means::Means;
use crate::room::MOST_ENTRIES;
use ev_base::Net;
use reactor_model::{EventHandler, Journal, TakeRefused, Volumes, Watch};
use std::mem;
use timer_queue::TimerQueue;

/// For how many entries a journal is given room at most as its volume begins. If a volume has
/// more, it grows.
const MOST_AHEAD: u64 = 4_096;

/// How many entries more than a volume has it may come to hold before it is handed over, in the
/// usual run of things.
const BEYOND_VOLUME: u64 = 64;

/// Why no volume was handed over.
#[derive(Clone, Copy, PartialEq, Eq, Debug)]
pub enum HandOverRefused {
    /// The volumes failed, and their count of faults rose.
    Failed,
    /// There was no memory for what is owed, or for the volume.
    NoMemory,
}

impl<
    H: EventHandler,
    M: Net<End = H::End>,
    Q: TimerQueue,
    W: Watch<H::Note>,
    V: Volumes<H::Note>,
> Core<H, M, Q, W, V> {
    /// Hands the entries that are held over to the volumes, whether upcalls are open or not, and
    /// gives their number. That is done exactly if they are at least as many as a volume has,
    /// and the whole journal has fewer than 2^62 entries; else the number is 0 and nothing has
    /// changed. A refusal comes only if it is due, and changes nothing but, with `Failed`, the
    /// volumes' count of faults.
    pub fn hand_over(&mut self) -> Result<u64, HandOverRefused>
        requires stands { IsStanding ⟦<Self as Means>⟧.m self.old }
        ensures ok { IfOk result (λ n. From ⟦<Self as Means>⟧.m self.old
            (λ t F h. HandsOver ⟦<Self as Means>⟧.m t F h n self.old self.new)) }
        ensures due { OnErr result (From ⟦<Self as Means>⟧.m self.old
            (λ t F h. is_due self.old F h ≡ true)) }
        ensures err { OnErr result (StandsAsBefore ⟦<Self as Means>⟧.m self.old self.new) }
        ensures same { OnErr result (HandsNothing ⟦<Self as Means>⟧.m self.old self.new) }
        ensures cause { IfErr result
            (λ refused. HasCause ⟦<Self as Means>⟧.m refused self.old self.new) }
    {
        if !self.is_volume_due() {
            return Ok(0);
        }
        let held = self.journal.len();
        let mut fresh = Journal::new(self.alloc);
        match fresh.reserve(room_ahead(self.state.owed(), self.volume)) {
            Ok(()) => {}
            Err(_) => {
                fresh.into_vec().destroy_empty();
                return Err(HandOverRefused::NoMemory);
            }
        }
        let volume = mem::replace(&mut self.journal, fresh);
        match self.volumes.take(self.first, volume) {
            Ok(()) => {
                self.first += held;
                Ok(held)
            }
            Err((back, why)) => {
                mem::replace(&mut self.journal, back)
                    .into_vec()
                    .destroy_empty();
                Err(hand_over_refusal(why))
            }
        }
    }

    /// Whether `hand_over` is due: as many entries are held as a volume has at least, and the whole
    /// journal has fewer than 2^62.
    pub fn is_volume_due(&self) -> bool
        ensures { From ⟦<Self as Means>⟧.m self.now (λ t F h. result ≡ is_due self.now F h) }
    {
        self.journal.len() >= self.volume && self.state.entries() < MOST_ENTRIES
    }
}

// For how many entries a journal is given room as its volume begins: for those that are owed, and
// for those of a volume.
fn room_ahead(owed: usize, volume: u64) -> usize
    ensures { owed ≤ result }
{
    let ahead = volume.min(MOST_AHEAD).saturating_add(BEYOND_VOLUME);
    owed.saturating_add(ahead as usize)
}

// The refusal, by what the volumes answered.
fn hand_over_refusal(why: TakeRefused) -> HandOverRefused
    ensures { result ≡ hand_over_refusal why }
{
    match why {
        TakeRefused::Failed => HandOverRefused::Failed,
        TakeRefused::NoMemory => HandOverRefused::NoMemory,
    }
}

//! Event handlers, their turns and acts (C++NPv2 chapter 3, `ACE_Event_Handler`).
ghost use Rattle.std.specs.Prelude.{◌≡◌, ◌≤◌, List, Option, Contains};
ghost use Rattle.reactor_journal.specs.ev_types.specs.declared.upcall.Why.TheVariants.{Own};
ghost use Rattle.ev_base.specs.Terms.{Terms};
ghost use Rattle.reactor_journal.specs.Event.{Item, Origin};

use ev_base::{Answer, Handle, Mask, Net, NetFailed, PeerEnd, Upcall, Why};

/// What one upcall of an event handler gave.
pub struct Turn<H: EventHandler> {
    /// The answer: ACE's 0, above 0 or -1.
    pub answer: Answer,
    /// What the handler notes, for the journal.
    pub note: H::Note,
    /// What is to be done once the upcall is settled.
    pub act: Option<Act<H>>,
}

/// What a turn asks the reactor to do once it is settled.
pub enum Act<H: EventHandler> {
    /// Register this handler.
    Install {
        /// The handler.
        handler: H,
        /// The reports that it wants.
        mask: Mask,
        /// The first delay of its timer, from 1 to 4,294,967,295 milliseconds, and its period, from
        /// 0, which is once.
        timer: Option<(u64, u64)>,
    },
    /// Change the mask of the handler that took the turn.
    MaskMine(Mask),
    /// Cancel a timer of the handler that took the turn.
    CancelMine {
        /// The timer's number.
        timer: u64,
    },
    /// Stop the reactor.
    Stop,
}

/// An event handler: it owns an end, and is called when that is ready, when a timer comes due and
/// when it is notified.
///
/// A type of handlers says by its relations what the turns that a handler had mean, and promises of
/// each turn: an answer of Close carries neither `MaskMine` nor `CancelMine`; a timeout is never
/// answered by Again; the numbers of an `Install`'s timer are within their limits.
pub trait EventHandler: Sized {
    ghost use Rattle.reactor_model.specs.Handling.{Handling, NoClose, EndsInClose, Names};
    ghost use Rattle.reactor_model.specs.Turns.{TakesTurn, KeepsPromises};
    ghost use Rattle.reactor_model.specs.Attaching.{AttachesMine};

    /// What it notes of a turn.
    type Note;

    /// The end that it owns.
    type End: PeerEnd;

    /// Its relations.
    ghost means: { Handling Self Self.End Self.Note };

    /// Makes the upcall at a moment in milliseconds. A handler that had turns none of which
    /// answered Close has this one more.
    fn upcall(&mut self, up: Upcall, now: u64) -> Turn<Self>
        ensures turn { (t : Terms) (origin : Option (Origin Self.Note))
            (had : List (Item Self.Note)) → NoClose had → means.fits t origin self.old had
            → TakesTurn means t origin up now had self.new result }
        ensures promises { KeepsPromises means up result };

    /// Attaches its end to a net. What it has had stays as it is. `NetFailed` comes only if the
    /// net's count of failed attaches rose.
    fn attach_to<M: Net<End = Self::End>>(
        &mut self,
        net: &mut M,
        handle: Handle,
        mask: Mask,
    ) -> Result<(), NetFailed>
        requires place { 1 ≤ (M.facts net.old).spare }
        requires absent { Contains (M.facts net.old).attached handle.0 → ⊥ }
        ensures attaches { AttachesMine means self.old (M.facts net.old) handle.0 mask result
            (M.facts net.new) }
        ensures fits { (t : Terms) (origin : Option (Origin Self.Note))
            (had : List (Item Self.Note)) → M.keeps t net.old → means.fits t origin self.old had
            → means.fits t origin self.new had }
        ensures kept { (t : Terms) (origin : Option (Origin Self.Note))
            (had : List (Item Self.Note)) → M.keeps t net.old → means.fits t origin self.old had
            → M.keeps t net.new };

    /// Closes it for the reason, and gives back its end and a last note. For `Own` the last answer
    /// was Close.
    fn handle_close(self, why: Why) -> (Self::End, Self::Note)
        ensures gone { (t : Terms) (origin : Option (Origin Self.Note))
            (had : List (Item Self.Note)) → (why ≡ Own → EndsInClose had)
            → means.fits t origin self had → means.gone t origin result.0 had why result.1 }
        ensures serial { (t : Terms) (origin : Option (Origin Self.Note))
            (had : List (Item Self.Note)) → means.fits t origin self had
            → Names (means.serial t origin) (Self.End.tells result.0).serial }
        ensures kept { (t : Terms) (origin : Option (Origin Self.Note))
            (had : List (Item Self.Note)) → means.fits t origin self had
            → Self.End.keeps t result.0 };
}

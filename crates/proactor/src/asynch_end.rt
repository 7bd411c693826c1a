//! The event handler that carries out the operations of a connection.
ghost use Rattle.std.specs.Prelude.{
  ◌≡◌,
  ◌≤◌,
  ◌||◌,
  Contains,
  List,
  [],
  IfSome,
  Option,
  None,
  false,
  length,
  not,
};
ghost use Rattle.ev_base.specs.ev_types.specs.declared.upcall.Why.TheVariants.{Own};
ghost use Rattle.ev_base.specs.Terms.{Terms};
ghost use Rattle.ev_base.specs.End.{IsFresh};
ghost use Rattle.ev_base.specs.Net.{NetAttaches};
ghost use Rattle.reactor_model.specs.reactor_journal.specs.Event.{Item, Origin};
ghost use Rattle.reactor_model.specs.Handling.{NoClose, EndsInClose, Names};
ghost use Rattle.reactor_model.specs.Turns.{TakesTurn, KeepsPromises};
ghost use Rattle.proactor.specs.declared.note.AsynchNote.{AsynchNote};
ghost use Rattle.proactor.specs.Operations.{IsOp};
ghost use Rattle.proactor.specs.Queues.{none_stand};
ghost use Rattle.proactor.specs.Standing.{HasLeft};
ghost use Rattle.proactor.specs.Sums.{completed_sums};
ghost use Rattle.proactor.specs.Turns.{Serves, answer_by, tries_read, tries_write, TriesBoth};
ghost use Rattle.proactor.specs.Parts.{completes_read, completes_write, takes_bytes, DoesPart};
ghost use Rattle.proactor.specs.Parts.{HearsOf, end_of, handler_of, number_of, standing_of};
ghost use Rattle.proactor.specs.Ends.{AsynchFits, AsynchGone, MakesTurn, asynch_ends, change_by};
ghost use Rattle.proactor.specs.Ends.{mask_by, masking};

use crate::closing::cancel_all;
use crate::peer::Peer;
use crate::standing::{Standing, Writing};
use crate::sums::Sums;
use crate::{AsynchNote, Completed, CompletionHandler, Next, Op, Outcome};
use cdr_record::Bytes;
use ev_base::{Answer, Got, Handle, Mask, Net, NetFailed, PeerEnd, Sent, Upcall, Why};
use reactor_model::{Act, EventHandler, Turn};
use std::alloc::Global;
use std::mem;

/// Reports to read and to write.
const READ_AND_WRITE: Mask = Mask {
    write: true,
    ..Mask::READ
};

/// The event handler of a connection whose completion handler asks for reads and writes (POSA2,
/// Proactor: Asynchronous Operation Processor). At each upcall for input or output it tries the
/// first read that stands once, and then the first write once. A read completes with what one read
/// gave, a write when all of its bytes were taken.
pub struct AsynchEnd<E: PeerEnd, C> {
    conn: u64,
    peer: Peer<E>,
    handler: C,
    standing: Standing,
    sums: Sums,
    // what the next read is made into, if it is large enough
    spare: Vec<u8>,
    alloc: Global,
}

/// What a part of a turn did.
#[derive(Clone, Copy)]
pub(crate) struct Step {
    /// Whether bytes went either way.
    pub(crate) moved: bool,
    /// Whether the handler was done, or an operation failed.
    pub(crate) over: bool,
    /// Whether there was no memory.
    pub(crate) starved: bool,
}

impl Step {
    /// The answer of a turn.
    fn answer(self) -> Answer
        ensures { result ≡ answer_by (self.over || self.starved) self.moved }
    {
        match (self.over || self.starved, self.moved) {
            (true, _) => Answer::Close,
            (false, true) => Answer::Again,
            (false, false) => Answer::Keep,
        }
    }

    /// A part of a turn and the next one, before which there was memory.
    fn and(self, next: Step) -> Step
        ensures { result ≡ record {
          moved = self.moved || next.moved;
          over = self.over || next.over;
          starved = next.starved;
        } }
    {
        Step {
            moved: self.moved || next.moved,
            over: self.over || next.over,
            starved: next.starved,
        }
    }
}

/// A part of a turn that did nothing.
const NOTHING: Step = Step {
    moved: false,
    over: false,
    starved: false,
};

/// A part of a turn in which bytes went either way.
const MOVED: Step = Step {
    moved: true,
    ..NOTHING
};

impl<E: PeerEnd, C: CompletionHandler + Drop> AsynchEnd<E, C> {
    /// The handler of connection number `conn`, with its first operation, which is no listener and
    /// has made no call. It takes no memory. It is registered with the mask of [`Self::mask`].
    pub fn new(alloc: Global, conn: u64, end: E, handler: C, first: Op) -> AsynchEnd<E, C>
        requires no_listener { (E.tells end).listener ≡ false }
        requires fresh { IsFresh (E.tells end) }
        requires operation { IsOp first }
        requires follows { C.follows handler first [] }
        ensures end { end_of result ≡ end }
        ensures number { number_of result ≡ conn }
        ensures handler { handler_of result ≡ handler }
        ensures fits { (t : Terms) → E.keeps t end
            → AsynchFits E.tells E.keeps C.follows t result [] }
    {
        AsynchEnd {
            conn,
            peer: Peer { end },
            handler,
            standing: Standing::of(alloc, first),
            sums: Sums::none(),
            spare: Vec::new(alloc),
            alloc,
        }
    }

    /// The mask that the reactor is to have for it: reports to read, and to write too while a write
    /// stands.
    pub fn mask(&self) -> Mask
        ensures { result ≡ mask_by (not (none_stand (standing_of self.now).writes)) }
    {
        if self.standing.is_writing() {
            READ_AND_WRITE
        } else {
            Mask::READ
        }
    }

    /// Attaches its end to a net.
    pub(crate) fn attach_end<M: Net<End = E>>(
        &mut self,
        net: &mut M,
        handle: Handle,
        mask: Mask,
    ) -> Result<(), NetFailed>
        requires place { 1 ≤ (M.facts net.old).spare }
        requires absent { Contains (M.facts net.old).attached handle.0 → ⊥ }
        ensures attaches { NetAttaches (M.facts net.old) handle.0 mask
            (E.tells (end_of self.old)).serial result (M.facts net.new) }
        ensures number { number_of self.new ≡ number_of self.old }
        ensures fits { (t : Terms) (had : List (Item AsynchNote)) → M.keeps t net.old
            → AsynchFits E.tells E.keeps C.follows t self.old had
            → AsynchFits E.tells E.keeps C.follows t self.new had }
        ensures kept { (t : Terms) → M.keeps t net.old → E.keeps t (end_of self.old)
            → M.keeps t net.new }
    {
        net.attach(&mut self.peer.end, handle, mask)
    }

    /// Tells the handler that an operation has completed, and queues what it asks for.
    fn tell(&mut self, id: u64, outcome: Outcome) -> Step
        ensures { HearsOf C.follows id outcome self.old self.new result }
    {
        let failed = outcome.is_failed();
        let starved = outcome.is_starved();
        match self.handler.completed(Completed { id, outcome }) {
            Ok(Next { ops, done }) => {
                let all = self.standing.take_up(ops);
                self.count_completed(failed, starved, done, !all)
            }
            Err(_) => self.count_completed(failed, starved, false, true),
        }
    }

    /// The part of a turn in which an operation completed: whether it failed or found no memory,
    /// whether the handler was done, and whether what that led to found none.
    fn count_completed(&mut self, failed: bool, starved: bool, done: bool, lost: bool) -> Step
        ensures step { result ≡ record {
          moved = false;
          over = failed || done;
          starved = starved || lost;
        } }
        ensures sums { self.new ≡ record self.old {
          sums = completed_sums (starved || lost) self.old.sums;
        } }
    {
        let step = Step {
            moved: false,
            over: failed || done,
            starved: starved || lost,
        };
        self.sums.complete(step.starved);
        step
    }

    /// The first read completes.
    fn complete_read(&mut self, outcome: Outcome) -> Step
        requires { none_stand (standing_of self.old).reads ≡ false }
        ensures { DoesPart E.tells E.keeps C.follows (completes_read outcome) self.old self.new
            result }
    {
        let id = self.standing.finish_read();
        self.tell(id, outcome)
    }

    /// The first write completes. The next read is made into the memory of its bytes.
    fn complete_write(&mut self, outcome: Outcome) -> Step
        requires { none_stand (standing_of self.old).writes ≡ false }
        ensures { DoesPart E.tells E.keeps C.follows (completes_write outcome) self.old self.new
            result }
    {
        let Writing { id, bytes } = self.standing.finish_write();
        self.spare = bytes.into_vec();
        self.tell(id, outcome)
    }

    /// Tries the first read once.
    fn try_read(&mut self) -> Step
        ensures { DoesPart E.tells E.keeps C.follows tries_read self.old self.new result }
    {
        let Some(want) = self.standing.want() else {
            return NOTHING;
        };
        let Some(mut room) = room_for(self.alloc, &mut self.spare, want) else {
            return self.complete_read(Outcome::NoMemory);
        };
        match self.peer.end.read(&mut room) {
            Got::Bytes(count) => {
                room.truncate(count);
                self.sums.take(count);
                let step = self.complete_read(Outcome::Read(Bytes::new(room)));
                Step {
                    moved: true,
                    ..step
                }
            }
            Got::Pause => {
                self.spare = room;
                NOTHING
            }
            Got::Over => self.complete_read(Outcome::Over),
            Got::Failed => self.complete_read(Outcome::Failed),
        }
    }

    /// Tries the first write once.
    fn try_write(&mut self) -> Step
        ensures { DoesPart E.tells E.keeps C.follows tries_write self.old self.new result }
    {
        let Some(piece) = self.standing.piece() else {
            return NOTHING;
        };
        match self.peer.end.write(piece) {
            Sent::Bytes(count) => self.advance(count),
            Sent::Pause => NOTHING,
            Sent::Failed => self.complete_write(Outcome::Failed),
        }
    }

    /// So many bytes of the first write were taken.
    fn advance(&mut self, count: usize) -> Step
        requires some { none_stand (standing_of self.old).writes ≡ false }
        requires left { HasLeft (standing_of self.old) count }
        ensures { DoesPart E.tells E.keeps C.follows (takes_bytes count) self.old self.new
            result }
    {
        self.sums.give(count);
        if self.standing.advance(count) {
            return MOVED;
        }
        let step = self.complete_write(Outcome::Wrote);
        Step {
            moved: true,
            ..step
        }
    }

    /// Does what the upcall asks for.
    fn carry_out(&mut self, up: Upcall) -> Step
        ensures { DoesPart E.tells E.keeps C.follows (Serves up) self.old self.new result }
    {
        match up {
            Upcall::Input | Upcall::Output => self.try_both(),
            _ => NOTHING,
        }
    }

    /// Tries the first read once, and then the first write once.
    fn try_both(&mut self) -> Step
        ensures { DoesPart E.tells E.keeps C.follows TriesBoth self.old self.new result }
    {
        let read = self.try_read();
        if read.starved {
            return read;
        }
        read.and(self.try_write())
    }
}

/// What the reactor is asked for after a turn with this answer, before which a write stood or not,
/// and after which one does or not: the mask has write exactly while a write stands.
fn mask_change<E: PeerEnd, C: CompletionHandler + Drop>(
    answer: Answer,
    was: bool,
    is: bool,
) -> Option<Act<AsynchEnd<E, C>>>
    ensures { result ≡ masking (change_by answer was is) }
{
    match (answer, was, is) {
        (Answer::Close, _, _) => None,
        (_, false, true) => Some(Act::MaskMine(READ_AND_WRITE)),
        (_, true, false) => Some(Act::MaskMine(Mask::READ)),
        _ => None,
    }
}

impl<E: PeerEnd, C: CompletionHandler + Drop> EventHandler for AsynchEnd<E, C> {
    type Note = AsynchNote;

    type End = E;

    ghost means = { asynch_ends E.tells E.keeps C.follows };

    fn upcall(&mut self, up: Upcall, _now: u64) -> Turn<AsynchEnd<E, C>>
        ensures turn { (t : Terms) (origin : Option (Origin AsynchNote))
            (had : List (Item AsynchNote)) → NoClose had
            → AsynchFits E.tells E.keeps C.follows t self.old had
            → TakesTurn (asynch_ends E.tells E.keeps C.follows) t origin up _now had self.new
            result }
        ensures promises { KeepsPromises (asynch_ends E.tells E.keeps C.follows) up result }

        // What happened in the turn: one try of the first read, and then of the first write; and
        // what it answers, notes and asks for.
        ensures makes { MakesTurn E.tells E.keeps C.follows up self.old self.new result }
    {
        let was_writing = self.standing.is_writing();
        let step = self.carry_out(up);
        let answer = step.answer();
        Turn {
            answer,
            note: self.sums.note(self.conn, 0),
            act: mask_change(answer, was_writing, self.standing.is_writing()),
        }
    }

    fn attach_to<M: Net<End = E>>(
        &mut self,
        net: &mut M,
        handle: Handle,
        mask: Mask,
    ) -> Result<(), NetFailed> {
        self.attach_end(net, handle, mask)
    }

    fn handle_close(self, _why: Why) -> (E, AsynchNote)
        ensures gone { (t : Terms) (origin : Option (Origin AsynchNote))
            (had : List (Item AsynchNote)) → (_why ≡ Own → EndsInClose had)
            → AsynchFits E.tells E.keeps C.follows t self had
            → AsynchGone E.tells E.keeps C.follows t result.0 had _why result.1 }
        ensures serial { (t : Terms) (origin : Option (Origin AsynchNote))
            (had : List (Item AsynchNote)) → AsynchFits E.tells E.keeps C.follows t self had
            → Names None (E.tells result.0).serial }
        ensures kept { (t : Terms) (origin : Option (Origin AsynchNote))
            (had : List (Item AsynchNote)) → AsynchFits E.tells E.keeps C.follows t self had
            → E.keeps t result.0 }

        // The end that it gives is its own, and the note has its number.
        ensures end { result.0 ≡ end_of self }
        ensures number { result.1.conn ≡ number_of self }
    {
        let AsynchEnd {
            conn,
            peer: Peer { end },
            mut handler,
            mut standing,
            mut sums,
            spare: _,
            alloc: _,
        } = self;
        let cancelled = cancel_all(&mut handler, &mut standing, &mut sums);
        (end, sums.note(conn, cancelled))
    }
}

/// As many bytes of memory as a read wants: those that are spare, if they are enough.
fn room_for(alloc: Global, spare: &mut Vec<u8>, want: usize) -> Option<Vec<u8>>
    ensures { IfSome result (λ room. length room.items ≡ want) }
{
    let mut room = mem::replace(spare, Vec::new(alloc));
    room.resize(want, 0).ok()?;
    Some(room)
}

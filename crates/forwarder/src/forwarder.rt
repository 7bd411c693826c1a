//! The forwarding service.
ghost use Rattle.std.specs.Prelude.{◌≡◌, ◌≢◌, ◌≤◌, ◌⊎◌, ◌||◌, [], None, length, OnOk, OnErr};
ghost use Rattle.ev_base.specs.Terms.{KeepsOn};
ghost use Rattle.ev_base.specs.End.{EndFacts};
ghost use Rattle.reactor_model.specs.Turns.{IsTimeout};
ghost use Rattle.connector.specs.Serving.{IsSameDial};
ghost use Rattle.forwarder.specs.Waiting.{most_held};

use crate::forward_end::ForwardEnd;
use crate::note::{ForwardEnding, ForwardNote};
use crate::reading::{Completed, Reading};
use crate::sending::Sending;
use connector::Service;
use ev_base::{Answer, DialEnd, Got, NoMemory, PeerEnd, Sent, Source, Upcall};
use std::alloc::Global;
use std::marker::PhantomData;

/// How many bytes a read takes at most.
const PIECE: usize = 4096;

/// The service that forwards records: it reads the source of its end, decodes it, and writes the
/// canonical spelling of each record to the peer (C++NPv2 chapter 7, the client logging daemon).
///
/// Each upcall but a timeout makes at most one read of at most 4,096 bytes, and only if nothing
/// waits to be sent, then one write of what waits. It answers Again if bytes went either way,
/// Keep if the peer took none, and Close at its end, of which its notes tell. It reads no more
/// after a bad record, the end of the source or a failed read, and ends once all before was sent.
pub struct Forwarder<E, S> {
    reading: Reading,
    sending: Sending,
    // How it ends once nothing waits, if it reads no more.
    stop: Option<ForwardEnding>,
    records: u64,
    bytes: u64,
    ended: Option<ForwardEnding>,
    end: PhantomData<(E, S)>,
}

impl<E, S> Drop for Forwarder<E, S> {
    fn drop(self) {
        let Forwarder {
            reading: _,
            sending: _,
            stop: _,
            records: _,
            bytes: _,
            ended: _,
            end: _,
        } = self;
    }
}

impl<E: DialEnd, S: Source> Forwarder<E, S> {
    ghost use Rattle.ev_base.specs.End.{IsFresh};
    ghost use Rattle.forwarder.specs.Forwarding.{Serves, Forwards, Reads, WritesIf, TakesPiece};
    ghost use Rattle.forwarder.specs.Forwarding.{LacksMemory, may_read, may_write, note_of};
    ghost use Rattle.forwarder.specs.Forwarding.{concluded, answer_of};
    ghost use Rattle.forwarder.specs.Forwarded.{HasTurned};
    ghost use Rattle.forwarder.specs.ForwardEnds.{forward_facts, ForwardKeeps};
    ghost use Rattle.forwarder.specs.Services.{standing, state_of, held_of};

    /// A service that had no turn, for an end that made no call. It takes no memory.
    pub fn new(alloc: Global) -> Forwarder<E, S>
        ensures turned { (facts : EndFacts) → IsFresh facts → HasTurned [] (standing result facts) }
        ensures few { held_of result ≤ most_held }
    {
        Forwarder {
            reading: Reading::new(alloc),
            sending: Sending::new(alloc),
            stop: None,
            records: 0,
            bytes: 0,
            ended: None,
            end: PhantomData,
        }
    }

    /// Makes one turn: at a timeout it does nothing.
    fn turn(&mut self, end: &mut ForwardEnd<E, S>, up: Upcall) -> Answer
        ensures serves { (state_of E.tells S.facts self.old end.old).ended ≡ None
            → Serves up (state_of E.tells S.facts self.old end.old) result
            (state_of E.tells S.facts self.new end.new) }
        ensures timeout { IsTimeout up → result ≢ Answer.Again }
        ensures kept { KeepsOn (ForwardKeeps E.tells E.keeps S.facts) end.old end.new }
        ensures same { IsSameDial (forward_facts E.tells S.facts end.old)
            (forward_facts E.tells S.facts end.new) }
        ensures few { held_of self.old ≤ most_held → held_of self.new ≤ most_held }
    {
        match up {
            Upcall::Timeout { .. } => Answer::Keep,
            _ => self.forward(end),
        }
    }

    /// One read if it may, then one write if something waits.
    fn forward(&mut self, end: &mut ForwardEnd<E, S>) -> Answer
        ensures forwards { (state_of E.tells S.facts self.old end.old).ended ≡ None
            → Forwards (state_of E.tells S.facts self.old end.old) result
            (state_of E.tells S.facts self.new end.new) }
        ensures kept { KeepsOn (ForwardKeeps E.tells E.keeps S.facts) end.old end.new }
        ensures same { IsSameDial (forward_facts E.tells S.facts end.old)
            (forward_facts E.tells S.facts end.new) }
        ensures few { held_of self.old ≤ most_held → held_of self.new ≤ most_held }
    {
        if self.ended.is_some() {
            return Answer::Close;
        }
        let gave = self.read_on(end);
        let took = self.write_on(end);
        self.conclude(gave, took)
    }

    /// Reads once, if nothing waits and it may read on. Tells whether bytes came.
    fn read_on(&mut self, end: &mut ForwardEnd<E, S>) -> bool
        ensures reads { Reads (may_read (state_of E.tells S.facts self.old end.old))
            (state_of E.tells S.facts self.old end.old) result
            (state_of E.tells S.facts self.new end.new) }
        ensures kept { KeepsOn (ForwardKeeps E.tells E.keeps S.facts) end.old end.new }
        ensures same { IsSameDial (forward_facts E.tells S.facts end.old)
            (forward_facts E.tells S.facts end.new) }
        ensures few { held_of self.old ≤ most_held → held_of self.new ≤ most_held }
    {
        if self.stop.is_some() || !self.sending.is_empty() {
            return false;
        }
        let mut buffer = [0u8; PIECE];
        match end.read_input(&mut buffer) {
            Got::Bytes(count) => {
                self.take(&buffer[..count]);
                true
            }
            Got::Over => {
                self.stop = Some(self.reading.stop_at_end());
                false
            }
            Got::Failed => {
                self.stop = Some(ForwardEnding::ReadFailed);
                false
            }
            Got::Pause => unreachable!("a source never pauses"),
        }
    }

    /// Takes a piece that was read, when nothing waits. If there is no memory it ends.
    fn take(&mut self, piece: &[u8])
        requires none { self.old.sending.waiting ≡ [] }
        requires few { length piece.now ≤ 4096 }
        ensures takes { (facts : EndFacts) → TakesPiece piece.now (standing self.old facts)
            (standing self.new facts) ⊎ LacksMemory (standing self.old facts)
            (standing self.new facts) }
        ensures few { held_of self.old ≤ most_held → held_of self.new ≤ most_held }
    {
        match self.try_take(piece) {
            Ok(()) => {}
            Err(NoMemory) => self.ended = Some(ForwardEnding::NoMemory),
        }
    }

    /// Takes a piece that was read while nothing waits: the records that it completed wait now.
    fn try_take(&mut self, piece: &[u8]) -> Result<(), NoMemory>
        requires none { self.old.sending.waiting ≡ [] }
        requires few { length piece.now ≤ 4096 }
        ensures ok { (facts : EndFacts) → OnOk result (TakesPiece piece.now
            (standing self.old facts) (standing self.new facts)) }
        ensures err { (facts : EndFacts) → OnErr result (standing self.new facts
            ≡ record (standing self.old facts) { decoder = self.new.reading }) }
        ensures held { held_of self.old ≤ most_held → held_of self.new ≤ most_held }
    {
        let Completed {
            bytes,
            records,
            stop,
        } = self.reading.take(piece, self.sending.memory())?;
        self.sending.put(bytes)?;
        self.records = self.records.saturating_add(records);
        self.stop = stop;
        Ok(())
    }

    /// WritesIf what waits, if something does and it goes on. Tells whether bytes were taken.
    fn write_on(&mut self, end: &mut ForwardEnd<E, S>) -> bool
        ensures writes { WritesIf (may_write (state_of E.tells S.facts self.old end.old))
            (state_of E.tells S.facts self.old end.old) result
            (state_of E.tells S.facts self.new end.new) }
        ensures kept { KeepsOn (ForwardKeeps E.tells E.keeps S.facts) end.old end.new }
        ensures same { IsSameDial (forward_facts E.tells S.facts end.old)
            (forward_facts E.tells S.facts end.new) }
        ensures few { held_of self.old ≤ most_held → held_of self.new ≤ most_held }
    {
        if self.ended.is_some() || self.sending.is_empty() {
            return false;
        }
        self.sending.advance();
        match end.write(self.sending.front()) {
            Sent::Bytes(count) => {
                self.sending.pass(count);
                self.bytes = self.bytes.saturating_add(count as u64);
                true
            }
            Sent::Pause => false,
            Sent::Failed => {
                self.ended = Some(ForwardEnding::PeerFailed);
                false
            }
        }
    }

    /// Ends it if it reads no more and nothing waits, and gives the answer of a turn, by
    /// whether its read gave bytes and its write took some.
    fn conclude(&mut self, gave: bool, took: bool) -> Answer
        ensures leaves { (facts : EndFacts) → standing self.new facts
            ≡ concluded (standing self.old facts) }
        ensures answers { result ≡ answer_of self.new.ended (gave || took) }
        ensures held { held_of self.new ≡ held_of self.old }
    {
        if self.ended.is_none() && self.sending.is_empty() {
            self.ended = self.stop;
        }
        match self.ended {
            Some(_) => Answer::Close,
            None if gave || took => Answer::Again,
            None => Answer::Keep,
        }
    }

    /// What it notes of a turn.
    fn note(&self) -> ForwardNote
        ensures { (facts : EndFacts) → result ≡ note_of (standing self.now facts) }
    {
        ForwardNote {
            records: self.records,
            bytes: self.bytes,
            stop: self.stop,
            ended: self.ended,
        }
    }
}

impl<E: DialEnd, S: Source> Service for Forwarder<E, S> {
    ghost use Rattle.forwarder.specs.Forwarded.{HasServed};
    ghost use Rattle.forwarder.specs.ServiceLaws.{stays_when_asked, stays_when_attached};

    type End = ForwardEnd<E, S>;

    type Note = ForwardNote;

    ghost serves = { λ t service end had. HasServed E.tells S.facts service end had };

    fn live(&mut self, end: &mut ForwardEnd<E, S>, up: Upcall, _now: u64) -> (Answer, ForwardNote) {
        let answer = self.turn(end, up);
        (answer, self.note())
    }

    ghost finished = { stays_when_asked E.tells E.keeps S.facts };

    ghost attached = { stays_when_attached E.tells E.keeps S.facts };
}

//! The end of a connection that is made in memory.
ghost use Rattle.std.specs.Prelude.{◌≡◌, ◌≤◌, ◌<◌, ◌-◌, ◌+◌, ◌↔◌, [], false, true, None, IfOk};
ghost use Rattle.std.specs.Prelude.{Contains, length, vec_len, vec_capacity, min};
ghost use Rattle.ev_base.specs.Terms.{Terms, KeepsOn};
ghost use Rattle.ev_base.specs.End.{IsFresh, EndWrites, EndFinishes, Accepts, KeptByGiven};
ghost use Rattle.dial_memory.specs.Answers.{finish_at, count_at, sent_of};

use crate::answers::{count_at, finish_at, sent_of};
use ev_base::{DialEnd, Finish, Got, NoMemory, PeerEnd, Sent, Taken};
use std::alloc::Global;

/// The end of a connection that this side makes, in memory. It takes no memory after it was made.
///
/// Call number k of `finish`, from 0, answers `finishes[k]`, and later ones pause. Write number k
/// takes at most `takes[k]` bytes, where 0 pauses, and later ones take all; those whose numbers
/// stand in `fails` fail. No write takes more than the room that is left, and one pauses if none
/// is. Each read pauses.
#[derive(Drop)]
pub struct MemDialEnd {
    held: Vec<u8>,
    room: usize,
    finishes: Vec<Finish>,
    takes: Vec<u64>,
    fails: Vec<u64>,
    asked: u64,
    last_finish: Option<Finish>,
    writes: u64,
    last_write: Option<Sent>,
    reads: u64,
    faults: u64,
    ghost reserved: { room ≤ vec_capacity held },
    ghost within: { vec_len held ≤ room },
}

impl MemDialEnd {
    ghost use Rattle.dial_memory.specs.DialEnds.{mem_dial_end_facts, mem_dial_end_keeps, held_of};
    ghost use Rattle.dial_memory.specs.DialEnds.{room_of, finishes_of, takes_of, fails_of};
    ghost use Rattle.dial_memory.specs.DialEnds.{is_new_end};

    /// An end that made no call, with room for so many bytes that it is given. `NoMemory` comes
    /// if there is no memory for the room.
    pub fn new(
        alloc: Global,
        room: usize,
        finishes: Vec<Finish>,
        takes: Vec<u64>,
        fails: Vec<u64>,
    ) -> Result<MemDialEnd, NoMemory>
        ensures fresh { IfOk result (λ end. IsFresh (mem_dial_end_facts end)) }
        ensures is_new { IfOk result (λ end. is_new_end end ≡ true) }
        ensures unnumbered { IfOk result (λ end. (mem_dial_end_facts end).serial ≡ None) }
        ensures no_listener { IfOk result (λ end. (mem_dial_end_facts end).listener ≡ false) }
        ensures kept { IfOk result (λ end. (t : Terms) → mem_dial_end_keeps t end) }
        ensures room { IfOk result (λ end. room_of end ≡ room) }
        ensures finishes { IfOk result (λ end. finishes_of end ≡ finishes.items) }
        ensures takes { IfOk result (λ end. takes_of end ≡ takes.items) }
        ensures fails { IfOk result (λ end. fails_of end ≡ fails.items) }
    {
        let held = Vec::with_capacity(alloc, room)?;
        Ok(MemDialEnd {
            held,
            room,
            finishes,
            takes,
            fails,
            asked: 0,
            last_finish: None,
            writes: 0,
            last_write: None,
            reads: 0,
            faults: 0,
        })
    }

    /// The bytes that it was given.
    pub fn held(&self) -> &[u8]
        ensures { result.now ≡ held_of self.now }
    {
        &self.held
    }
}

impl PeerEnd for MemDialEnd {
    ghost use Rattle.dial_memory.specs.DialEnds.{mem_dial_end_facts, mem_dial_end_keeps, held_of};
    ghost use Rattle.dial_memory.specs.DialEnds.{room_of, finishes_of, takes_of, fails_of};

    ghost tells = { mem_dial_end_facts };

    ghost keeps = { mem_dial_end_keeps };

    fn is_listener(&self) -> bool {
        false
    }

    fn read(&mut self, buf: &mut [u8]) -> Got {
        self.reads = self.reads.saturating_add(1);
        Got::Pause
    }

    fn write(&mut self, piece: &[u8]) -> Sent
        requires some { 0 < length piece.now }
        ensures writes { EndWrites (mem_dial_end_facts self.old) piece.now result
            (mem_dial_end_facts self.new) }
        ensures kept { KeepsOn mem_dial_end_keeps self.old self.new }
        ensures failed { (result ≡ Sent.Failed) ↔ Contains (fails_of self.old)
            (mem_dial_end_facts self.old).writes }
        ensures takes { (Contains (fails_of self.old) (mem_dial_end_facts self.old).writes → ⊥)
            → result ≡ sent_of (count_at (mem_dial_end_facts self.old).writes (takes_of self.old)
            (room_of self.old - length (held_of self.old)) (length piece.now)) }
    {
        let number = self.writes;
        self.writes = number.saturating_add(1);
        if self.fails.contains(&number) {
            self.faults = self.faults.saturating_add(1);
            self.last_write = Some(Sent::Failed);
            return Sent::Failed;
        }
        let count = count_at(
            number,
            &self.takes,
            self.room - self.held.len(),
            piece.len(),
        );
        match self.held.extend_from_slice(&piece[..count]) {
            Ok(()) => {}
            Err(_) => unreachable!("the room was reserved"),
        }
        let sent = sent_of(count);
        self.last_write = Some(sent);
        sent
    }

    // It is no listener, so no run makes this call; it finds no connection.
    fn accept(&mut self) -> Taken<MemDialEnd>
        ensures accepts { Accepts mem_dial_end_facts (mem_dial_end_facts self.old) result
            (mem_dial_end_facts self.new) }
        ensures kept { KeepsOn mem_dial_end_keeps self.old self.new }
        ensures given { (t : Terms) → mem_dial_end_keeps t self.old
            → KeptByGiven (mem_dial_end_keeps t) result }
        ensures pauses { result ≡ Taken.Pause }
    {
        self.reads = self.reads.saturating_add(1);
        Taken::Pause
    }

    ghost keeps_story = { λ t end keeps. keeps };
}

impl DialEnd for MemDialEnd {
    ghost use Rattle.dial_memory.specs.DialEnds.{mem_dial_end_facts, mem_dial_end_keeps, held_of};
    ghost use Rattle.dial_memory.specs.DialEnds.{room_of, finishes_of, takes_of, fails_of};

    fn finish(&mut self) -> Finish
        ensures finishes { EndFinishes (mem_dial_end_facts self.old) result
            (mem_dial_end_facts self.new) }
        ensures kept { KeepsOn mem_dial_end_keeps self.old self.new }
        ensures answers { result ≡ finish_at (mem_dial_end_facts self.old).finishes
            (finishes_of self.old) }
    {
        let answer = finish_at(self.asked, &self.finishes);
        self.asked = self.asked.saturating_add(1);
        self.last_finish = Some(answer);
        if answer == Finish::Failed {
            self.faults = self.faults.saturating_add(1);
        }
        answer
    }
}

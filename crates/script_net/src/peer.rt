//! The end of a connection.
ghost use Rattle.std.specs.Prelude.{◌≡◌, ◌≤◌, ◌<◌, ◌-◌, List, [], ◌∷◌, length, min, take, drop};
ghost use Rattle.ev_base.specs.Story as story;
ghost use Rattle.ev_base.specs.End.{EndReads, EndWrites};
ghost use Rattle.ev_base.specs.Story.{read_answer, read_bytes, told_after};
ghost use Rattle.script_net.specs.Scripts.{part_view, part_views};
ghost use Rattle.script_net.specs.Ends.{peer_facts, after_read, got_bytes, telling_at, told_part};
ghost use Rattle.script_net.specs.Ends.{faults_after, IsInside, write_answer, after_write};

use crate::script::{Connection, Part};
use ev_base::{Got, Sent};
use std::marker::Model;

/// The end of a connection: it tells the parts of its story, and takes bytes until it holds as many
/// as it has room for.
#[derive(Drop)]
pub(crate) struct Peer {
    number: u64,
    parts: Vec<Part>,
    // The number of the part that is told next, and how many of its bytes were given.
    next: usize,
    at: usize,
    room: usize,
    held: Vec<u8>,
    reads: u64,
    last_read: Option<Got>,
    writes: u64,
    last_write: Option<Sent>,
    faults: u64,
}

impl Model for Peer {
    ghost use Rattle.std.specs.Prelude.{option_map, length, vec_capacity};
    ghost use Rattle.script_net.specs.Content.{PeerContent};

    ghost Value = { PeerContent };

    ghost use Rattle.script_net.specs.Scripts.{part_views};
    ghost use Rattle.script_net.specs.Ends.{telling_at, try_of, try_of_write, is_over, IsPeer};

    ghost view = { λ p. record {
      serial = p.number;
      telling = telling_at (part_views p.parts.items) p.next p.at;
      room = p.room;
      held = p.held.items;
      reads = p.reads;
      last_read = option_map try_of p.last_read;
      writes = p.writes;
      last_write = option_map try_of_write p.last_write;
      faults = p.faults;
    } };

    ghost invariant = { λ p. IsPeer (part_views p.parts.items) p.next p.at (length p.held.items)
        p.room (vec_capacity p.held) (is_over (option_map try_of p.last_read)) };
}

impl Peer {
    ghost use Rattle.std.specs.Prelude.{None};
    ghost use Rattle.script_net.specs.Ends.{new_peer};

    /// The end of a connection of this number, which has made no call.
    pub(crate) fn new(number: u64, connection: Connection) -> Peer
        ensures { result ≡ new_peer number connection }
    {
        let Connection { parts, room, held } = connection;
        Peer {
            number,
            parts,
            next: 0,
            at: 0,
            room,
            held,
            reads: 0,
            last_read: None,
            writes: 0,
            last_write: None,
            faults: 0,
        }
    }

    /// Its number.
    pub(crate) fn number(&self) -> u64
        ensures { result ≡ self.now.serial }
    {
        self.number
    }

    /// The bytes that it holds.
    pub(crate) fn held(&self) -> &[u8]
        ensures { result.now ≡ self.now.held }
    {
        &self.held
    }

    /// Reads the next of its story.
    pub(crate) fn read(&mut self, buf: &mut [u8]) -> Got
        requires { 0 < length buf.old }
        ensures reads { EndReads (peer_facts self.old) buf.new result (peer_facts self.new) }
        ensures after { self.new ≡ after_read (length buf.old) self.old }
        ensures answer { result ≡ read_answer (length buf.old) self.old.telling.at
            self.old.telling.left }
    {
        let (got, next, at) = tell(&self.parts, self.next, self.at, buf);
        self.next = next;
        self.at = at;
        self.reads = self.reads.saturating_add(1);
        self.last_read = Some(got);
        self.faults = faults_after(got, self.faults);
        got
    }

    /// Takes bytes until it holds as many as it has room for.
    pub(crate) fn write(&mut self, piece: &[u8]) -> Sent
        requires { 0 < length piece.now }
        ensures writes { EndWrites (peer_facts self.old) piece.now result (peer_facts self.new) }
        ensures after { self.new ≡ after_write piece.now self.old }
        ensures answer { result ≡ write_answer (length piece.now) self.old }
    {
        self.writes = self.writes.saturating_add(1);
        let space = self.room - self.held.len();
        if space == 0 {
            self.last_write = Some(Sent::Pause);
            return Sent::Pause;
        }
        let count = piece.len().min(space);
        match self.held.extend_from_slice(&piece[..count]) {
            Ok(()) => {}
            Err(_) => unreachable!(),
        }
        self.last_write = Some(Sent::Bytes(count));
        Sent::Bytes(count)
    }
}

// The count of faults after a read.
fn faults_after(got: Got, faults: u64) -> u64
    ensures { result ≡ faults_after got faults }
{
    match got {
        Got::Failed => faults.saturating_add(1),
        Got::Bytes(_) | Got::Pause | Got::Over => faults,
    }
}

// Tells the next of some parts, of which so many were told whole and of the next one so many bytes.
// It answers what a read comes to, and how far the parts are told then.
fn tell(parts: &[Part], next: usize, at: usize, buf: &mut [u8]) -> (Got, usize, usize)
    requires { IsInside at (drop next (part_views parts.now)) }
    ensures answer { result.0 ≡ read_answer (length buf.old) at (drop next (part_views parts.now)) }
    ensures bytes { got_bytes result.0 buf.new ≡ read_bytes (length buf.old) at
        (drop next (part_views parts.now)) }
    ensures told { telling_at (part_views parts.now) result.1 result.2
        ≡ told_after (length buf.old) (take next (part_views parts.now)) at
        (drop next (part_views parts.now)) }
{
    if next >= parts.len() {
        return (Got::Pause, next, at);
    }
    let (got, whole, at) = tell_part(&parts[next], at, buf);
    if whole {
        (got, next + 1, 0)
    } else {
        (got, next, at)
    }
}

// Tells the next of a part of which so many bytes were given. It answers what a read comes to,
// whether the part is told whole then, and else how many of its bytes are given.
fn tell_part(part: &Part, at: usize, buf: &mut [u8]) -> (Got, bool, usize)
    requires { IsInside at (part_view part.now ∷ []) }
    ensures answer { (left : List story.Part) → result.0
        ≡ read_answer (length buf.old) at (part_view part.now ∷ left) }
    ensures bytes { (left : List story.Part) → got_bytes result.0 buf.new
        ≡ read_bytes (length buf.old) at (part_view part.now ∷ left) }
    ensures told { (given left : List story.Part) → told_part (part_view part.now) given left
        result.1 result.2 ≡ told_after (length buf.old) given at (part_view part.now ∷ left) }
{
    match part {
        Part::Piece(bytes) => {
            let count = copy_from(bytes, at, buf);
            if at + count < bytes.len() {
                (Got::Bytes(count), false, at + count)
            } else {
                (Got::Bytes(count), true, 0)
            }
        }
        Part::Pause => (Got::Pause, true, 0),
        Part::Over => (Got::Over, false, 0),
        Part::Failure => (Got::Failed, false, 0),
    }
}

// Copies the bytes from a place on, as many as a buffer takes, to its front, and tells how many
// that is.
fn copy_from(bytes: &[u8], at: usize, buf: &mut [u8]) -> usize
    requires { at ≤ length bytes.now }
    ensures count { result ≡ min (length buf.old) (length bytes.now - at) }
    ensures copied { take result buf.new ≡ take result (drop at bytes.now) }
{
    let rest = &bytes[at..];
    let count = buf.len().min(rest.len());
    buf[..count].copy_from_slice(&rest[..count]);
    count
}

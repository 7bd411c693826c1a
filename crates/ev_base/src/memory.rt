//! Sources and sinks in memory. They tell all their bytes.
ghost use Rattle.std.specs.Prelude.{◌≡◌, ◌+◌, ◌≤◌, ◌<◌, ℕ, List, [], ◌++◌, length, take, drop, min};
ghost use Rattle.std.specs.Prelude.{Some, None, true, false, OnOk, IfOk, Vec, vec_len};
ghost use Rattle.std.specs.Prelude.{vec_capacity, slice_get, slice_index, ◌-◌, ◌↔◌, IfSome};
ghost use Rattle.ev_base.specs.MemoryForms.{joined, given_of, left_of, least_of, HasByteAt};

use super::{Got, NoMemory, Sink, Source, Wrote};
use std::alloc::Global;

/// A source that never fails.
#[derive(Drop)]
pub struct SteadySource {
    bytes: Vec<u8>,
    at: usize,
    over: bool,
    ghost within: { at ≤ vec_len bytes },
    ghost spent: { over ≡ true → vec_len bytes ≤ at },
}

impl SteadySource {
    /// A source of these bytes.
    pub fn new(bytes: Vec<u8>) -> SteadySource
        ensures { ⟦<SteadySource as Source>⟧.facts result
            ≡ record {
              faults = 0;
              gave = 0;
              over = false;
              bytes = Some (record { given = []; left = bytes.items });
            } }
    {
        SteadySource {
            bytes,
            at: 0,
            over: false,
        }
    }
}

impl Source for SteadySource {
    ghost facts = { λ s. record {
      faults = 0;
      gave = s.at;
      over = s.over;
      bytes = Some (record { given = take s.at s.bytes.items; left = drop s.at s.bytes.items });
    } };

    fn read(&mut self, buf: &mut [u8]) -> Got {
        if self.at >= self.bytes.len() {
            self.over = true;
            return Got::Over;
        }
        let count = copy_from(&self.bytes, self.at, buf);
        self.at += count;
        Got::Bytes(count)
    }
}

/// Copies the bytes from a place on, as many as a buffer takes, to its front, and tells how many
/// that is.
fn copy_from(bytes: &[u8], at: usize, buf: &mut [u8]) -> usize
    requires { at ≤ length bytes.now }
    ensures count { result ≡ min (length bytes.now - at) (length buf.old) }
    ensures copied { take result buf.new ≡ take result (drop at bytes.now) }
{
    let rest = &bytes[at..];
    let count = rest.len().min(buf.len());
    buf[..count].copy_from_slice(&rest[..count]);
    count
}

/// A source of pieces: each read gives bytes of one piece. The reads that are named by their
/// numbers, from 0, fail. A read after one that answered `Over` answers `Over`.
#[derive(Drop)]
pub struct MemSource {
    pieces: Vec<Vec<u8>>,
    next: usize,
    at: usize,
    fails: Vec<u64>,
    reads: u64,
    faults: u64,
    over: bool,
    ghost spent: { over ≡ true → left_of next at pieces.items ≡ [] },
}

impl MemSource {
    ghost use Rattle.ev_base.specs.MemSource.{mem_source_facts, reads_of, fails_of};

    /// A source of these pieces. The reads whose numbers stand in `fails` are to fail.
    pub fn new(pieces: Vec<Vec<u8>>, fails: Vec<u64>) -> MemSource
        ensures facts { mem_source_facts result ≡ record {
          faults = 0;
          gave = 0;
          over = false;
          bytes = Some (record { given = []; left = joined pieces.items });
        } }
        ensures reads { reads_of result ≡ 0 }
        ensures fails { fails_of result ≡ fails.items }
    {
        MemSource {
            pieces,
            next: 0,
            at: 0,
            fails,
            reads: 0,
            faults: 0,
            over: false,
        }
    }
}

impl Source for MemSource {
    ghost use Rattle.std.specs.Prelude.{if◌then◌else◌};
    ghost use Rattle.ev_base.specs.Counts.{counted};
    ghost use Rattle.ev_base.specs.Source.{Reads};
    ghost use Rattle.ev_base.specs.MemSource.{mem_source_facts, reads_of, fails_of, IsToFail};

    ghost facts = { mem_source_facts };

    fn read(&mut self, buf: &mut [u8]) -> Got
        requires { 0 < length buf.old }
        ensures reads { Reads (mem_source_facts self.old) buf.new result
            (mem_source_facts self.new) }
        ensures failed { (result ≡ Got.Failed) ↔ IsToFail self.old }
        ensures number { reads_of self.new ≡ (if (mem_source_facts self.old).over then reads_of
            self.old else counted (reads_of self.old)) }
        ensures fails { fails_of self.new ≡ fails_of self.old }
    {
        if self.over {
            return Got::Over;
        }
        let number = self.reads;
        self.reads = number.saturating_add(1);
        if self.fails.contains(&number) {
            self.faults = self.faults.saturating_add(1);
            return Got::Failed;
        }
        let (next, at) = past_spent(&self.pieces, self.next, self.at);
        self.next = next;
        self.at = at;
        if next >= self.pieces.len() {
            self.over = true;
            return Got::Over;
        }
        let bytes = self.pieces[next].as_slice();
        let count = copy_from(bytes, at, buf);
        self.at = at + count;
        Got::Bytes(count)
    }
}

/// The place of the next byte: the number of its piece, and its place there. After the last byte
/// the number is that of the pieces.
fn past_spent(pieces: &[Vec<u8>], piece: usize, place: usize) -> (usize, usize)
    ensures given { given_of result.0 result.1 pieces.now ≡ given_of piece place pieces.now }
    ensures left { left_of result.0 result.1 pieces.now ≡ left_of piece place pieces.now }
    ensures some { HasByteAt pieces.now result.0 result.1 }
{
    let mut next = piece;
    let mut at = place;
    while next < pieces.len() {
        let bytes = pieces[next].as_slice();
        if at < bytes.len() {
            return (next, at);
        }
        at -= bytes.len();
        next += 1;
    }
    (next, at)
}

/// A sink with room for so many bytes. It takes no memory after it was made.
#[derive(Drop)]
pub struct MemSink {
    bytes: Vec<u8>,
    limit: usize,
    faults: u64,
    ghost room: { limit ≤ vec_capacity bytes },
    ghost within: { vec_len bytes ≤ limit },
}

impl MemSink {
    ghost use Rattle.ev_base.specs.MemSink.{limit_of, taken_of, mem_sink_facts};

    /// A sink that takes `room` bytes, or `fail_after` bytes if these are fewer, and fails at each
    /// write after them. `NoMemory` comes if there is no memory for the room.
    pub fn new(alloc: Global, room: usize, fail_after: Option<u64>) -> Result<MemSink, NoMemory>
        ensures empty { IfOk result (λ s. mem_sink_facts s
            ≡ record { faults = 0; text = Some [] }) }
        ensures limit { IfOk result (λ s. limit_of s ≡ least_of room fail_after) }
    {
        let bytes = Vec::with_capacity(alloc, room)?;
        let limit = fail_after.map_or(room as u64, |after| after.min(room as u64));
        Ok(MemSink {
            bytes,
            limit: limit as usize,
            faults: 0,
        })
    }

    /// What it took.
    pub fn bytes(&self) -> &[u8]
        ensures { result.now ≡ taken_of self.now }
    {
        &self.bytes
    }
}

impl Sink for MemSink {
    ghost use Rattle.ev_base.specs.MemSink.{limit_of, taken_of, mem_sink_facts};
    ghost use Rattle.ev_base.specs.Sink.{Writes};

    ghost facts = { mem_sink_facts };

    fn write(&mut self, piece: &[u8]) -> Wrote
        requires { 0 < length piece.now }
        ensures writes { Writes (mem_sink_facts self.old) piece.now result
            (mem_sink_facts self.new) }
        ensures limit { limit_of self.new ≡ limit_of self.old }
        ensures takes { length (taken_of self.old) < limit_of self.old
            → result ≡ Wrote.Bytes (min (length piece.now)
            (limit_of self.old - length (taken_of self.old))) }
    {
        let space = self.limit - self.bytes.len();
        if space == 0 {
            self.faults = self.faults.saturating_add(1);
            return Wrote::Failed;
        }
        let count = piece.len().min(space);
        match self.bytes.extend_from_slice(&piece[..count]) {
            Ok(()) => Wrote::Bytes(count),
            Err(_) => unreachable!("the room was reserved"),
        }
    }
}

//! The buffer, and the loop that writes it.
ghost use Rattle.std.specs.Prelude.{◌≡◌, ◌≤◌, ℕ, List, [], ◌++◌, ◌+◌, length, take, min, ◌-◌, ◌<◌};
ghost use Rattle.std.specs.Prelude.{Bool, true, false, IsTrue, ◌↔◌};
ghost use Rattle.ev_base.specs.Sink.{SinkFacts};
ghost use Rattle.sink_buffer.specs.Written.{WritesAll};

use crate::TextOut;
use ev_base::{Sink, Wrote};

/// How many bytes are gathered before a write: 8 KiB. Short lines are written together; a line that
/// is longer is written in several writes.
const SIZE: usize = 8_192;

/// A sink that gathers what is put into it in a fixed buffer of 8,192 bytes. It writes the buffer
/// each time it is full and more is put, and when it is flushed, and takes no memory. Once a write
/// failed it writes nothing more.
#[derive(Drop)]
pub struct SinkBuffer<K> {
    output: K,
    bytes: [u8; SIZE],
    held: usize,
    broken: bool,
    ghost within: { held ≤ 8192 },
}

impl<K: Sink> SinkBuffer<K> {
    ghost use Rattle.sink_buffer.specs.Gathers.{Gathers, held_count, held_of, is_broken, output_of};
    ghost use Rattle.sink_buffer.specs.Gathers.{HasPut};
    ghost use Rattle.sink_buffer.specs.Texts.{Puts};

    /// A buffer before this sink, which holds nothing.
    pub fn new(output: K) -> SinkBuffer<K>
        ensures text { Gathers K.facts (K.facts output) result [] }
        ensures held { held_of result ≡ [] }
        ensures output { output_of result ≡ output }
        ensures broken { is_broken result ≡ false }
    {
        SinkBuffer {
            output,
            bytes: [0; SIZE],
            held: 0,
            broken: false,
        }
    }

    /// Writes what is held if the buffer is full.
    fn make_room(&mut self)
        ensures text { (start : SinkFacts) (put : List ℕ) → Gathers K.facts start self.old put
            → Gathers K.facts start self.new put }
        ensures room { self.new.held < 8192 }
        ensures held { length (held_of self.old) < 8192 → held_of self.new ≡ held_of self.old }
        ensures output { length (held_of self.old) < 8192 → output_of self.new
            ≡ output_of self.old }
    {
        if self.held >= SIZE {
            self.flush();
        }
    }

    /// Copies bytes for which there is room.
    fn hold(&mut self, bytes: &[u8])
        requires { self.old.held + length bytes.now ≤ 8192 }
        ensures held { held_of self.new ≡ held_of self.old ++ bytes.now }
        ensures output { output_of self.new ≡ output_of self.old }
        ensures broken { is_broken self.new ≡ is_broken self.old }
    {
        let end = self.held + bytes.len();
        self.bytes[self.held..end].copy_from_slice(bytes);
        self.held = end;
    }

    /// Adds bytes to the text, a full buffer at a time.
    fn put_long(&mut self, bytes: &[u8])
        ensures { Puts (HasPut K.facts) self.old bytes.now self.new }
    {
        let mut at = 0;
        while at < bytes.len() {
            self.make_room();
            at += self.fill(&bytes[at..]);
        }
    }

    /// Copies what there is room for, and tells how much that was.
    fn fill(&mut self, bytes: &[u8]) -> usize
        requires { self.old.held < 8192 }
        ensures count { result ≡ min (length bytes.now) (8192 - self.old.held) }
        ensures held { held_of self.new ≡ held_of self.old ++ take result bytes.now }
        ensures output { output_of self.new ≡ output_of self.old }
        ensures broken { is_broken self.new ≡ is_broken self.old }
    {
        let count = bytes.len().min(SIZE - self.held);
        let end = self.held + count;
        self.bytes[self.held..end].copy_from_slice(&bytes[..count]);
        self.held = end;
        count
    }

    /// Writes what is held, in one write if the sink takes all of it, and in none if nothing
    /// is held. After it the sink has the whole text, or a write failed. After a failed write
    /// nothing is written.
    pub fn flush(&mut self)
        ensures text { (start : SinkFacts) (put : List ℕ) → Gathers K.facts start self.old put
            → Gathers K.facts start self.new put }
        ensures held { held_of self.new ≡ [] }
        ensures empty { held_count self.new ≡ 0 }
        ensures idle { length (held_of self.old) ≡ 0 → output_of self.new ≡ output_of self.old }
        ensures quiet { is_broken self.old ≡ true → output_of self.new ≡ output_of self.old }
    {
        if self.broken {
            self.held = 0;
            return;
        }
        let done = write_all(&mut self.output, &self.bytes[..self.held]);
        self.held = 0;
        self.broken = !done;
    }

    /// Whether a write failed.
    pub fn is_broken(&self) -> bool
        ensures { result ≡ is_broken self.now }
    {
        self.broken
    }

    /// The sink below. What is held and was not flushed is dropped.
    pub fn into_output(self) -> K
        ensures { result ≡ output_of self }
    {
        self.output
    }

    /// Writes what is held, and gives the sink below, and whether no write failed: then it has the
    /// whole text, and else a front of it.
    pub fn finish(self) -> (K, bool)
        ensures { (start : SinkFacts) (put : List ℕ) → Gathers K.facts start self put
            → WritesAll start put result.1 (K.facts result.0) }
    {
        let mut buffer = self;
        buffer.flush();
        let whole = !buffer.broken;
        (buffer.output, whole)
    }
}

impl<K: Sink> TextOut for SinkBuffer<K> {
    ghost use Rattle.sink_buffer.specs.Gathers.{Since, HasPut};

    ghost Since = { Since K };

    ghost stands = { HasPut K.facts };

    /// Adds bytes to the text. If there is room for them, nothing is written.
    fn put(&mut self, bytes: &[u8]) {
        if bytes.len() <= SIZE - self.held {
            self.hold(bytes);
        } else {
            self.put_long(bytes);
        }
    }
}

/// Writes all of some bytes, in as many writes as the sink needs, and tells whether none failed.
/// After a failed write nothing is written.
pub fn write_all<K: Sink>(output: &mut K, bytes: &[u8]) -> bool
    ensures writes { WritesAll (K.facts output.old) bytes.now result (K.facts output.new) }
    ensures idle { length bytes.now ≡ 0 → output.new ≡ output.old }
{
    let mut at = 0;
    while at < bytes.len() {
        match output.write(&bytes[at..]) {
            Wrote::Bytes(count) => at += count,
            Wrote::Failed => return false,
        }
    }
    true
}

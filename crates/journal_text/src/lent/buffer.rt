//! A buffer before a sink that is lent.
ghost use Rattle.std.specs.Prelude.{◌≡◌, ◌≤◌, ◌+◌, ℕ, List, [], ◌++◌, length};
ghost use Rattle.ev_base.specs.Sink.{SinkFacts};
ghost use Rattle.journal_text.specs.Held.{held_in};
ghost use Rattle.journal_text.specs.Lent.{Gathers, Since, HasPut};

use crate::lent::held::{HeldBytes, SIZE};
use ev_base::Sink;
use sink_buffer::{TextOut, write_all};

/// What is put into a sink that is lent, gathered in a fixed buffer of 8,192 bytes. It takes no
/// memory. Once a write failed it writes nothing more.
#[derive(Drop)]
pub(crate) struct LentBuffer<'a, K> {
    sink: &'a mut K,
    held: HeldBytes,
    broken: bool,
}

impl<'a, K: Sink> LentBuffer<'a, K> {
    /// A buffer before this sink, which holds nothing.
    pub(crate) fn new(sink: &'a mut K) -> LentBuffer<'a, K>
        ensures same_reference { result.sink.ghost_name ≡ sink.entry.ghost_name }
        ensures text { Gathers K.facts (K.facts sink.old) result [] }
    {
        LentBuffer {
            sink,
            held: HeldBytes::none(),
            broken: false,
        }
    }

    /// Adds bytes for which there is room.
    fn hold(&mut self, bytes: &[u8])
        requires { self.old.held.count + length bytes.now ≤ 8192 }
        ensures same_reference { self.new.sink.ghost_name ≡ self.old.sink.ghost_name }
        ensures text { (start : SinkFacts) (put : List ℕ) → Gathers K.facts start self.old put
            → Gathers K.facts start self.new (put ++ bytes.now) }
    {
        self.held.add(bytes);
    }

    /// Writes bytes when nothing is held.
    fn write_long(&mut self, bytes: &[u8])
        requires { held_in self.old.held ≡ [] }
        ensures same_reference { self.new.sink.ghost_name ≡ self.old.sink.ghost_name }
        ensures text { (start : SinkFacts) (put : List ℕ) → Gathers K.facts start self.old put
            → Gathers K.facts start self.new (put ++ bytes.now) }
    {
        if self.broken {
            return;
        }
        let done = write_all(self.sink, bytes);
        self.broken = !done;
    }

    /// Adds bytes when nothing is held.
    fn put_first(&mut self, bytes: &[u8])
        requires held { held_in self.old.held ≡ [] }
        requires count { self.old.held.count ≡ 0 }
        ensures same_reference { self.new.sink.ghost_name ≡ self.old.sink.ghost_name }
        ensures text { (start : SinkFacts) (put : List ℕ) → Gathers K.facts start self.old put
            → Gathers K.facts start self.new (put ++ bytes.now) }
    {
        if bytes.len() <= SIZE {
            self.hold(bytes);
        } else {
            self.write_long(bytes);
        }
    }

    /// Writes what is held. After it the sink has the whole text, or a write failed.
    pub(crate) fn flush(&mut self)
        ensures same_reference { self.new.sink.ghost_name ≡ self.old.sink.ghost_name }
        ensures text { (start : SinkFacts) (put : List ℕ) → Gathers K.facts start self.old put
            → Gathers K.facts start self.new put }
        ensures held { held_in self.new.held ≡ [] }
        ensures count { self.new.held.count ≡ 0 }
    {
        if self.broken {
            self.held.clear();
            return;
        }
        let done = write_all(self.sink, self.held.as_slice());
        self.held.clear();
        self.broken = !done;
    }

    /// Whether a write failed.
    pub(crate) fn is_broken(&self) -> bool
        ensures { result ≡ self.now.broken }
    {
        self.broken
    }
}

impl<K: Sink> TextOut for LentBuffer<'_, K> {
    ghost Since = { Since };

    ghost stands = { HasPut K.facts };

    /// Adds bytes to the text. If there is room for them, nothing is written.
    fn put(&mut self, bytes: &[u8]) {
        if bytes.len() <= self.held.room() {
            self.hold(bytes);
        } else {
            self.flush();
            self.put_first(bytes);
        }
    }
}

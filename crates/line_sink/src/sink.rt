//! The watch that writes the lines of a journal's entries.
ghost use Rattle.std.specs.Prelude.{◌≡◌, ◌≤◌, ◌++◌, ◌∷◌, ℕ, List, [], Some, true, false};
ghost use Rattle.ev_base.specs.Counts.{Rose};
ghost use Rattle.ev_base.specs.Terms.{Terms};

use crate::JournalLines;
use ev_base::Sink;
use ghost_log::Tally;
use reactor_model::{Entry, Watch};
use sink_buffer::DirectSink;
use std::marker::PhantomData;

/// A watch that writes the lines of a journal's entries as these are appended. `P` says which lines
/// an entry has, and each text that it puts is written at once. It holds nothing back, takes no
/// memory, and writes nothing more once a write failed.
#[derive(Drop)]
pub struct LineSink<K, P> {
    output: DirectSink<K>,
    // How many entries it has seen, from the first on, without a failed write.
    whole: Tally,
    lines: PhantomData<P>,
}

impl<K: Sink, P: JournalLines> LineSink<K, P> {
    ghost use Rattle.line_sink.specs.LineSink.{PutsLines, is_broken, sink_of};

    /// A watch that has seen nothing, over this sink.
    pub fn new(output: K) -> LineSink<K, P>
        ensures stands { (t : Terms) → ((text : List ℕ) → t.opening ≡ Some text
            → (K.facts output).text ≡ Some text)
            → ((n : ℕ) → t.output_faults ≡ Some n → (K.facts output).faults ≡ n)
            → PutsLines P.lines K.facts t result [] }
        ensures output { sink_of result ≡ output }
        ensures sound { is_broken result ≡ false }
    {
        LineSink {
            output: DirectSink::new(output),
            whole: Tally::none(),
            lines: PhantomData,
        }
    }

    /// The sink below.
    pub fn into_output(self) -> K
        ensures { result ≡ sink_of self }
    {
        self.output.into_output()
    }
}

impl<K: Sink, P: JournalLines> Watch<P::Note> for LineSink<K, P> {
    ghost use Rattle.reactor_model.specs.reactor_journal.specs.declared.entry.Entry.{Entry};
    ghost use Rattle.line_sink.specs.LineSink.{PutsLines, line_sink_faults, is_broken, sink_of};
    ghost use Rattle.line_sink.specs.LineSink.{whole_of};
    ghost use Rattle.line_sink.specs.Faults.{breaks_above};

    ghost stands = { PutsLines P.lines K.facts };

    ghost faults = { line_sink_faults K.facts };

    ghost is_broken = { is_broken };

    ghost whole = { whole_of };

    fn saw(&mut self, entry: &Entry<P::Note>)
        ensures stands { (t : Terms) (h : List (Entry P.Note))
            → PutsLines P.lines K.facts t self.old h
            → PutsLines P.lines K.facts t self.new (h ++ entry.now ∷ []) }
        ensures later { line_sink_faults K.facts self.old ≤ line_sink_faults K.facts self.new }
        ensures stays { is_broken self.old ≡ true → is_broken self.new ≡ true }
        ensures breaks { is_broken self.old ≡ false → is_broken self.new ≡ true
            → Rose (line_sink_faults K.facts self.old) (line_sink_faults K.facts self.new) }
        ensures whole { whole_of self.old ≤ whole_of self.new }
        ensures quiet { is_broken self.old ≡ true → sink_of self.new ≡ sink_of self.old }
    {
        if self.output.is_broken() {
            return;
        }
        P::put(&mut self.output, entry);
        if self.output.is_broken() {
            return;
        }
        self.whole.add(1);
    }

    fn broken(&self) -> bool {
        self.output.is_broken()
    }

    ghost broke = { λ t watch h before stands broken started.
        breaks_above P.lines K.facts t watch h before stands broken started };
}

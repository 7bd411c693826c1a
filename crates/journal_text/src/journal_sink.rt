//! The watch that writes the text of a journal.
ghost use Rattle.std.specs.Prelude.{◌≡◌, ◌≤◌, ◌++◌, ◌∷◌, ℕ, List, [], Some, true, false};
ghost use Rattle.ev_base.specs.Counts.{Rose};
ghost use Rattle.ev_base.specs.Terms.{Terms};
ghost use Rattle.sink_buffer.specs.Texts.{Puts};
ghost use Rattle.journal_text.specs.JournalSink.{next_text};

use crate::entries::{put_entry_line, put_most_line};
use ev_base::Sink;
use ghost_log::Tally;
use log_handler::ServerNote;
use reactor_model::{Entry, Watch};
use sink_buffer::{SinkBuffer, TextOut};

/// A watch that writes the text of a journal as its entries are appended: the line `most N`
/// together with the first entry, and from then on a line for each entry. What is due for an entry
/// is written in one call if it has at most 8,192 bytes and the sink takes all of it, and else
/// in several. It holds nothing back between entries, takes no memory, and writes nothing more once
/// a write failed.
#[derive(Drop)]
pub struct JournalSink<K> {
    output: SinkBuffer<K>,
    most: u64,
    begun: bool,
    // How many entries it has seen, from the first on, without a failed write.
    whole: Tally,
}

impl<K: Sink> JournalSink<K> {
    ghost use Rattle.journal_text.specs.JournalSink.{PutsJournal, is_broken, sink_of};

    /// A watch that has seen nothing, over this sink, for a reactor in which at most `most`
    /// handlers may be live at once.
    pub fn new(most: u64, output: K) -> JournalSink<K>
        ensures stands { (t : Terms) → t.most ≡ most → ((text : List ℕ) → t.opening ≡ Some text
            → (K.facts output).text ≡ Some text)
            → ((n : ℕ) → t.output_faults ≡ Some n → (K.facts output).faults ≡ n)
            → PutsJournal K.facts t result [] }
        ensures output { sink_of result ≡ output }
        ensures sound { is_broken result ≡ false }
    {
        JournalSink {
            output: SinkBuffer::new(output),
            most,
            begun: false,
            whole: Tally::none(),
        }
    }

    /// The sink below.
    pub fn into_output(self) -> K
        ensures { result ≡ sink_of self }
    {
        self.output.into_output()
    }
}

/// Puts the line of one more entry, after the line `most N` if that was not put.
fn put_next<T: TextOut>(out: &mut T, most: u64, begun: bool, entry: &Entry<ServerNote>)
    ensures { Puts T.stands out.old (next_text most begun entry.now) out.new }
{
    if !begun {
        put_most_line(out, most);
    }
    put_entry_line(out, entry);
}

impl<K: Sink> Watch<ServerNote> for JournalSink<K> {
    ghost use Rattle.reactor_model.specs.reactor_journal.specs.declared.entry.Entry.{Entry};
    ghost use Rattle.log_handler.specs.declared.note.ServerNote.{ServerNote};
    ghost use Rattle.journal_text.specs.JournalSink.{PutsJournal, journal_sink_faults, is_broken};
    ghost use Rattle.journal_text.specs.JournalSink.{sink_of, whole_of};
    ghost use Rattle.journal_text.specs.Faults.{breaks_above};

    ghost stands = { PutsJournal K.facts };

    ghost faults = { journal_sink_faults K.facts };

    ghost is_broken = { is_broken };

    ghost whole = { whole_of };

    fn saw(&mut self, entry: &Entry<ServerNote>)
        ensures stands { (t : Terms) (h : List (Entry ServerNote))
            → PutsJournal K.facts t self.old h
            → PutsJournal K.facts t self.new (h ++ entry.now ∷ []) }
        ensures later { journal_sink_faults K.facts self.old
            ≤ journal_sink_faults K.facts self.new }
        ensures stays { is_broken self.old ≡ true → is_broken self.new ≡ true }
        ensures breaks { is_broken self.old ≡ false → is_broken self.new ≡ true
            → Rose (journal_sink_faults K.facts self.old) (journal_sink_faults K.facts self.new) }
        ensures whole { whole_of self.old ≤ whole_of self.new }
        ensures quiet { is_broken self.old ≡ true → sink_of self.new ≡ sink_of self.old }
    {
        if self.output.is_broken() {
            return;
        }
        put_next(&mut self.output, self.most, self.begun, entry);
        self.begun = true;
        self.output.flush();
        if !self.output.is_broken() {
            self.whole.add(1);
        }
    }

    fn broken(&self) -> bool {
        self.output.is_broken()
    }

    ghost broke = { λ t watch h before stands broken started.
        breaks_above K.facts t watch h before stands broken started };
}

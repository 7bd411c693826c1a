//! The summary.
ghost use Rattle.std.specs.Prelude.{[]};
ghost use Rattle.sink_buffer.specs.Texts.{Puts};
ghost use Rattle.sink_buffer.specs.Written.{WritesAll};
ghost use Rattle.run_summary.specs.Summaries.{Summarizes, line_of, summary_text};
ghost use Rattle.run_summary.specs.Adding.{Adds, AddsEntry};

use ev_base::Sink;
use log_handler::ServerNote;
use log_lines::put_unsigned;
use reactor_journal::Entry;
use sink_buffer::{SinkBuffer, TextOut};

/// What the notes of a journal come to. A number above `u64::MAX` is told as `u64::MAX`.
#[derive(Clone, Copy, PartialEq, Eq, Debug)]
pub struct Summary {
    /// How many connections were accepted.
    pub connections: u64,
    /// How many records the notes have.
    pub records: u64,
    /// How many bytes were taken.
    pub bytes: u64,
    /// How many lines the notes have: one for each record, and one for each connection that was
    /// closed.
    pub lines: u64,
}

impl Summary {
    /// The summary of no entries.
    fn empty() -> Summary
        ensures { Summarizes result [] }
    {
        Summary {
            connections: 0,
            records: 0,
            bytes: 0,
            lines: 0,
        }
    }

    /// The summary of these entries of a journal.
    pub fn of(entries: &[Entry<ServerNote>]) -> Summary
        ensures { Summarizes result entries.now }
    {
        let mut summary = Summary::empty();
        for entry in entries {
            summary.add_entry(entry);
        }
        summary
    }

    /// Counts the note of one entry more, if it has one.
    fn add_entry(&mut self, entry: &Entry<ServerNote>)
        ensures { AddsEntry self.old entry.now self.new }
    {
        match entry {
            Entry::Returned { note, .. } => self.add(note),
            Entry::Refused { note, .. } => self.add(note),
            Entry::Closed { note, .. } => self.add(note),
            _ => {}
        }
    }

    /// Counts one note more.
    fn add(&mut self, note: &ServerNote)
        ensures { Adds self.old note.now self.new }
    {
        match note {
            ServerNote::Accepted { .. } => {
                self.connections = self.connections.saturating_add(1);
            }
            ServerNote::Piece { took, records, .. } => {
                let records = records.len() as u64;
                self.records = self.records.saturating_add(records);
                self.bytes = self.bytes.saturating_add(*took);
                self.lines = self.lines.saturating_add(records);
            }
            ServerNote::Finished { .. } => {
                self.lines = self.lines.saturating_add(1);
            }
            _ => {}
        }
    }

    /// Writes the four lines `connections A`, `records R`, `bytes T` and `lines L`, and gives the
    /// sink back, and whether no write failed: then it took all four, and else a front of them.
    pub fn write<K: Sink>(&self, output: K) -> (K, bool)
        ensures { WritesAll (K.facts output) (summary_text self.now) result.1 (K.facts result.0) }
    {
        let mut text = SinkBuffer::new(output);
        put_line(&mut text, b"connections ", self.connections);
        put_line(&mut text, b"records ", self.records);
        put_line(&mut text, b"bytes ", self.bytes);
        put_line(&mut text, b"lines ", self.lines);
        text.finish()
    }
}

/// Puts a line of a word and a number.
fn put_line<T: TextOut>(out: &mut T, word: &[u8], number: u64)
    ensures { Puts T.stands out.old (line_of word.now number) out.new }
{
    out.put(word);
    put_unsigned(out, number);
    out.put(b"\n");
}

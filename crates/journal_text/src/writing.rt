//! A whole journal, written as a text.
ghost use Rattle.std.specs.Prelude.{OnOk, OnErr};
ghost use Rattle.sink_buffer.specs.Texts.{Puts};
ghost use Rattle.sink_buffer.specs.Written.{TakesAll, BreaksOff};
ghost use Rattle.journal_text.specs.Texts.{entry_lines, journal_text};

use crate::entries::{put_entry_line, put_most_line};
use crate::lent::{PutText, write_text};
use ev_base::Sink;
use log_handler::ServerNote;
use reactor_model::{Entry, Journal};
use sink_buffer::TextOut;
use std::error::Error;
use std::fmt;

/// A write failed. Then nothing was written after it.
#[derive(Clone, Copy, PartialEq, Eq, Debug)]
pub struct WriteFailed;

impl fmt::Display for WriteFailed {
    fn fmt<W: fmt::Write>(&self, f: &mut fmt::Formatter<W>) -> fmt::Result {
        write!(f, "write failed")
    }
}

impl Error for WriteFailed {}

/// A journal, and how many handlers may be live at once.
#[derive(Clone, Copy)]
struct WholeJournal<'a> {
    most: u64,
    entries: &'a [Entry<ServerNote>],
}

impl PutText for WholeJournal<'_> {
    ghost text = { λ journal. journal_text journal.most journal.entries.now };

    fn put_into<T: TextOut>(&self, out: &mut T) {
        put_most_line(out, self.most);
        put_lines(out, self.entries);
    }
}

/// Puts the lines of entries, one after another.
fn put_lines<T: TextOut>(out: &mut T, entries: &[Entry<ServerNote>])
    ensures { Puts T.stands out.old (entry_lines entries.now) out.new }
{
    for entry in entries {
        put_entry_line(out, entry);
    }
}

/// Writes the text of a journal: the line `most N` and a line for each entry, whatever their
/// numbers and messages are. What is beyond a limit of the text is written by the same rules, and
/// `read_journal` refuses its line. It takes no memory.
///
/// `WriteFailed` comes only if a write of the sink failed; then the sink has taken a front of
/// the text.
pub fn write_journal<K: Sink>(
    most: u64,
    journal: &Journal<ServerNote>,
    sink: &mut K,
) -> Result<(), WriteFailed>
    ensures whole { OnOk result (TakesAll (K.facts sink.old) (journal_text most journal.now.entries)
        (K.facts sink.new)) }
    ensures front { OnErr result (BreaksOff (K.facts sink.old)
        (journal_text most journal.now.entries) (K.facts sink.new)) }
{
    let whole = WholeJournal {
        most,
        entries: journal.as_slice(),
    };
    if write_text(sink, &whole) {
        Ok(())
    } else {
        Err(WriteFailed)
    }
}

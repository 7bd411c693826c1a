//! The line of a connection.
ghost use Rattle.std.specs.Prelude.{◌++◌, decimal};
ghost use Rattle.sink_buffer.specs.Texts.{Puts};
ghost use Rattle.aio_lines.specs.Lines.{connection_line, entry_lines, note_lines};

use log_lines::put_unsigned;
use proactor::{AioNote, AsynchNote};
use reactor_model::Entry;
use sink_buffer::{ShortText, TextOut};

/// Puts the line of a connection that was closed: `{conn} read {R} wrote {W} cancelled {C}`, with
/// its number, how many bytes were read and written, and how many operations were cancelled.
pub fn put_connection_line<T: TextOut>(out: &mut T, note: &AsynchNote)
    ensures { Puts T.stands out.old (connection_line note.now) out.new }
{
    put_unsigned(out, note.conn);
    put_count(out, b" read ", note.read);
    put_count(out, b" wrote ", note.wrote);
    put_count(out, b" cancelled ", note.cancelled);
    out.put(b"\n");
}

/// Puts a word and a number.
fn put_count<T: TextOut>(out: &mut T, word: &[u8], number: u64)
    ensures { Puts T.stands out.old (word.now ++ decimal number) out.new }
{
    out.put(word);
    put_unsigned(out, number);
}

/// Puts the line of a connection at once.
fn put_at_once<T: TextOut>(out: &mut T, note: &AsynchNote)
    ensures { Puts T.stands out.old (connection_line note.now) out.new }
{
    let mut line = ShortText::new();
    put_connection_line(&mut line, note);
    match line.text() {
        Some(text) => out.put(text),
        None => put_connection_line(out, note),
    }
}

/// Puts the lines of a last note: the line of a connection, and none of an acceptor.
fn put_note<T: TextOut>(out: &mut T, note: &AioNote)
    ensures { Puts T.stands out.old (note_lines note.now) out.new }
{
    if let AioNote::End(note) = note {
        put_at_once(out, note);
    }
}

/// Puts the lines of an entry: that of a connection which it closed or refused.
pub(crate) fn put_entry_lines<T: TextOut>(out: &mut T, entry: &Entry<AioNote>)
    ensures { Puts T.stands out.old (entry_lines entry.now) out.new }
{
    match entry {
        Entry::Refused { note, .. } => put_note(out, note),
        Entry::Closed { note, .. } => put_note(out, note),
        _ => {}
    }
}

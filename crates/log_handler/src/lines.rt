//! The lines of a journal's notes.
ghost use Rattle.std.specs.Prelude.{◌≡◌, [], MatchOption};
ghost use Rattle.cdr_record.specs.Borrowed.{owned};
ghost use Rattle.line_sink.specs.sink_buffer.specs.Texts.{Puts};
ghost use Rattle.log_lines.specs.Texts.{record_line, record_lines, closing_line};
ghost use Rattle.log_handler.specs.Notes.{note_lines, entry_lines};

use crate::{LoggedRecords, ServerNote};
use cdr_record::RecordRef;
use line_sink::{Entry, JournalLines, ShortText, TextOut};
use log_lines::{EndKind, put_borrowed_line, put_closing_line};
use packed_records::Unpacked;

/// The lines of the logging server: those of a piece's records, and the closing line of a
/// connection.
#[derive(Clone, Copy, PartialEq, Eq, Debug)]
pub struct ServerLines;

/// A watch that writes the lines of the notes of a journal as its entries are appended. The text of
/// a piece's lines is written in one call if its note has it, and a closing line in one too.
/// Lines without a text are made here, a record at a time. It holds nothing back, takes no memory,
/// and writes nothing more once a write failed.
pub type LineSink<K> = line_sink::LineSink<K, ServerLines>;

impl JournalLines for ServerLines {
    type Note = ServerNote;

    ghost lines = { entry_lines };

    fn put<T: TextOut>(out: &mut T, entry: &Entry<ServerNote>) {
        put_entry_lines(out, entry);
    }
}

/// The note of an entry whose note has lines.
fn note_of(entry: &Entry<ServerNote>) -> Option<&ServerNote>
    ensures { MatchOption result (entry_lines entry.now ≡ [])
        (λ note. entry_lines entry.now ≡ note_lines note.now) }
{
    match entry {
        Entry::Returned { note, .. } | Entry::Refused { note, .. } | Entry::Closed { note, .. } =>
            Some(note),
        _ => None,
    }
}

/// Puts the lines of an entry's note into what takes texts: those of a piece's records, or the
/// closing line of a connection. Other entries have none.
pub fn put_entry_lines<T: TextOut>(out: &mut T, entry: &Entry<ServerNote>)
    ensures { Puts T.stands out.old (entry_lines entry.now) out.new }
{
    if let Some(note) = note_of(entry) {
        put_note(out, note);
    }
}

/// Puts the lines of a note.
fn put_note<T: TextOut>(out: &mut T, note: &ServerNote)
    ensures { Puts T.stands out.old (note_lines note.now) out.new }
{
    match note {
        ServerNote::Piece { conn, records, .. } => put_piece(out, *conn, records),
        ServerNote::Finished { conn, end } => put_closing(out, *conn, *end),
        _ => {}
    }
}

/// Puts the lines of a piece's records: their text at once, if it is there, and else a line at a
/// time.
fn put_piece<T: TextOut>(out: &mut T, conn: u64, records: &LoggedRecords)
    ensures { Puts T.stands out.old (record_lines conn records.now) out.new }
{
    match records.lines_for(conn) {
        Some(text) => out.put(text),
        None => put_each(out, conn, records.iter()),
    }
}

/// Puts the lines of records one by one.
fn put_each<T: TextOut>(out: &mut T, conn: u64, records: Unpacked<'_>)
    ensures { Puts T.stands out.old (record_lines conn records.entry) out.new }
{
    for entry in records {
        put_record(out, conn, entry);
    }
}

/// Puts a record's line, at once if it is short.
fn put_record<T: TextOut>(out: &mut T, conn: u64, entry: RecordRef<'_>)
    ensures { Puts T.stands out.old (record_line conn (owned entry.entry)) out.new }
{
    let mut line = ShortText::new();
    put_borrowed_line(&mut line, conn, entry);
    match line.text() {
        Some(text) => out.put(text),
        None => put_borrowed_line(out, conn, entry),
    }
}

/// Puts a closing line at once.
fn put_closing<T: TextOut>(out: &mut T, conn: u64, end: EndKind)
    ensures { Puts T.stands out.old (closing_line conn end) out.new }
{
    let mut line = ShortText::new();
    put_closing_line(&mut line, conn, end);
    match line.text() {
        Some(text) => out.put(text),
        None => put_closing_line(out, conn, end),
    }
}

//! The texts of notes.
ghost use Rattle.cdr_record.specs.Borrowed.{owned};
ghost use Rattle.sink_buffer.specs.Texts.{Puts};
ghost use Rattle.journal_text.specs.Texts.{record_word, record_words, note_text};

use crate::words::{put_counted, put_digits, put_end, put_number};
use cdr_record::RecordRef;
use log_handler::ServerNote;
use log_lines::put_signed;
use packed_records::Unpacked;
use sink_buffer::TextOut;

/// Puts a record's word.
fn put_record<T: TextOut>(out: &mut T, entry: RecordRef<'_>)
    ensures { Puts T.stands out.old (record_word (owned entry.entry)) out.new }
{
    put_signed(out, i64::from(entry.kind));
    out.put(b":");
    put_signed(out, i64::from(entry.pid));
    out.put(b":");
    put_signed(out, entry.sec);
    out.put(b":");
    put_signed(out, i64::from(entry.usec));
    out.put(b":");
    put_digits(out, entry.text);
}

/// Puts the words of records, a space before each.
fn put_records<T: TextOut>(out: &mut T, records: Unpacked<'_>)
    ensures { Puts T.stands out.old (record_words records.entry) out.new }
{
    for entry in records {
        out.put(b" ");
        put_record(out, entry);
    }
}

/// Puts a note.
#[tactic(auto, unfolding(crate::specs::Texts::note_text))]
pub(crate) fn put_note<T: TextOut>(out: &mut T, note: &ServerNote)
    ensures { Puts T.stands out.old (note_text note.now) out.new }
{
    match note {
        ServerNote::Accepted { conn } => put_counted(out, b"accepted ", *conn),
        ServerNote::NoneWaiting => out.put(b"none"),
        ServerNote::ListenerFailed => out.put(b"listenerfailed"),
        ServerNote::ListenerShut => out.put(b"shut"),
        ServerNote::Piece {
            conn,
            took,
            records,
        } => {
            put_counted(out, b"piece ", *conn);
            put_number(out, *took);
            put_number(out, records.len() as u64);
            put_records(out, records.iter());
        }
        ServerNote::Finished { conn, end } => {
            put_counted(out, b"end ", *conn);
            out.put(b" ");
            put_end(out, *end);
        }
    }
}

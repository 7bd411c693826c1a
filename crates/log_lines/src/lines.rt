//! The texts and lines of records, and closing lines.
ghost use Rattle.std.specs.Prelude.{◌≡◌, ℕ, ◌++◌, MatchOption, decimal};
ghost use Rattle.std.specs.Fmt.{signed_decimal};
ghost use Rattle.cdr_record.specs.Borrowed.{owned};
ghost use Rattle.sink_buffer.specs.Texts.{Puts};
ghost use Rattle.log_lines.specs.Texts.{type_text, record_text, record_line, record_lines};
ghost use Rattle.log_lines.specs.Texts.{end_word, closing_line};

use crate::EndKind;
use crate::message::put_message;
use crate::numbers::{put_signed, put_unsigned};
use cdr_record::RecordRef;
use packed_records::Unpacked;
use sink_buffer::TextOut;

/// Puts the text of a record whose message is borrowed: `SEC,USEC PID NAME: MESSAGE`.
pub fn put_borrowed_text<T: TextOut>(out: &mut T, entry: RecordRef<'_>)
    ensures { Puts T.stands out.old (record_text (owned entry.entry)) out.new }
{
    put_signed(out, entry.sec);
    out.put(b",");
    put_signed(out, i64::from(entry.usec));
    out.put(b" ");
    put_signed(out, i64::from(entry.pid));
    out.put(b" ");
    put_type(out, entry.kind);
    out.put(b": ");
    put_message(out, entry.text);
}

/// Puts the line of a record whose message is borrowed: the number of its connection, and its text.
pub fn put_borrowed_line<T: TextOut>(out: &mut T, connection: u64, entry: RecordRef<'_>)
    ensures { Puts T.stands out.old (record_line connection (owned entry.entry)) out.new }
{
    put_unsigned(out, connection);
    out.put(b" ");
    put_borrowed_text(out, entry);
    out.put(b"\n");
}

/// Puts the lines of records, one after another.
pub fn put_record_lines<T: TextOut>(out: &mut T, connection: u64, records: Unpacked<'_>)
    ensures { Puts T.stands out.old (record_lines connection records.entry) out.new }
{
    for entry in records {
        put_borrowed_line(out, connection, entry);
    }
}

/// Puts a connection's closing line.
pub fn put_closing_line<T: TextOut>(out: &mut T, connection: u64, end: EndKind)
    ensures { Puts T.stands out.old (closing_line connection end) out.new }
{
    put_unsigned(out, connection);
    out.put(b" closed: ");
    put_end_word(out, end);
    out.put(b"\n");
}

/// Puts the word of how a connection ended.
fn put_end_word<T: TextOut>(out: &mut T, end: EndKind)
    ensures { Puts T.stands out.old (end_word end) out.new }
{
    match end {
        EndKind::End => out.put(b"end"),
        EndKind::Partial(bytes) => put_word_and_number(out, b"partial ", bytes),
        EndKind::Malformed(at) => put_word_and_number(out, b"malformed ", at),
        EndKind::Failed => out.put(b"failed"),
        EndKind::NoMemory => out.put(b"no memory"),
        EndKind::Idle => out.put(b"idle"),
        EndKind::Stopped => out.put(b"stopped"),
        EndKind::Refused => out.put(b"refused"),
    }
}

fn put_word_and_number<T: TextOut>(out: &mut T, word: &[u8], number: u64)
    ensures { Puts T.stands out.old (word.now ++ decimal number) out.new }
{
    out.put(word);
    put_unsigned(out, number);
}

/// Puts a record's type: the name of a priority, or the number.
fn put_type<T: TextOut>(out: &mut T, kind: i32)
    ensures { Puts T.stands out.old (type_text kind) out.new }
{
    match name_of(kind) {
        Some(name) => out.put(name.as_bytes()),
        None => put_signed(out, i64::from(kind)),
    }
}

/// The name of a priority, or None for a type that is none.
fn name_of(kind: i32) -> Option<&'static str>
    ensures { MatchOption result (type_text kind ≡ signed_decimal kind)
        (λ name. type_text kind ≡ name.now) }
{
    match kind {
        1 => Some("LM_SHUTDOWN"),
        2 => Some("LM_TRACE"),
        4 => Some("LM_DEBUG"),
        8 => Some("LM_INFO"),
        16 => Some("LM_NOTICE"),
        32 => Some("LM_WARNING"),
        64 => Some("LM_STARTUP"),
        128 => Some("LM_ERROR"),
        256 => Some("LM_CRITICAL"),
        512 => Some("LM_ALERT"),
        1024 => Some("LM_EMERGENCY"),
        _ => None,
    }
}

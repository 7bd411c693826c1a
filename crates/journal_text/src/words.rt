//! The words of a line.
ghost use Rattle.std.specs.Prelude.{◌≡◌, ◌≤◌, ◌++◌, codes, decimal, length, if◌then◌else◌};
ghost use Rattle.hex.specs.Hex.{encode_lower};
ghost use Rattle.sink_buffer.specs.Texts.{Puts};
ghost use Rattle.journal_text.specs.Texts.{mask_text, kind_text, answer_text, fault_text, end_text};

use ev_base::{Answer, Kind, Mask};
use hex::encode_to_slice;
use log_lines::{EndKind, put_unsigned};
use sink_buffer::TextOut;

/// How many bytes of a message are spelled together.
const CHUNK: usize = 64;

/// Puts a space and a number.
pub(crate) fn put_number<T: TextOut>(out: &mut T, number: u64)
    ensures { Puts T.stands out.old (codes " " ++ decimal number) out.new }
{
    out.put(b" ");
    put_unsigned(out, number);
}

/// Puts a letter if something is wanted, and else a hyphen.
fn put_letter<T: TextOut>(out: &mut T, wanted: bool, letter: &[u8])
    ensures { Puts T.stands out.old (if wanted then letter.now else codes "-") out.new }
{
    if wanted {
        out.put(letter);
    } else {
        out.put(b"-");
    }
}

/// Puts a mask.
pub(crate) fn put_mask<T: TextOut>(out: &mut T, mask: Mask)
    ensures { Puts T.stands out.old (mask_text mask) out.new }
{
    put_letter(out, mask.read, b"r");
    put_letter(out, mask.write, b"w");
    put_letter(out, mask.except, b"e");
}

/// The word of a kind.
pub(crate) fn kind_word(kind: Kind) -> &'static [u8]
    ensures { result.now ≡ kind_text kind }
{
    match kind {
        Kind::Read => b"read",
        Kind::Write => b"write",
        Kind::Except => b"except",
    }
}

/// The word of an answer.
pub(crate) fn answer_word(answer: Answer) -> &'static [u8]
    ensures { result.now ≡ answer_text answer }
{
    match answer {
        Answer::Keep => b"keep",
        Answer::Again => b"again",
        Answer::Close => b"close",
    }
}

/// The word for whether the demultiplexer failed.
pub(crate) fn fault_word(fault: bool) -> &'static [u8]
    ensures { result.now ≡ fault_text fault }
{
    if fault { b"yes" } else { b"no" }
}

/// Puts how a connection ended.
pub(crate) fn put_end<T: TextOut>(out: &mut T, end: EndKind)
    ensures { Puts T.stands out.old (end_text end) out.new }
{
    match end {
        EndKind::End => out.put(b"end"),
        EndKind::Partial(bytes) => put_counted(out, b"partial:", bytes),
        EndKind::Malformed(at) => put_counted(out, b"malformed:", at),
        EndKind::Failed => out.put(b"failed"),
        EndKind::NoMemory => out.put(b"nomemory"),
        EndKind::Idle => out.put(b"idle"),
        EndKind::Stopped => out.put(b"stopped"),
        EndKind::Refused => out.put(b"refused"),
    }
}

/// Puts a word and a number after it.
pub(crate) fn put_counted<T: TextOut>(out: &mut T, word: &[u8], number: u64)
    ensures { Puts T.stands out.old (word.now ++ decimal number) out.new }
{
    out.put(word);
    put_unsigned(out, number);
}

/// Puts a message in lower-case hexadecimal digits, some bytes at a time.
pub(crate) fn put_digits<T: TextOut>(out: &mut T, message: &[u8])
    ensures { Puts T.stands out.old (encode_lower message.now) out.new }
{
    let mut at = 0;
    while at < message.len() {
        let end = message.len().min(at + CHUNK);
        put_few(out, &message[at..end]);
        at = end;
    }
}

/// Puts at most 64 bytes in lower-case hexadecimal digits.
fn put_few<T: TextOut>(out: &mut T, bytes: &[u8])
    requires { length bytes.now ≤ 64 }
    ensures { Puts T.stands out.old (encode_lower bytes.now) out.new }
{
    let mut digits = [0u8; 2 * CHUNK];
    let text = &mut digits[..2 * bytes.len()];
    let _ = encode_to_slice(bytes, text);
    out.put(text);
}

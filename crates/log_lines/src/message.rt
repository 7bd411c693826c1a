//! A message's text: bytes that cannot be printed are escaped.
ghost use Rattle.std.specs.Prelude.{◌≡◌, ◌≤◌, ◌<◌, ◌+◌, ℕ, Bool, true, length, take, drop, not};
ghost use Rattle.std.specs.Prelude.{◌==◌, take_while, flat_map};
ghost use Rattle.std.specs.List.{prefix_len, list_all};
ghost use Rattle.log_lines.specs.Texts.{is_plain, hex_digit, byte_text, message_text};
ghost use Rattle.sink_buffer.specs.Texts.{Puts};

use sink_buffer::TextOut;

/// Puts the text of a message: its bytes before the first zero byte, or all of them, with escapes.
/// Most messages need none, and are put as they are after one look at their bytes.
pub fn put_message<T: TextOut>(out: &mut T, message: &[u8])
    ensures { Puts T.stands out.old (message_text message.now) out.new }
{
    if length_of_plain(message) == message.len() {
        out.put(message);
    } else {
        put_escaped(out, &message[..length_before_zero(message)]);
    }
}

/// How many bytes are looked at together: so many fit one machine instruction.
const CHUNK: usize = 16;

/// Whether all bytes are printed as themselves. It looks at all of them, without an end before
/// that, so that a compiler can test many by one instruction.
fn are_plain(bytes: &[u8]) -> bool
    ensures { result ≡ list_all is_plain bytes.now }
{
    let mut plain = true;
    for byte in bytes {
        plain = plain & is_plain(*byte);
    }
    plain
}

/// Whether no byte is zero. It looks at all of them too.
fn are_nonzero(bytes: &[u8]) -> bool
    ensures { result ≡ list_all (λ byte. not (byte == 0)) bytes.now }
{
    let mut nonzero = true;
    for byte in bytes {
        nonzero = nonzero & (*byte != 0);
    }
    nonzero
}

/// How many bytes stand before the first zero byte: found some at a time, and the last ones one by
/// one.
fn length_before_zero(message: &[u8]) -> usize
    ensures { result ≡ prefix_len (λ byte. not (byte == 0)) message.now }
{
    let mut at = 0;
    while message.len() - at >= CHUNK && are_nonzero(&message[at..at + CHUNK]) {
        at += CHUNK;
    }
    at + run_before_zero(&message[at..])
}

/// How many bytes stand before the first zero byte, found one by one.
fn run_before_zero(message: &[u8]) -> usize
    ensures length { result ≡ prefix_len (λ byte. not (byte == 0)) message.now }
    ensures within { result ≤ length message.now }
{
    message.iter().take_while(|byte| **byte != 0).count()
}

/// How many bytes at the front are printed as themselves: found some at a time, and the last ones
/// one by one.
fn length_of_plain(bytes: &[u8]) -> usize
    ensures length { result ≡ prefix_len is_plain bytes.now }
    ensures within { result ≤ length bytes.now }
{
    let mut at = 0;
    while bytes.len() - at >= CHUNK && are_plain(&bytes[at..at + CHUNK]) {
        at += CHUNK;
    }
    at + run_of_plain(&bytes[at..])
}

/// How many bytes at the front are printed as themselves, found one by one.
fn run_of_plain(bytes: &[u8]) -> usize
    ensures length { result ≡ prefix_len is_plain bytes.now }
    ensures within { result ≤ length bytes.now }
{
    bytes.iter().take_while(|byte| is_plain(**byte)).count()
}

/// Puts bytes with escapes: a run of plain bytes at a time.
fn put_escaped<T: TextOut>(out: &mut T, bytes: &[u8])
    ensures { Puts T.stands out.old (flat_map byte_text bytes.now) out.new }
{
    let mut at = 0;
    while at < bytes.len() {
        let rest = &bytes[at..];
        let plain = length_of_plain(rest);
        out.put(&rest[..plain]);
        at += plain + put_first(out, &rest[plain..]);
    }
}

/// Puts the first of some bytes, if there is one, and tells how many that are.
fn put_first<T: TextOut>(out: &mut T, bytes: &[u8]) -> usize
    ensures text { Puts T.stands out.old (flat_map byte_text (take result bytes.now)) out.new }
    ensures within { result ≤ length bytes.now }
    ensures some { 0 < length bytes.now → result ≡ 1 }
{
    match bytes {
        [] => 0,
        [byte, ..] => {
            put_byte(out, *byte);
            1
        }
    }
}

/// Puts one byte: itself, or its escape.
fn put_byte<T: TextOut>(out: &mut T, byte: u8)
    ensures { Puts T.stands out.old (byte_text byte) out.new }
{
    if is_plain(byte) {
        out.put(&[byte]);
    } else if byte == b'\\' {
        out.put(b"\\\\");
    } else {
        out.put(&[b'\\', b'x', hex_digit(byte / 16), hex_digit(byte % 16)]);
    }
}

/// Whether a byte is printed as itself.
fn is_plain(byte: u8) -> bool
    ensures { result ≡ is_plain byte }
{
    byte > 31 && byte < 127 && byte != b'\\'
}

/// A hexadecimal digit below 16, in lower case.
fn hex_digit(digit: u8) -> u8
    requires { digit < 16 }
    ensures { result ≡ hex_digit digit }
{
    if digit < 10 {
        b'0' + digit
    } else {
        b'a' - 10 + digit
    }
}

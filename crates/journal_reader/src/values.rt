//! What single words say.
ghost use Rattle.std.specs.Prelude.{◌≡◌, ◌≤◌, ◌<◌, ◌^◌, IfSome};
ghost use Rattle.std.specs.Str.Parse.{AllDigits, digits_value};
ghost use Rattle.journal_reader.specs.Reading.{number_of, signed_of, from_zero, below_zero};
ghost use Rattle.journal_reader.specs.Reading.{narrowed, narrow_of, letter_of, mask_of, kind_of};
ghost use Rattle.journal_reader.specs.Reading.{answer_of, fault_of, end_with, counted_end_of};
ghost use Rattle.journal_reader.specs.Reading.{end_of};

use crate::parts::Parts;
use ev_types::{Answer, Kind, Mask};
use log_handler::EndKind;
use text_parts::is_word;

/// The number of these decimal digits, if it is one of 64 bits.
fn read_digits(word: &[u8]) -> Option<u64>
    ensures digits { IfSome result (λ n. AllDigits 10 word.now × (digits_value 10 word.now ≡ n)) }
    ensures small { IfSome result (λ n. n < 2 ^ 64) }
    ensures beyond { result ≡ None → AllDigits 10 word.now → 2 ^ 64 ≤ digits_value 10 word.now }
{
    let mut number: u64 = 0;
    for byte in word {
        if !byte.is_ascii_digit() {
            return None;
        }
        number = number
            .checked_mul(10)?
            .checked_add(u64::from(*byte - b'0'))?;
    }
    Some(number)
}

/// A number of 64 bits in decimal digits without a leading zero.
pub(crate) fn read_number(word: &[u8]) -> Option<u64>
    ensures { result ≡ number_of word.now }
{
    if word.is_empty() {
        return None;
    }
    if word[0] == b'0' && word.len() > 1 {
        return None;
    }
    read_digits(word)
}

/// A number of 64 bits, with a minus sign if it is below 0.
#[tactic(auto, unfolding(crate::specs::Reading::signed_of))]
pub(crate) fn read_signed(word: &[u8]) -> Option<i64>
    ensures { result ≡ signed_of word.now }
{
    let [first, rest @ ..] = word else {
        return None;
    };
    if *first == b'-' {
        below_zero(read_number(rest)?)
    } else {
        from_zero(read_number(word)?)
    }
}

/// A number as one with a sign, if it has 63 bits.
fn from_zero(number: u64) -> Option<i64>
    ensures { result ≡ from_zero (Some number) }
{
    if number < 1 << 63 {
        Some(number as i64)
    } else {
        None
    }
}

/// The number that is so far below 0, if it is one of 64 bits and not 0.
fn below_zero(number: u64) -> Option<i64>
    ensures { result ≡ below_zero (Some number) }
{
    if number > 0 && number <= 1 << 63 {
        Some(-1 - (number - 1) as i64)
    } else {
        None
    }
}

/// A number of 32 bits, with a minus sign if it is below 0.
#[tactic(auto, unfolding(crate::specs::Reading::narrow_of))]
pub(crate) fn read_narrow(word: &[u8]) -> Option<i32>
    ensures { result ≡ narrow_of word.now }
{
    narrowed(read_signed(word)?)
}

/// A number as one of 32 bits, if it is one.
fn narrowed(number: i64) -> Option<i32>
    ensures { result ≡ narrowed number }
{
    if number < -2_147_483_648 || number > 2_147_483_647 {
        return None;
    }
    Some(number as i32)
}

/// Whether this letter stands here, or a hyphen; None if neither does.
fn read_letter(letter: u8, byte: u8) -> Option<bool>
    ensures { result ≡ letter_of letter byte }
{
    if byte == letter {
        Some(true)
    } else if byte == b'-' {
        Some(false)
    } else {
        None
    }
}

#[tactic(auto, unfolding(crate::specs::Reading::mask_of))]
pub(crate) fn read_mask(word: &[u8]) -> Option<Mask>
    ensures { result ≡ mask_of word.now }
{
    if word.len() != 3 {
        return None;
    }
    let read = read_letter(b'r', word[0])?;
    let write = read_letter(b'w', word[1])?;
    let except = read_letter(b'e', word[2])?;
    Some(Mask {
        read,
        write,
        except,
    })
}

#[tactic(auto, unfolding(crate::specs::Reading::kind_of))]
pub(crate) fn read_kind(word: &[u8]) -> Option<Kind>
    ensures { result ≡ kind_of word.now }
{
    if is_word(word, b"read") {
        Some(Kind::Read)
    } else if is_word(word, b"write") {
        Some(Kind::Write)
    } else if is_word(word, b"except") {
        Some(Kind::Except)
    } else {
        None
    }
}

#[tactic(auto, unfolding(crate::specs::Reading::answer_of))]
pub(crate) fn read_answer(word: &[u8]) -> Option<Answer>
    ensures { result ≡ answer_of word.now }
{
    if is_word(word, b"keep") {
        Some(Answer::Keep)
    } else if is_word(word, b"again") {
        Some(Answer::Again)
    } else if is_word(word, b"close") {
        Some(Answer::Close)
    } else {
        None
    }
}

/// Whether the demultiplexer failed.
#[tactic(auto, unfolding(crate::specs::Reading::fault_of))]
pub(crate) fn read_fault(word: &[u8]) -> Option<bool>
    ensures { result ≡ fault_of word.now }
{
    if is_word(word, b"yes") {
        Some(true)
    } else if is_word(word, b"no") {
        Some(false)
    } else {
        None
    }
}

/// How a connection ended.
#[tactic(auto, unfolding(crate::specs::Reading::end_of))]
pub(crate) fn read_end(word: &[u8]) -> Option<EndKind>
    ensures { result ≡ end_of word.now }
{
    if is_word(word, b"end") {
        Some(EndKind::End)
    } else if is_word(word, b"failed") {
        Some(EndKind::Failed)
    } else if is_word(word, b"nomemory") {
        Some(EndKind::NoMemory)
    } else if is_word(word, b"idle") {
        Some(EndKind::Idle)
    } else if is_word(word, b"stopped") {
        Some(EndKind::Stopped)
    } else if is_word(word, b"refused") {
        Some(EndKind::Refused)
    } else {
        read_counted_end(word)
    }
}

/// An end that has a count after a colon.
#[tactic(auto, unfolding(crate::specs::Reading::counted_end_of))]
fn read_counted_end(word: &[u8]) -> Option<EndKind>
    ensures { result ≡ counted_end_of word.now }
{
    let mut parts = Parts::new(word, b':');
    let name = parts.take()?;
    let count = parts.number()?;
    if parts.is_over() {
        end_with(name, count)
    } else {
        None
    }
}

fn end_with(name: &[u8], count: u64) -> Option<EndKind>
    ensures { result ≡ end_with name.now count }
{
    if is_word(name, b"partial") {
        Some(EndKind::Partial(count))
    } else if is_word(name, b"malformed") {
        Some(EndKind::Malformed(count))
    } else {
        None
    }
}

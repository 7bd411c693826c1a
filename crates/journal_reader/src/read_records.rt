//! The records of a note, read.
ghost use Rattle.std.specs.Prelude.{◌≡◌, IfOk, MatchOption, min};
ghost use Rattle.std.specs.List.{list_all};
ghost use Rattle.journal_reader.specs.Reading.{is_lower_digit, message_of, record_of, records_of};
ghost use Rattle.journal_reader.specs.Parts.{left};
ghost use Rattle.journal_reader.specs.Records.{ReadsNumbers};

use crate::parts::Parts;
use cdr_record::{Bytes, LogRecord};
use ev_types::NoMemory;
use hex::FromHexError;
use std::alloc::Global;

/// How many digits a message has at most.
const MOST_DIGITS: usize = 131_072;

/// For how many records places are reserved at most before they are read, so that a wrong count
/// takes little memory.
const MOST_RESERVED: u64 = 1_024;

/// The four numbers of a record.
#[derive(Clone, Copy)]
pub(crate) struct Numbers {
    kind: i32,
    pid: i32,
    sec: i64,
    usec: i32,
}

/// Whether these are hexadecimal digits in lower case.
fn are_lower(digits: &[u8]) -> bool
    ensures { result ≡ list_all is_lower_digit digits.now }
{
    digits.iter().all(|byte| is_lower_digit(*byte))
}

fn is_lower_digit(byte: u8) -> bool
    ensures { result ≡ is_lower_digit byte }
{
    if byte < b':' {
        b'0' <= byte
    } else {
        b'a' <= byte && byte <= b'f'
    }
}

/// A message, read into bytes of its own.
#[tactic(auto, unfolding(crate::specs::Reading::message_of))]
fn read_message(alloc: Global, digits: &[u8]) -> Result<Option<Bytes>, NoMemory>
    ensures { IfOk result (λ read. read ≡ message_of digits.now) }
{
    if digits.len() > MOST_DIGITS || !are_lower(digits) {
        return Ok(None);
    }
    match hex::decode(alloc, digits) {
        Ok(bytes) => Ok(Some(Bytes::new(bytes))),
        Err(FromHexError::OutOfMemory) => Err(NoMemory),
        Err(_) => Ok(None),
    }
}

/// The next four parts as the numbers of a record.
#[tactic(auto, unfolding(crate::specs::Reading::numbers_of))]
fn read_numbers(parts: &mut Parts) -> Option<Numbers>
    ensures { ReadsNumbers parts.old result parts.new }
{
    let kind = parts.narrow()?;
    let pid = parts.narrow()?;
    let sec = parts.signed()?;
    let usec = parts.narrow()?;
    Some(Numbers {
        kind,
        pid,
        sec,
        usec,
    })
}

/// A record.
#[tactic(auto, unfolding(crate::specs::Reading::record_of))]
fn read_record(alloc: Global, word: &[u8]) -> Result<Option<LogRecord>, NoMemory>
    ensures { IfOk result (λ read. read ≡ record_of word.now) }
{
    let mut parts = Parts::new(word, b':');
    let Some(numbers) = read_numbers(&mut parts) else {
        return Ok(None);
    };
    let Some(digits) = parts.take() else {
        return Ok(None);
    };
    if !parts.is_over() {
        return Ok(None);
    }
    let Some(text) = read_message(alloc, digits)? else {
        return Ok(None);
    };
    Ok(Some(LogRecord {
        kind: numbers.kind,
        pid: numbers.pid,
        sec: numbers.sec,
        usec: numbers.usec,
        text,
    }))
}

/// How many places to reserve for so many records, as the text says.
fn places_for(count: u64) -> usize
    ensures { result ≡ min count 1024 }
{
    count.min(MOST_RESERVED) as usize
}

/// All parts that are left, as records. The text says that there are so many: then each has one
/// place, and none is spare.
pub(crate) fn read_records(
    alloc: Global,
    count: u64,
    parts: &mut Parts,
) -> Result<Option<Vec<LogRecord>>, NoMemory>
    ensures { IfOk result (λ read. MatchOption read (records_of (left parts.old) ≡ None)
        (λ records. records_of (left parts.old) ≡ Some records.items)) }
{
    let mut records = Vec::with_capacity(alloc, places_for(count))?;
    while let Some(word) = parts.take() {
        match read_record(alloc, word)? {
            Some(entry) => records.push(entry)?,
            None => return Ok(None),
        }
    }
    Ok(Some(records))
}

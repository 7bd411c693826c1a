//! What is sent of records.
ghost use Rattle.std.specs.Prelude.{◌≡◌, ◌≤◌, ◌++◌, [], length, take, OnOk, OnErr, true};
ghost use Rattle.std.specs.Prelude.{FitsSigned};
ghost use Rattle.std.specs.Int.{cast_unsigned, w32};
ghost use Rattle.std.specs.List.{flat_map};
ghost use Rattle.byteorder.specs.Endian.{big_bytes};
ghost use Rattle.cdr_record.specs.Borrowed.{owned};
ghost use Rattle.cdr_record.specs.Spelling.{canon, canon_2};
ghost use Rattle.cdr_record.specs.declared.record.Order.TheVariants.{Big};
ghost use Rattle.forwarder.specs.Feeding.{are_short, count_of, fits_1, sent_all, sent_as};

use byteorder::{BigEndian, ByteOrder};
use cdr_record::{LogRecord, RecordList, RecordRef};
use ghost_log::{Entry, GhostLog};
use std::alloc::AllocError;
use std::marker::Model;

/// The most bytes of a message.
const LONGEST_MESSAGE: usize = 65_536;

/// The bytes of the payload of version 1 beside the message; version 2 has 4 more.
const FIELDS: usize = 20;

/// The order octet of version 2, big-endian, and the padding after it.
const VERSION_2: u32 = 0x0200_0000;

/// The entry is the record that a borrowed one is.
struct Owned;

impl<'a> Entry<RecordRef<'a>, LogRecord> for Owned {
    ghost use Rattle.cdr_record.specs.Borrowed.{owned};

    ghost entry = { λ entry. owned entry };
}

/// A list of records that keeps their canonical spellings alone, one after another. So a record
/// that is appended takes no memory of its own. A contract sees the list of the records.
#[derive(Drop)]
pub(crate) struct SpelledRecords {
    bytes: Vec<u8>,
    count: u64,
    // The records, the latest first.
    spelled: GhostLog<LogRecord>,
}

impl Model for SpelledRecords {
    ghost use Rattle.std.specs.Prelude.{List, reverse};
    ghost use Rattle.cdr_record.specs.declared.record.LogRecord.{LogRecord};
    ghost use Rattle.forwarder.specs.Feeding.{AreSpelled};

    ghost Value = { List LogRecord };

    ghost view = { λ s. reverse s.spelled };

    ghost invariant = { λ s. AreSpelled (reverse s.spelled) s.bytes.items s.count };
}

impl SpelledRecords {
    /// No records. Their spellings are to stand in this memory.
    pub(crate) fn new(memory: Vec<u8>) -> SpelledRecords
        requires { memory.items ≡ [] }
        ensures { result ≡ [] }
    {
        SpelledRecords {
            bytes: memory,
            count: 0,
            spelled: GhostLog::none(),
        }
    }

    /// The spellings, if no message is too long for a record, and how many records they are, at
    /// most `u64::MAX`.
    pub(crate) fn into_parts(self) -> (Vec<u8>, u64)
        ensures bytes { are_short self ≡ true → result.0.items ≡ sent_all self }
        ensures count { result.1 ≡ count_of self }
    {
        (self.bytes, self.count)
    }
}

impl RecordList for SpelledRecords {
    ghost records = { λ s. s };

    // No decoder gives a record whose message is too long, so nothing is spelled of one.
    fn append(&mut self, entry: RecordRef<'_>) -> Result<(), AllocError> {
        if entry.text.len() <= LONGEST_MESSAGE {
            push_spelling(&mut self.bytes, entry)?;
        }
        self.count = self.count.saturating_add(1);
        self.spelled.add::<RecordRef<'_>, Owned>(&entry);
        Ok(())
    }
}

/// Whether the seconds of a record fit the 32 bits of version 1.
fn fits_1(entry: RecordRef<'_>) -> bool
    ensures { result ≡ fits_1 (owned entry.entry) }
{
    i64::from(i32::MIN) <= entry.sec && entry.sec <= i64::from(i32::MAX)
}

/// Appends the canonical spelling of a record whose message is not too long: in version 1, or in
/// version 2 if its seconds do not fit. An `Err` leaves the bytes as they were.
fn push_spelling(out: &mut Vec<u8>, entry: RecordRef<'_>) -> Result<(), AllocError>
    requires { length entry.text.now ≤ 65536 }
    ensures ok { OnOk result (out.new.items ≡ out.old.items ++ sent_as (owned entry.entry)) }
    ensures err { OnErr result (out.new.items ≡ out.old.items) }
{
    let held = out.len();
    let pushed = if fits_1(entry) {
        push_version_1(out, entry)
    } else {
        push_version_2(out, entry)
    };
    if pushed.is_err() {
        out.truncate(held);
    }
    pushed
}

/// The 32 bits of seconds that fit these.
fn short_seconds(sec: i64) -> u32
    requires { FitsSigned w32 sec }
    ensures { result ≡ cast_unsigned w32 sec }
{
    (sec as i32).cast_unsigned()
}

/// Appends the spelling in version 1. After an `Err` some of it may stand there.
fn push_version_1(out: &mut Vec<u8>, entry: RecordRef<'_>) -> Result<(), AllocError>
    requires length { length entry.text.now ≤ 65536 }
    requires seconds { fits_1 (owned entry) ≡ true }
    ensures ok { OnOk result (out.new.items ≡ out.old.items ++ canon (owned entry.entry) Big) }
    ensures err { OnErr result (take (length out.old.items) out.new.items ≡ out.old.items) }
{
    let length = entry.text.len();
    let head = [
        0,
        (FIELDS + length) as u32,
        entry.kind.cast_unsigned(),
        entry.pid.cast_unsigned(),
        short_seconds(entry.sec),
        entry.usec.cast_unsigned(),
        length as u32,
    ];
    push_words(out, &head)?;
    out.extend_from_slice(entry.text)?;
    Ok(())
}

/// Appends the spelling in version 2. After an `Err` some of it may stand there.
fn push_version_2(out: &mut Vec<u8>, entry: RecordRef<'_>) -> Result<(), AllocError>
    requires { length entry.text.now ≤ 65536 }
    ensures ok { OnOk result (out.new.items ≡ out.old.items ++ canon_2 (owned entry.entry) Big) }
    ensures err { OnErr result (take (length out.old.items) out.new.items ≡ out.old.items) }
{
    let length = entry.text.len();
    let head = [
        VERSION_2,
        (FIELDS + 4 + length) as u32,
        entry.kind.cast_unsigned(),
        entry.pid.cast_unsigned(),
    ];
    let mut seconds = [0u8; 8];
    BigEndian::write_u64(&mut seconds, entry.sec.cast_unsigned());
    push_words(out, &head)?;
    out.extend_from_slice(&seconds)?;
    push_words(out, &[entry.usec.cast_unsigned(), length as u32])?;
    out.extend_from_slice(entry.text)?;
    Ok(())
}

/// Appends numbers, at most seven, in four bytes each.
fn push_words(out: &mut Vec<u8>, words: &[u32]) -> Result<(), AllocError>
    requires { length words.now ≤ 7 }
    ensures ok { OnOk result (out.new.items
        ≡ out.old.items ++ flat_map (big_bytes 4) words.now) }
    ensures err { OnErr result (out.new.items ≡ out.old.items) }
{
    let mut bytes = [0u8; 28];
    let length = 4 * words.len();
    BigEndian::write_u32_into(words, &mut bytes[..length]);
    out.extend_from_slice(&bytes[..length])
}

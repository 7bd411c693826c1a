//! Packed records, and the records that are left of them.
ghost use Rattle.std.specs.Prelude.{◌≡◌, ◌==◌, [], IfOk, OnOk, OnErr, length};
ghost use Rattle.std.specs.Iterator.{YieldsFirstBy, item_count};
ghost use Rattle.cdr_record.specs.Borrowed.{owned};
ghost use Rattle.packed_records.specs.Packing.{head_of, total, unpacked, whole};

use cdr_record::{LogRecord, RecordList, RecordRef};
use std::alloc::{AllocError, Global};
use std::marker::Model;

/// What a record has beside its message, and how many bytes that has.
#[derive(Clone, Copy, Debug)]
pub(crate) struct Head {
    kind: i32,
    pid: i32,
    sec: i64,
    usec: i32,
    pub(crate) length: usize,
}

impl Head {
    /// The record of this head, with this message.
    pub(crate) fn with(self, text: &[u8]) -> RecordRef<'_>
        ensures { owned result ≡ whole self text.now }
    {
        RecordRef {
            kind: self.kind,
            pid: self.pid,
            sec: self.sec,
            usec: self.usec,
            text,
        }
    }
}

/// What a record has beside its message.
pub(crate) fn head_of(entry: RecordRef<'_>) -> Head
    ensures { result ≡ head_of entry.entry }
{
    Head {
        kind: entry.kind,
        pid: entry.pid,
        sec: entry.sec,
        usec: entry.usec,
        length: entry.text.len(),
    }
}

/// Log records in order, whose messages stand one after another in one list. A contract sees the
/// list of the records.
#[derive(Debug, Drop)]
pub struct PackedRecords {
    heads: Vec<Head>,
    messages: Vec<u8>,
}

impl Model for PackedRecords {
    ghost use Rattle.std.specs.Prelude.{◌≡◌, List, length};
    ghost use Rattle.cdr_record.specs.declared.record.LogRecord.{LogRecord};
    ghost use Rattle.packed_records.specs.Packing.{unpacked, total};

    ghost Value = { List LogRecord };

    ghost view = { λ p. unpacked p.heads.items p.messages.items };

    ghost invariant = { λ p. total p.heads.items ≡ length p.messages.items };
}

impl PackedRecords {
    /// No records. It takes no memory.
    pub fn new(alloc: Global) -> PackedRecords
        ensures { result ≡ [] }
    {
        PackedRecords {
            heads: Vec::new(alloc),
            messages: Vec::new(alloc),
        }
    }

    /// No records, with room for so many whose messages have so many bytes in all.
    pub fn with_capacity(
        alloc: Global,
        records: usize,
        bytes: usize,
    ) -> Result<PackedRecords, AllocError>
        ensures { IfOk result (λ packed. packed ≡ []) }
    {
        Ok(PackedRecords {
            heads: Vec::with_capacity(alloc, records)?,
            messages: Vec::with_capacity(alloc, bytes)?,
        })
    }

    /// These records, copied.
    pub fn of(alloc: Global, records: &[LogRecord]) -> Result<PackedRecords, AllocError>
        ensures { IfOk result (λ packed. packed ≡ records.now) }
    {
        let mut packed = PackedRecords::new(alloc);
        for entry in records {
            packed.append(entry.borrowed())?;
        }
        Ok(packed)
    }

    /// How many records there are.
    pub fn len(&self) -> usize
        ensures { result ≡ length self.now }
    {
        self.heads.as_slice().len()
    }

    /// Whether there is none.
    pub fn is_empty(&self) -> bool
        ensures { result ≡ (length self.now == 0) }
    {
        self.len() == 0
    }

    /// How many bytes their messages have in all.
    pub fn message_bytes(&self) -> usize {
        self.messages.len()
    }

    /// The records, in order, with their messages borrowed.
    pub fn iter(&self) -> Unpacked<'_>
        ensures { result ≡ self.now }
    {
        Unpacked::over(self.heads.as_slice(), self.messages.as_slice())
    }
}

impl RecordList for PackedRecords {
    ghost records = { λ p. p };

    fn append(&mut self, entry: RecordRef<'_>) -> Result<(), AllocError> {
        self.heads.reserve(1)?;
        self.messages.extend_from_slice(entry.text)?;
        self.heads.push_reserved(head_of(entry));
        Ok(())
    }
}

/// The records that are left of packed ones. A contract sees the list of them.
#[derive(Drop)]
pub struct Unpacked<'a> {
    heads: &'a [Head],
    messages: &'a [u8],
}

impl<'a> Model for Unpacked<'a> {
    ghost use Rattle.std.specs.Prelude.{◌≡◌, List, length};
    ghost use Rattle.cdr_record.specs.declared.record.LogRecord.{LogRecord};
    ghost use Rattle.packed_records.specs.Packing.{unpacked, total};

    ghost Value = { List LogRecord };

    ghost view = { λ u. unpacked u.heads.now u.messages.now };

    ghost invariant = { λ u. total u.heads.now ≡ length u.messages.now };
}

impl<'a> Unpacked<'a> {
    /// No records.
    pub fn none() -> Unpacked<'a>
        ensures { result ≡ [] }
    {
        Unpacked {
            heads: &[],
            messages: &[],
        }
    }

    /// The records of these heads, whose messages are these.
    pub(crate) fn over(heads: &'a [Head], messages: &'a [u8]) -> Unpacked<'a>
        requires { total heads.now ≡ length messages.now }
        ensures { result ≡ unpacked heads.now messages.now }
    {
        Unpacked { heads, messages }
    }
}

impl<'a> Iterator for Unpacked<'a> {
    type Item = RecordRef<'a>;

    ghost next_gives = { YieldsFirstBy owned (λ left. left) };

    ghost remaining = { item_count (λ left. left) };

    fn next(&mut self) -> Option<RecordRef<'a>> {
        let (head, heads) = self.heads.split_first()?;
        let (text, messages) = self.messages.split_at(head.length);
        self.heads = heads;
        self.messages = messages;
        Some(head.with(text))
    }
}

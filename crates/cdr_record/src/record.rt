//! A log record, lists of them, and the two byte orders.

ghost use Rattle.std.specs.Prelude.{◌≡◌};
ghost use Rattle.cdr_record.specs.Borrowed.{owned};

use crate::bytes::Bytes;
use crate::record_list::RecordList;
use std::alloc::AllocError;
use std::marker::Model;

/// A byte order of CDR.
#[derive(Clone, Copy, PartialEq, Eq, Hash, Debug)]
pub enum Order {
    /// The highest byte of a number comes first.
    Big,
    /// The lowest byte of a number comes first.
    Little,
}

/// A log record (ACE's `ACE_Log_Record`).
#[derive(Debug, Drop)]
pub struct LogRecord {
    /// The type: the priority, as 4 for `LM_DEBUG`.
    pub kind: i32,
    /// The id of the process that logged it.
    pub pid: i32,
    /// The time when it was logged, in seconds.
    pub sec: i64,
    /// The microseconds of that time. Any number may stand here.
    pub usec: i32,
    /// The bytes of the message.
    pub text: Bytes,
}

impl LogRecord {
    /// The record, with its message borrowed.
    pub fn borrowed(&self) -> RecordRef<'_>
        ensures { owned result ≡ self.now }
    {
        RecordRef {
            kind: self.kind,
            pid: self.pid,
            sec: self.sec,
            usec: self.usec,
            text: self.text.as_slice(),
        }
    }
}

/// A log record whose message is borrowed, as from the bytes that spell it.
#[derive(Clone, Copy, Debug)]
pub struct RecordRef<'a> {
    /// The type: the priority, as 4 for `LM_DEBUG`.
    pub kind: i32,
    /// The id of the process that logged it.
    pub pid: i32,
    /// The time when it was logged, in seconds.
    pub sec: i64,
    /// The microseconds of that time. Any number may stand here.
    pub usec: i32,
    /// The bytes of the message.
    pub text: &'a [u8],
}

/// Log records in order. A contract sees the list of them.
#[derive(Debug, Drop)]
pub struct Records {
    items: Vec<LogRecord>,
}

impl Model for Records {
    ghost use Rattle.std.specs.Prelude.{List};
    ghost use Rattle.cdr_record.specs.declared.record.LogRecord.{LogRecord};

    ghost Value = { List LogRecord };

    ghost view = { λ r. r.items.items };
}

impl Records {
    /// The records of a vector, which is kept as it is.
    pub fn new(items: Vec<LogRecord>) -> Records
        ensures { result ≡ items.items }
    {
        Records { items }
    }

    /// The records.
    pub fn as_slice(&self) -> &[LogRecord]
        ensures { result.now ≡ self.now }
    {
        self.items.as_slice()
    }

    /// The vector of the records.
    pub fn into_vec(self) -> Vec<LogRecord>
        ensures { result.items ≡ self }
    {
        self.items
    }
}

impl RecordList for Records {
    ghost records = { λ r. r };

    fn append(&mut self, entry: RecordRef<'_>) -> Result<(), AllocError> {
        let RecordRef {
            kind,
            pid,
            sec,
            usec,
            text,
        } = entry;
        let alloc = *self.items.allocator();
        let text = Bytes::new(Vec::from_slice(alloc, text)?);
        self.items.push(LogRecord {
            kind,
            pid,
            sec,
            usec,
            text,
        })?;
        Ok(())
    }
}

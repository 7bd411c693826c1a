//! Log records that are gathered one by one.
ghost use Rattle.std.specs.Prelude.{◌≡◌, [], IfOk, map};
ghost use Rattle.cdr_record.specs.Borrowed.{owned};
ghost use Rattle.packed_records.specs.Gathering.{records_of};

use crate::packed::PackedRecords;
use crate::short::ShortRecord;
use cdr_record::{RecordList, RecordRef};
use std::alloc::{AllocError, Global};
use std::marker::Model;

/// The records that were gathered.
#[derive(Debug, Drop)]
pub enum Gathered {
    /// No record.
    None,
    /// One record alone, whose message is short.
    One(ShortRecord),
    /// Any records, packed.
    Many(PackedRecords),
}

/// How much room packed records are given first.
#[derive(Clone, Copy, Debug)]
struct Room {
    alloc: Global,
    records: usize,
    bytes: usize,
}

impl Room {
    /// These records, packed.
    fn packed(self, entries: &[RecordRef<'_>]) -> Result<PackedRecords, AllocError>
        ensures { IfOk result (λ packed. packed ≡ map owned entries.now) }
    {
        let mut packed = PackedRecords::with_capacity(self.alloc, self.records, self.bytes)?;
        for entry in entries {
            packed.append(*entry)?;
        }
        Ok(packed)
    }
}

/// Log records in order, gathered one by one: the first alone takes no memory if its message is
/// short, and more are packed. A contract sees the list of the records.
#[derive(Debug, Drop)]
pub struct GatheredRecords {
    room: Room,
    gathered: Gathered,
}

impl Model for GatheredRecords {
    ghost use Rattle.std.specs.Prelude.{List};
    ghost use Rattle.cdr_record.specs.declared.record.LogRecord.{LogRecord};
    ghost use Rattle.packed_records.specs.Gathering.{records_of};

    ghost Value = { List LogRecord };

    ghost view = { λ g. records_of g.gathered };
}

impl GatheredRecords {
    /// No records. If they are packed, they are given room for so many whose messages have so
    /// many bytes in all. It takes no memory.
    pub fn new(alloc: Global, records: usize, bytes: usize) -> GatheredRecords
        ensures { result ≡ [] }
    {
        GatheredRecords {
            room: Room {
                alloc,
                records,
                bytes,
            },
            gathered: Gathered::None,
        }
    }

    /// The records, as they were gathered.
    pub fn into_gathered(self) -> Gathered
        ensures { records_of result ≡ self }
    {
        self.gathered
    }
}

impl RecordList for GatheredRecords {
    ghost records = { λ g. g };

    fn append(&mut self, entry: RecordRef<'_>) -> Result<(), AllocError> {
        if let Gathered::Many(records) = &mut self.gathered {
            return records.append(entry);
        }
        let gathered = match &self.gathered {
            Gathered::One(first) => Gathered::Many(self.room.packed(&[first.borrowed(), entry])?),
            _ => match ShortRecord::of(entry) {
                Some(first) => Gathered::One(first),
                None => Gathered::Many(self.room.packed(&[entry])?),
            },
        };
        self.gathered = gathered;
        Ok(())
    }
}

//! What a decoder appends its records to.
ghost use Rattle.std.specs.Prelude.{◌≡◌, ◌++◌, ◌∷◌, [], List, OnOk, OnErr};
ghost use Rattle.cdr_record.specs.Borrowed.{owned};
ghost use Rattle.cdr_record.specs.declared.record.LogRecord.{LogRecord};

use crate::record::RecordRef;
use std::alloc::AllocError;

/// A list that log records are appended to.
pub trait RecordList {
    /// The records that it has, in order.
    ghost records: { Self → List LogRecord };

    /// Appends a record, whose message it copies. An `Err` says that there was no memory, and
    /// leaves the records that it had.
    fn append(&mut self, entry: RecordRef<'_>) -> Result<(), AllocError>
        ensures ok { OnOk result (records self.new ≡ records self.old ++ owned entry.entry ∷ []) }
        ensures err { OnErr result (records self.new ≡ records self.old) };
}

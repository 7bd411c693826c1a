//! One record whose message is short, in a fixed place.
ghost use Rattle.std.specs.Prelude.{◌≡◌, ◌≤◌, ◌∷◌, [], IfSome, IsSome, ◌↔◌, length};
ghost use Rattle.cdr_record.specs.Borrowed.{owned};

use crate::packed::{Head, Unpacked, head_of};
use cdr_record::RecordRef;
use std::marker::Model;
use std::slice;

/// How many bytes a short message has at most.
const MOST: usize = 104;

/// A log record whose message has at most 104 bytes, with the message in place. It takes no memory.
/// A contract sees the record.
#[derive(Debug, Drop)]
pub struct ShortRecord {
    head: Head,
    message: [u8; MOST],
}

impl Model for ShortRecord {
    ghost use Rattle.std.specs.Prelude.{◌≤◌, take};
    ghost use Rattle.cdr_record.specs.declared.record.LogRecord.{LogRecord};
    ghost use Rattle.packed_records.specs.Packing.{whole};

    ghost Value = { LogRecord };

    ghost view = { λ r. whole r.head (take r.head.length r.message) };

    ghost invariant = { λ r. r.head.length ≤ 104 };
}

impl ShortRecord {
    /// This record, copied, or None if its message has more than 104 bytes.
    pub fn of(entry: RecordRef<'_>) -> Option<ShortRecord>
        ensures record { IfSome result (λ short. short ≡ owned entry.entry) }
        ensures short { IsSome result ↔ (length entry.entry.text.now ≤ 104) }
    {
        let length = entry.text.len();
        if length > MOST {
            return None;
        }
        let mut message = [0; MOST];
        message[..length].copy_from_slice(entry.text);
        Some(ShortRecord {
            head: head_of(entry),
            message,
        })
    }

    /// The record, with its message borrowed.
    pub fn borrowed(&self) -> RecordRef<'_>
        ensures { owned result ≡ self.now }
    {
        self.head.with(self.message())
    }

    /// The record, as the one that is left.
    pub fn iter(&self) -> Unpacked<'_>
        ensures { result ≡ self.now ∷ [] }
    {
        Unpacked::over(slice::from_ref(&self.head), self.message())
    }

    /// The bytes of its message.
    fn message(&self) -> &[u8]
        ensures { result.now ≡ self.now.text }
    {
        &self.message[..self.head.length]
    }
}

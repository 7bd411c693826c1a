//! A record that stands alone.

ghost use Rattle.std.specs.Prelude.{◌≡◌};
ghost use Rattle.std.specs.Option.{option_map};
ghost use Rattle.cdr_record.specs.Borrowed.{owned};
ghost use Rattle.cdr_record.specs.Decoding as D;

use crate::grammar::{First, first_in, record_in};
use crate::record::RecordRef;

/// The record that bytes spell, if they are one record and nothing more. Its message is borrowed
/// from them.
pub fn only_record(bytes: &[u8]) -> Option<RecordRef<'_>>
    ensures { option_map owned result ≡ D.only_record bytes.now }
{
    match first_in(bytes) {
        First::One(size) if size == bytes.len() => Some(record_in(bytes)),
        _ => None,
    }
}

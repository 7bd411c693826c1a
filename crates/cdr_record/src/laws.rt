//! The laws of the grammar and of the decoder. Each function here has a law as its contract and
//! does nothing.

ghost use Rattle.cdr_record.specs.Laws as L;

/// A record stands first in a list of bytes exactly if so many bytes are there and spell one.
pub fn one_is_a_record()
    ensures { L.OneIsARecord }
{}

/// A list of bytes spells at most one record.
pub fn spells_one_record()
    ensures { L.SpellsOneRecord }
{}

/// No spelling of a record is the beginning of a longer one.
pub fn no_spelling_begins_another()
    ensures { L.NoSpellingBeginsAnother }
{}

/// A record that stands first, and a bad one, stay as more bytes come.
pub fn first_stays()
    ensures { L.FirstStays }
{}

/// Each stream is spellings of the records that it is decoded to, one after another, and a rest at
/// whose front no record stands, and it is so of no other records.
pub fn decode_cuts()
    ensures { L.DecodeCuts }
{}

/// What is encoded in version 1 is decoded again.
pub fn decodes_canon()
    ensures { L.DecodesCanon }
{}

/// What is encoded in version 2 is decoded again.
pub fn decodes_canon_2()
    ensures { L.DecodesCanon2 }
{}

/// After a bad record no byte counts.
pub fn bad_ends_reading()
    ensures { L.BadEndsReading }
{}

/// A decoder has a bad record exactly if reading all that it was fed stops at one, with its
/// place and its cause, and else as many bytes as are unfinished.
pub fn tells_stop()
    ensures { L.TellsStop }
{}

/// The records that a decoder gave for the pieces that it was fed, all in all, are those of all
/// bytes.
pub fn gives_all()
    ensures { L.GivesAll }
{}

/// How the bytes were cut into pieces does not matter.
pub fn cutting_does_not_matter()
    ensures { L.CuttingDoesNotMatter }
{}

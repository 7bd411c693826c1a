//! The whole of an input.
ghost use Rattle.std.specs.Prelude.{[]};
ghost use Rattle.ev_base.specs.Source.{SourceFacts};
ghost use Rattle.bounded_input.specs.Reading.{input_of, limit_of, Gave, ReadsWhole};

use crate::bounded::{BoundedInput, Part};
use ev_base::Source;
use std::alloc::Global;

/// How many bytes are read at once: 64 KiB.
const SIZE: usize = 65_536;

/// How reading a whole input ended.
#[derive(Clone, Copy, PartialEq, Eq, Debug)]
pub enum Ending {
    /// At the end of the input.
    Over,
    /// A read failed.
    Failed,
    /// One byte more than the limit was there.
    TooLong,
    /// There was no memory for the bytes.
    NoMemory,
}

/// What reading a whole input gave.
#[derive(Drop)]
pub struct Whole<S> {
    /// The bytes, all that the input gave; if there was no memory, some are missing.
    pub bytes: Vec<u8>,
    /// How it ended.
    pub ending: Ending,
    /// The source that was handed in.
    pub input: S,
}

/// Reads all of an input, of which `limit` bytes may be given.
pub fn read_whole<S: Source>(alloc: Global, input: S, limit: u64) -> Whole<S>
    ensures { ReadsWhole limit (S.facts input) result.bytes.items result.ending
        (S.facts result.input) }
{
    let mut bounded = BoundedInput::new(input, limit);
    let mut bytes = Vec::new(alloc);
    let ending = read_on(&mut bounded, &mut bytes);
    Whole {
        bytes,
        ending,
        input: bounded.into_input(),
    }
}

// Reads on after the bytes that were read, to the end.
fn read_on<S: Source>(bounded: &mut BoundedInput<S>, bytes: &mut Vec<u8>) -> Ending
    ensures { (i : SourceFacts) → Gave S.facts i bounded.old bytes.old.items
        → ReadsWhole (limit_of bounded.old) i bytes.new.items result
        (S.facts (input_of bounded.new)) }
{
    let mut chunk = [0; SIZE];
    loop {
        match bounded.read(&mut chunk) {
            Part::Bytes(count) => {
                if bytes.extend_from_slice(&chunk[..count]).is_err() {
                    return Ending::NoMemory;
                }
            }
            Part::Over => return Ending::Over,
            Part::Failed => return Ending::Failed,
            Part::TooLong => return Ending::TooLong,
        }
    }
}

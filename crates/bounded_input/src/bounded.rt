//! The bounded input.
ghost use Rattle.std.specs.Prelude.{◌≡◌, ◌<◌, ◌≤◌, ◌+◌, ℕ, List, [], length};
ghost use Rattle.ev_base.specs.Source.{SourceFacts};

use ev_base::{Got, Source};

/// What a read of a bounded input gave.
#[derive(Clone, Copy, PartialEq, Eq, Debug)]
pub enum Part {
    /// So many bytes, at least one, now stand at the front of the buffer.
    Bytes(usize),
    /// The end of the input.
    Over,
    /// The read failed, and the source's count of faults rose.
    Failed,
    /// As many bytes as the limit were given before, and one more was there, which was read.
    TooLong,
}

/// A source of which at most `limit` bytes are given. After them one byte more is read, to see
/// whether it is there.
#[derive(Drop)]
pub struct BoundedInput<S> {
    input: S,
    limit: u64,
    // How many bytes it gave.
    gave: u64,
    ghost within: { gave ≤ limit },
}

impl<S: Source> BoundedInput<S> {
    ghost use Rattle.bounded_input.specs.Reading.{input_of, limit_of, count_of, Gave, Reads};
    ghost use Rattle.bounded_input.specs.Reading.{Counts};

    /// The first `limit` bytes of this source.
    pub fn new(input: S, limit: u64) -> BoundedInput<S>
        ensures gave { Gave S.facts (S.facts input) result [] }
        ensures input { input_of result ≡ input }
        ensures limit { limit_of result ≡ limit }
    {
        BoundedInput {
            input,
            limit,
            gave: 0,
        }
    }

    /// How many bytes it gave.
    pub fn count(&self) -> u64
        ensures { result ≡ count_of self.now }
    {
        self.gave
    }

    /// Reads into a buffer that is not empty. After another answer than `Bytes` it is to be read no
    /// more.
    pub fn read(&mut self, buffer: &mut [u8]) -> Part
        requires room { 0 < length buffer.old }
        ensures reads { (i : SourceFacts) (taken : List ℕ) → Gave S.facts i self.old taken
            → Reads S.facts i taken buffer.new result self.new }
        ensures counts { Counts self.old buffer.new result self.new }
        ensures limit { limit_of self.new ≡ limit_of self.old }
    {
        let room = self.limit - self.gave;
        if room == 0 {
            return self.look_behind();
        }
        let count = room.min(buffer.len() as u64) as usize;
        self.read_part(&mut buffer[..count])
    }

    // Reads no more bytes than may still be given.
    fn read_part(&mut self, buffer: &mut [u8]) -> Part
        requires some { 0 < length buffer.old }
        requires room { count_of self.old + length buffer.old ≤ limit_of self.old }
        ensures reads { (i : SourceFacts) (taken : List ℕ) → Gave S.facts i self.old taken
            → Reads S.facts i taken buffer.new result self.new }
        ensures counts { Counts self.old buffer.new result self.new }
        ensures limit { limit_of self.new ≡ limit_of self.old }
    {
        match self.input.read(buffer) {
            Got::Bytes(count) => {
                self.gave += count as u64;
                Part::Bytes(count)
            }
            Got::Over => Part::Over,
            Got::Failed => Part::Failed,
            Got::Pause => unreachable!(),
        }
    }

    // Looks whether a byte stands after the last that may be given.
    fn look_behind(&mut self) -> Part
        requires full { count_of self.old ≡ limit_of self.old }
        ensures reads { (i : SourceFacts) (taken buffer : List ℕ) → Gave S.facts i self.old taken
            → Reads S.facts i taken buffer result self.new }
        ensures counts { (buffer : List ℕ) → Counts self.old buffer result self.new }
        ensures limit { limit_of self.new ≡ limit_of self.old }
    {
        let mut behind = [0];
        match self.input.read(&mut behind) {
            Got::Bytes(_) => Part::TooLong,
            Got::Over => Part::Over,
            Got::Failed => Part::Failed,
            Got::Pause => unreachable!(),
        }
    }

    /// The source.
    pub fn into_input(self) -> S
        ensures { result ≡ input_of self }
    {
        self.input
    }
}

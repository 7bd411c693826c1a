//! The part of an input that was read and is not cut into records yet.
ghost use Rattle.std.specs.Prelude.{◌≡◌, ◌≤◌, ◌<◌, ◌+◌, ◌++◌, ◌-◌, ℕ, List, [], length, drop, take};
ghost use Rattle.std.specs.Prelude.{IfOk, IfErr};
ghost use Rattle.ev_base.specs.Source.{SourceFacts};
ghost use Rattle.bounded_input.specs.Reading.{Gave, input_of, limit_of, count_of};

use bounded_input::{BoundedInput, Part};
use ev_base::{NoMemory, Source};
use std::alloc::Global;

/// How many bytes are read at once: 64 KiB.
const SIZE: usize = 65_536;

/// What reading on did.
#[derive(Clone, Copy, PartialEq, Eq, Debug)]
pub(crate) enum Filled {
    /// There are more bytes.
    More,
    /// The end of the input was found.
    Over,
    /// A read failed.
    Failed,
    /// One byte more than the limit was there.
    TooLong,
    /// There was no memory for the bytes that were read.
    NoMemory,
}

/// The bytes of an input that were read and are not cut yet, and where they stand.
#[derive(Drop)]
pub(crate) struct Window<S> {
    pub(crate) input: BoundedInput<S>,
    // The bytes from `at` on are not cut yet.
    pub(crate) held: Vec<u8>,
    pub(crate) at: usize,
    pub(crate) chunk: [u8; SIZE],
    ghost within: { at ≤ length held.items },
}

impl<S: Source> Window<S> {
    ghost use Rattle.cmd_display.specs.Windows.{rest_of, Windows, Fills, Grows};

    /// A window of which nothing was read.
    pub(crate) fn new(alloc: Global, input: S, limit: u64) -> Window<S>
        ensures none { Windows S.facts (S.facts input) result [] }
        ensures rest { rest_of result ≡ [] }
        ensures limit { limit_of result.input ≡ limit }
    {
        Window {
            input: BoundedInput::new(input, limit),
            held: Vec::new(alloc),
            at: 0,
            chunk: [0; SIZE],
        }
    }

    /// The bytes that are not cut yet.
    pub(crate) fn rest(&self) -> &[u8]
        ensures { result.now ≡ rest_of self.now }
    {
        &self.held[self.at..]
    }

    /// How many bytes were cut.
    pub(crate) fn place(&self) -> u64
        ensures { result ≡ count_of self.now.input - length (rest_of self.now) }
    {
        let left = self.rest().len() as u64;
        self.input.count().saturating_sub(left)
    }

    /// Cuts so many bytes off.
    pub(crate) fn skip(&mut self, count: usize)
        requires { count ≤ length (rest_of self.old) }
        ensures rest { rest_of self.new ≡ drop count (rest_of self.old) }
        ensures windows { (i : SourceFacts) (cut : List ℕ) → Windows S.facts i self.old cut
            → Windows S.facts i self.new (cut ++ take count (rest_of self.old)) }
        ensures input { self.new.input ≡ self.old.input }
    {
        self.at += count;
    }

    /// Reads on, after the bytes that are not cut yet. After another answer than `More` it is to
    /// be read no more.
    pub(crate) fn fill(&mut self) -> Filled
        ensures fills { (i : SourceFacts) (cut : List ℕ) → Windows S.facts i self.old cut
            → Fills S.facts i cut self.old result self.new }
        ensures grows { Grows self.old result self.new }
        ensures limit { limit_of self.new.input ≡ limit_of self.old.input }
    {
        self.move_to_front();
        match self.input.read(&mut self.chunk) {
            Part::Bytes(count) => {
                match self.held.extend_from_slice(&self.chunk[..count]) {
                    Ok(()) => Filled::More,
                    Err(_) => Filled::NoMemory,
                }
            }
            Part::Over => Filled::Over,
            Part::Failed => Filled::Failed,
            Part::TooLong => Filled::TooLong,
        }
    }

    // Moves what is not cut yet to the front.
    fn move_to_front(&mut self)
        ensures rest { rest_of self.new ≡ rest_of self.old }
        ensures front { self.new.at ≡ 0 }
        ensures same { self.new.input ≡ self.old.input }
    {
        let left = self.held.len() - self.at;
        self.held.copy_within(self.at.., 0);
        self.held.truncate(left);
        self.at = 0;
    }

    /// The source.
    pub(crate) fn into_input(self) -> S
        ensures { result ≡ input_of self.input }
    {
        self.input.into_input()
    }
}

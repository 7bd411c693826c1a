//! The parts of a text between separators, one after another.
ghost use Rattle.std.specs.Prelude.{◌≡◌, ◌∷◌, [], MatchOption};
ghost use Rattle.text_parts.specs.Parts.{parts};
ghost use Rattle.journal_reader.specs.Reading.{no_more, number_of, signed_of, narrow_of, mask_of};
ghost use Rattle.journal_reader.specs.Reading.{kind_of, answer_of, fault_of, end_of};
ghost use Rattle.journal_reader.specs.Parts.{left, Reads};

use crate::values::{
    read_answer, read_end, read_fault, read_kind, read_mask, read_narrow, read_number, read_signed,
};
use ev_types::{Answer, Kind, Mask};
use log_handler::EndKind;
use text_parts::cut;

/// The parts of a text that are left to be read.
#[derive(Drop)]
pub(crate) struct Parts<'a> {
    rest: Option<&'a [u8]>,
    separator: u8,
}

impl<'a> Parts<'a> {
    /// All parts of a text.
    pub(crate) fn new(text: &'a [u8], separator: u8) -> Parts<'a>
        ensures { left result ≡ parts separator text.now }
    {
        Parts {
            rest: Some(text),
            separator,
        }
    }

    /// The next part, or None if none is left.
    pub(crate) fn take(&mut self) -> Option<&'a [u8]>
        ensures { MatchOption result (left self.old ≡ [])
            (λ part. left self.old ≡ part.now ∷ left self.new) }
    {
        let rest = self.rest?;
        let (part, behind) = cut(rest, self.separator);
        self.rest = behind;
        Some(part)
    }

    /// Whether no part is left.
    pub(crate) fn is_over(&self) -> bool
        ensures { result ≡ no_more (left self.now) }
    {
        self.rest.is_none()
    }

    /// The next part as a number of 64 bits without a sign.
    pub(crate) fn number(&mut self) -> Option<u64>
        ensures { Reads number_of self.old result self.new }
    {
        read_number(self.take()?)
    }

    /// The next part as a number of 64 bits.
    pub(crate) fn signed(&mut self) -> Option<i64>
        ensures { Reads signed_of self.old result self.new }
    {
        read_signed(self.take()?)
    }

    /// The next part as a number of 32 bits.
    pub(crate) fn narrow(&mut self) -> Option<i32>
        ensures { Reads narrow_of self.old result self.new }
    {
        read_narrow(self.take()?)
    }

    /// The next part as a mask.
    pub(crate) fn mask(&mut self) -> Option<Mask>
        ensures { Reads mask_of self.old result self.new }
    {
        read_mask(self.take()?)
    }

    /// The next part as a kind.
    pub(crate) fn kind(&mut self) -> Option<Kind>
        ensures { Reads kind_of self.old result self.new }
    {
        read_kind(self.take()?)
    }

    /// The next part as an answer.
    pub(crate) fn answer(&mut self) -> Option<Answer>
        ensures { Reads answer_of self.old result self.new }
    {
        read_answer(self.take()?)
    }

    /// The next part as whether the demultiplexer failed.
    pub(crate) fn fault(&mut self) -> Option<bool>
        ensures { Reads fault_of self.old result self.new }
    {
        read_fault(self.take()?)
    }

    /// The next part as how a connection ended.
    pub(crate) fn end(&mut self) -> Option<EndKind>
        ensures { Reads end_of self.old result self.new }
    {
        read_end(self.take()?)
    }
}

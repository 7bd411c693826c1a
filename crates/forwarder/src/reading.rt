//! What is read, and what is to be sent of it.
ghost use Rattle.std.specs.Prelude.{◌≡◌, ◌≤◌, [], length, IfOk};
ghost use Rattle.cdr_record.specs.Feeding.{fresh};
ghost use Rattle.forwarder.specs.Waiting.{most_held};
ghost use Rattle.forwarder.specs.Readings.{CompletesSo, stop_of, stop_at_end};

use crate::note::ForwardEnding;
use crate::spelling::SpelledRecords;
use cdr_record::{Bad, Decoder};
use ev_base::NoMemory;
use std::alloc::Global;
use std::marker::Model;

/// A decoder that was fed all that was read. A contract sees the decoder.
#[derive(Drop)]
pub(crate) struct Reading {
    decoder: Decoder,
}

impl Model for Reading {
    ghost use Rattle.cdr_record.specs.Decoding.{DecoderState};
    ghost use Rattle.forwarder.specs.Readings.{StandsForSome};

    ghost Value = { DecoderState };

    ghost view = { λ r. r.decoder };

    ghost invariant = { λ r. StandsForSome r.decoder };
}

/// What a piece completed.
#[derive(Drop)]
pub(crate) struct Completed {
    /// The canonical spellings of the records that are whole now, one after another.
    pub(crate) bytes: Vec<u8>,
    /// How many records these are.
    pub(crate) records: u64,
    /// How it ends once these are sent, if a bad record came.
    pub(crate) stop: Option<ForwardEnding>,
}

impl Reading {
    /// Nothing was read.
    pub(crate) fn new(alloc: Global) -> Reading
        ensures { result ≡ fresh }
    {
        Reading {
            decoder: Decoder::new(alloc),
        }
    }

    /// Takes the next piece, of at most 4,096 bytes. What it completes is spelled into this memory.
    /// After `NoMemory` nothing is said of the decoder.
    pub(crate) fn take(&mut self, piece: &[u8], memory: Vec<u8>) -> Result<Completed, NoMemory>
        requires few { length piece.now ≤ 4096 }
        requires none { memory.items ≡ [] }
        ensures completes { IfOk result (λ came. CompletesSo self.old piece.now came self.new) }
        ensures few { IfOk result (λ came. length came.bytes.items ≤ most_held) }
    {
        let mut list = SpelledRecords::new(memory);
        let bad = self.decoder.feed_to(piece, &mut list)?;
        let (bytes, records) = list.into_parts();
        Ok(Completed {
            bytes,
            records,
            stop: stop_of(bad),
        })
    }

    /// How it ends at the end of the input: there, or at a record that is unfinished.
    pub(crate) fn stop_at_end(&self) -> ForwardEnding
        ensures { result ≡ stop_at_end self.now }
    {
        if self.decoder.rest_len() == 0 {
            ForwardEnding::End
        } else {
            ForwardEnding::BadRecord {
                at: self.decoder.offset(),
            }
        }
    }
}

/// How it ends if a bad record came.
fn stop_of(bad: Option<Bad>) -> Option<ForwardEnding>
    ensures { result ≡ stop_of bad }
{
    match bad {
        Some(bad) => Some(ForwardEnding::BadRecord { at: bad.at }),
        None => None,
    }
}

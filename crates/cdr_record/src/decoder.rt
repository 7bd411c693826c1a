//! The decoder of a stream of records that comes in any pieces.

ghost use Rattle.std.specs.Prelude.{◌≡◌, ◌≤◌, ◌<◌, ◌-◌, ◌*◌, ◌++◌, [], None, IsSome, IfOk, IsOkAnd};
ghost use Rattle.std.specs.Prelude.{OnOk, OnErr, ℕ, List, length, take, drop, min};
ghost use Rattle.cdr_record.specs.Grammar as G;
ghost use Rattle.cdr_record.specs.Decoding as D;
ghost use Rattle.cdr_record.specs.Feeding.{Feeds, FeedsTo, fresh};
ghost use Rattle.cdr_record.specs.declared.grammar.First.TheVariants as first;

use crate::bad::Bad;
use crate::grammar::{First, HEADER, SHORTEST_RECORD, first_in, payload_length, record_in};
use crate::record::Records;
use crate::record_list::RecordList;
use ev_types::NoMemory;
use std::alloc::{AllocError, Global};
use std::marker::Model;

/// What a feed gives.
#[derive(Debug, Drop)]
pub struct Fed {
    /// The records that are whole now and were not before, in order.
    pub records: Records,
    /// The bad record at which the stream stops, if it has come.
    pub bad: Option<Bad>,
}

/// Decodes a stream of records that comes in any pieces. It keeps the bytes of an unfinished
/// record, and a bad record once there is one: from then on each feed gives no records and the same
/// bad record.
#[derive(Debug, Drop)]
pub struct Decoder {
    rest: Vec<u8>,
    offset: u64,
    bad: Option<Bad>,
}

impl Model for Decoder {
    ghost use Rattle.std.specs.Prelude.{◌≡◌};
    ghost use Rattle.cdr_record.specs.Grammar.{first_of};
    ghost use Rattle.cdr_record.specs.Decoding.{DecoderState};
    ghost use Rattle.cdr_record.specs.declared.grammar.First.TheVariants.{More};

    ghost Value = { DecoderState };

    ghost view = { λ d. record { offset = d.offset; rest = d.rest.items; bad = d.bad } };

    // What is kept is never a whole record, nor the beginning of a bad one.
    ghost invariant = { λ d. first_of d.rest.items ≡ More };
}

impl Decoder {
    /// A decoder that was fed nothing.
    pub fn new(alloc: Global) -> Decoder
        ensures fresh { result ≡ fresh }
        ensures stands { D.StandsFor result [] }
    {
        Decoder {
            rest: Vec::new(alloc),
            offset: 0,
            bad: None,
        }
    }

    /// Takes the next piece of the stream. An `Err` leaves the decoder as it was.
    pub fn feed(&mut self, piece: &[u8]) -> Result<Fed, NoMemory>
        ensures ok { IfOk result (λ fed. Feeds self.old piece.now fed self.new) }

        // After a bad record there are no records and the same bad record again.
        ensures stays_bad { IsSome self.old.bad → IsOkAnd result
            (λ fed. (fed.records ≡ []) × (fed.bad ≡ self.old.bad)) }
        ensures err { OnErr result (self.new ≡ self.old) }
    {
        let alloc = *self.rest.allocator();
        if self.bad.is_some() {
            return Ok(Fed {
                records: Records::new(Vec::new(alloc)),
                bad: self.bad,
            });
        }
        let items = Vec::with_capacity(alloc, most_records(piece.len()))?;
        let mut records = Records::new(items);
        let bad = self.feed_to(piece, &mut records)?;
        Ok(Fed { records, bad })
    }

    /// Takes the next piece of the stream as `feed` does, and appends the records that are whole
    /// now to a list. It gives the bad record at which the stream stops, if that has come. An `Err`
    /// leaves the decoder as it was; the list may have some records more.
    pub fn feed_to<L: RecordList>(
        &mut self,
        piece: &[u8],
        list: &mut L,
    ) -> Result<Option<Bad>, NoMemory>
        ensures ok { IfOk result (λ bad. FeedsTo self.old piece.now (L.records list.old) bad
            (L.records list.new) self.new) }
        ensures stays_bad { IsSome self.old.bad → (result ≡ Ok self.old.bad)
            × (L.records list.new ≡ L.records list.old) }
        ensures err { OnErr result (self.new ≡ self.old) }
    {
        let stopped = self.bad;
        if stopped.is_some() {
            return Ok(stopped);
        }
        let held = self.rest.len();
        match take_piece(&mut self.rest, list, piece) {
            Ok(step) => {
                self.offset = self.offset.saturating_add(step.taken);
                self.bad = bad_at(self.offset, step.first);
                Ok(self.bad)
            }
            Err(AllocError) => {
                self.rest.truncate(held);
                Err(NoMemory)
            }
        }
    }

    /// How many bytes of an unfinished record the decoder keeps: 0 if the stream so far ends
    /// with a record, and after a bad record.
    pub fn rest_len(&self) -> u64
        ensures { result ≡ length self.now.rest }
    {
        self.rest.len() as u64
    }

    /// How many bytes of the stream the records took that were given: the place where the
    /// unfinished record or the bad one begins. It is `u64::MAX` if there are more than that.
    pub fn offset(&self) -> u64
        ensures { result ≡ self.now.offset }
    {
        self.offset
    }
}

/// How many records a piece of so many bytes completes at most, and one more: an unfinished one,
/// those that stand in it whole, and what a caller may add. A list with room for so many does not
/// grow.
fn most_records(bytes: usize) -> usize
    ensures { bytes < 28 * result }
{
    (bytes / SHORTEST_RECORD).saturating_add(2)
}

/// How many bytes a step took for whole records, at most `u64::MAX`, and what stands first after
/// them.
#[derive(Clone, Copy)]
struct Step {
    taken: u64,
    first: First,
}

/// The bad record at a place, if this stands first there.
fn bad_at(at: u64, first: First) -> Option<Bad>
    ensures { result ≡ D.bad_at at first }
{
    match first {
        First::Bad(why) => Some(Bad { at, why }),
        _ => None,
    }
}

/// Takes the records off the front of a list of bytes while one stands there. Gives what is left
/// after them, and what stands first there.
fn take_records<'a, L: RecordList>(
    list: &mut L,
    bytes: &'a [u8],
) -> Result<(&'a [u8], First), AllocError>
    ensures left { IfOk result (λ found. found.0.now ≡ D.left_of bytes.now) }
    ensures first { IfOk result (λ found. found.1 ≡ G.first_of (D.left_of bytes.now)) }
    ensures records { OnOk result (L.records list.new ≡ L.records list.old
        ++ D.records_of bytes.now) }
{
    let mut left = bytes;
    'records: loop {
        match first_in(left) {
            First::One(size) => {
                list.append(record_in(left))?;
                left = &left[size..];
            }
            first => return Ok((left, first)),
        }
    }
}

/// Makes `left` all that the rest has. An `Err` leaves it as it was.
fn replace(rest: &mut Vec<u8>, left: &[u8]) -> Result<(), AllocError>
    ensures ok { OnOk result (rest.new.items ≡ left.now) }
    ensures err { OnErr result (rest.new.items ≡ rest.old.items) }
{
    rest.reserve(left.len().saturating_sub(rest.len()))?;
    rest.clear();
    rest.extend_from_slice(left).unwrap();
    Ok(())
}

/// Takes a piece that begins where a record does. What the rest has is done with.
fn take_whole<L: RecordList>(
    rest: &mut Vec<u8>,
    list: &mut L,
    piece: &[u8],
) -> Result<Step, AllocError>
    ensures taken { IfOk result (λ step. step.taken ≡ D.told (D.taken_of piece.now)) }
    ensures first { IfOk result (λ step. step.first ≡ G.first_of (D.left_of piece.now)) }
    ensures records { OnOk result (L.records list.new ≡ L.records list.old
        ++ D.records_of piece.now) }
    ensures rest { OnOk result (rest.new.items ≡ D.kept_of (D.left_of piece.now)
        (G.first_of (D.left_of piece.now))) }
    ensures err { OnErr result (rest.new.items ≡ rest.old.items) }
{
    let (left, first) = take_records(list, piece)?;
    let taken = piece.len() - left.len();
    let kept = match first {
        First::Bad(_) => &left[..0],
        _ => left,
    };
    replace(rest, kept)?;
    Ok(Step {
        taken: taken as u64,
        first,
    })
}

/// Moves bytes of a piece to the rest until that has `wanted`, or the piece ends, and says how
/// many.
fn fill(rest: &mut Vec<u8>, piece: &[u8], wanted: usize) -> Result<usize, AllocError>
    ensures count { IfOk result (λ n. n ≡ min (wanted - length rest.old.items) (length piece.now)) }
    ensures ok { IfOk result (λ n. rest.new.items ≡ rest.old.items ++ take n piece.now) }
    ensures err { OnErr result (rest.new.items ≡ rest.old.items) }
{
    let count = wanted.saturating_sub(rest.len()).min(piece.len());
    rest.extend_from_slice(&piece[..count])?;
    Ok(count)
}

/// Moves bytes of a piece to an unfinished record until it is known what stands first there, or
/// the piece ends. Says how many, and what stands first.
fn complete(rest: &mut Vec<u8>, piece: &[u8]) -> Result<(usize, First), AllocError>
    requires { G.first_of rest.old.items ≡ first.More }
    ensures within { IfOk result (λ found. found.0 ≤ length piece.now) }
    ensures moved { IfOk result (λ found. rest.new.items
        ≡ rest.old.items ++ take found.0 piece.now) }
    ensures first { IfOk result (λ found. found.1 ≡ G.first_of rest.new.items) }
    ensures all { IfOk result (λ found. found.1 ≡ first.More → found.0 ≡ length piece.now) }
    ensures one { IfOk result (λ found. (n : ℕ) → found.1 ≡ first.One n
        → n ≡ length rest.new.items) }
    ensures err { OnErr result (take (length rest.old.items) rest.new.items ≡ rest.old.items) }
{
    let header = fill(rest, piece, HEADER)?;
    if rest.len() < HEADER {
        return Ok((header, first_in(rest)));
    }
    match first_in(rest) {
        First::More => {
            let whole = HEADER + payload_length(rest);
            let body = fill(rest, &piece[header..], whole)?;
            Ok((header + body, first_in(rest)))
        }
        first => Ok((header, first)),
    }
}

/// Takes the next piece of a stream of which the rest is left.
fn take_piece<L: RecordList>(
    rest: &mut Vec<u8>,
    list: &mut L,
    piece: &[u8],
) -> Result<Step, AllocError>
    requires { G.first_of rest.old.items ≡ first.More }
    ensures taken { IfOk result (λ step. step.taken ≡ D.told
        (D.taken_of (rest.old.items ++ piece.now))) }
    ensures first { IfOk result (λ step. step.first ≡ G.first_of
        (D.left_of (rest.old.items ++ piece.now))) }
    ensures records { OnOk result (L.records list.new ≡ L.records list.old
        ++ D.records_of (rest.old.items ++ piece.now)) }
    ensures rest { OnOk result (rest.new.items ≡ D.kept_of (D.left_of (rest.old.items ++ piece.now))
        (G.first_of (D.left_of (rest.old.items ++ piece.now)))) }
    ensures err { OnErr result (take (length rest.old.items) rest.new.items ≡ rest.old.items) }
{
    if rest.is_empty() {
        return take_whole(rest, list, piece);
    }
    let (moved, first) = complete(rest, piece)?;
    match first {
        First::One(size) => {
            list.append(record_in(rest))?;
            let step = take_whole(rest, list, &piece[moved..])?;
            Ok(Step {
                taken: step.taken.saturating_add(size as u64),
                first: step.first,
            })
        }
        First::Bad(_) => {
            rest.clear();
            Ok(Step { taken: 0, first })
        }
        First::More => Ok(Step { taken: 0, first }),
    }
}

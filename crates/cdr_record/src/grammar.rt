//! What stands first in a list of bytes, and the record that stands there.

ghost use Rattle.std.specs.Prelude.{◌≡◌, ◌≤◌, ◌<◌, ◌+◌, ℕ, length, take, drop};
ghost use Rattle.std.specs.Int.{cast_signed, w32};
ghost use Rattle.cdr_record.specs.Borrowed.{owned};
ghost use Rattle.cdr_record.specs.Grammar as G;
ghost use Rattle.cdr_record.specs.declared.grammar.First.TheVariants as first;

use crate::bad::BadWhy;
use crate::record::{Order, RecordRef};
use byteorder::{BigEndian, ByteOrder, LittleEndian};

/// The bytes of a header.
pub(crate) const HEADER: usize = 8;

/// The bytes of a record of version 1 without a message.
pub(crate) const SHORTEST_RECORD: usize = 28;

/// The most bytes of a message.
pub(crate) const LONGEST_MESSAGE: usize = 65_536;

/// What stands first in a list of bytes.
#[derive(Clone, Copy, PartialEq, Eq, Debug)]
pub enum First {
    /// More bytes are needed to know.
    More,
    /// No record can stand there.
    Bad(BadWhy),
    /// One record of so many bytes.
    One(usize),
}

/// The byte order that an order octet names.
#[tactic(auto, unfolding(crate::specs::Grammar::order_of))]
pub(crate) fn order_of(octet: u8) -> Order
    ensures { result ≡ G.order_of octet }
{
    if octet % 2 == 0 {
        Order::Big
    } else {
        Order::Little
    }
}

/// How many bytes the seconds take after an order octet.
#[tactic(auto, unfolding(crate::specs::Grammar::seconds_size, crate::specs::Grammar::seconds_width))]
pub(crate) fn seconds_size(octet: u8) -> usize
    ensures size { result ≡ G.seconds_size octet }
    ensures least { 4 ≤ result }
    ensures most { result ≤ 8 }
{
    if octet < 2 { 4 } else { 8 }
}

/// The unsigned number in the first four bytes.
#[tactic(auto, unfolding(crate::specs::Grammar::number))]
fn word(order: Order, bytes: &[u8]) -> u32
    requires { 4 ≤ length bytes.now }
    ensures { result ≡ G.number order 4 bytes.now }
{
    match order {
        Order::Big => BigEndian::read_u32(bytes),
        Order::Little => LittleEndian::read_u32(bytes),
    }
}

/// The unsigned number in the first eight bytes.
#[tactic(auto, unfolding(crate::specs::Grammar::number))]
fn double_word(order: Order, bytes: &[u8]) -> u64
    requires { 8 ≤ length bytes.now }
    ensures { result ≡ G.number order 8 bytes.now }
{
    match order {
        Order::Big => BigEndian::read_u64(bytes),
        Order::Little => LittleEndian::read_u64(bytes),
    }
}

/// The payload's length, as the header says.
pub(crate) fn payload_length(bytes: &[u8]) -> usize
    requires { 8 ≤ length bytes.now }
    ensures length { result ≡ G.payload_length bytes.now }
    ensures fits { result < 4294967296 }
{
    word(order_of(bytes[0]), &bytes[4..]) as usize
}

/// The message's length, as the field before it says.
fn message_length(bytes: &[u8]) -> usize
    requires { G.HasFields bytes.now }
    ensures length { result ≡ G.message_length bytes.now }
    ensures fits { result < 4294967296 }
{
    let place = 20 + seconds_size(bytes[0]);
    word(order_of(bytes[0]), &bytes[place..]) as usize
}

/// What stands first in a list of bytes. Nothing is asked of a byte before it is there, and a
/// record that stands there, or a bad one, stays as more bytes come.
#[tactic(auto, unfolding(crate::specs::Grammar::first_of))]
pub fn first_in(bytes: &[u8]) -> First
    ensures { result ≡ G.first_of bytes.now }
{
    if bytes.is_empty() {
        return First::More;
    }
    if bytes[0] > 3 {
        return First::Bad(BadWhy::Order);
    }
    if bytes.len() < HEADER {
        return First::More;
    }
    let fields = 16 + seconds_size(bytes[0]);
    let payload = payload_length(bytes);
    if payload < fields || payload > fields + LONGEST_MESSAGE {
        return First::Bad(BadWhy::Length);
    }
    if bytes.len() < HEADER + payload {
        return First::More;
    }
    if message_length(bytes) > payload - fields {
        return First::Bad(BadWhy::Message);
    }
    First::One(HEADER + payload)
}

/// The seconds of the record at the front.
#[tactic(auto, unfolding(crate::specs::Grammar::seconds_size, crate::specs::Grammar::seconds_width))]
fn seconds_in(bytes: &[u8]) -> i64
    requires { G.HasFields bytes.now }
    ensures { result ≡ G.seconds_in bytes.now }
{
    let order = order_of(bytes[0]);
    if bytes[0] < 2 {
        i64::from(word(order, &bytes[16..]).cast_signed())
    } else {
        double_word(order, &bytes[16..]).cast_signed()
    }
}

/// The signed number in the four bytes at a place.
fn signed_at(bytes: &[u8], place: usize) -> i32
    requires header { 8 ≤ length bytes.now }
    requires room { place + 4 ≤ length bytes.now }
    ensures { result ≡ cast_signed w32 (G.word_at place bytes.now) }
{
    word(order_of(bytes[0]), &bytes[place..]).cast_signed()
}

/// The message of the record at the front.
fn message_in(bytes: &[u8]) -> &[u8]
    requires fields { 8 + G.fields_length bytes.now ≤ length bytes.now }
    requires message { 8 + G.fields_length bytes.now + G.message_length bytes.now
        ≤ length bytes.now }
    ensures { result.now ≡ take (G.message_length bytes.now)
        (drop (24 + G.seconds_size (G.octet bytes.now)) bytes.now) }
{
    let start = 24 + seconds_size(bytes[0]);
    let length = message_length(bytes);
    let behind = &bytes[start..];
    &behind[..length]
}

/// The record at the front, with its message borrowed.
pub(crate) fn record_in(bytes: &[u8]) -> RecordRef<'_>
    requires fields { 8 + G.fields_length bytes.now ≤ length bytes.now }
    requires message { 8 + G.fields_length bytes.now + G.message_length bytes.now
        ≤ length bytes.now }
    ensures { owned result ≡ G.record_in bytes.now }
{
    RecordRef {
        kind: signed_at(bytes, 8),
        pid: signed_at(bytes, 12),
        sec: seconds_in(bytes),
        usec: signed_at(bytes, 16 + seconds_size(bytes[0])),
        text: message_in(bytes),
    }
}

//! Worked records: what they are read as, whole and in pieces, and what is written. The bytes and
//! the values are those of the format's description, and none was taken from the program's own
//! output.

use crate::asserts::assert_in;
use cdr_record::*;
use std::alloc::Global;
use std::test::Fail;

// The record (4, 7, 1, 2, "hi") in version 1, big-endian.
const BASE: &[u8] = b"\0\0\0\0\0\0\0\x16\0\0\0\x04\0\0\0\x07\0\0\0\x01\0\0\0\x02\0\0\0\x02hi";
// Its front.
const BASE_FRONT: &[u8] = b"\0\0\0\0\0\0\0\x16\0\0\0\x04\0\0\0\x07\0\0\0\x01\0\0\0\x02\0\0\0\x02h";
// The same, little-endian, with padding that is not zero.
const LITTLE: &[u8] =
    b"\x01\xaa\xbb\xcc\x16\0\0\0\x04\0\0\0\x07\0\0\0\x01\0\0\0\x02\0\0\0\x02\0\0\0hi";
// The same, with the padding that an encoder writes.
const LITTLE_WRITTEN: &[u8] =
    b"\x01\0\0\0\x16\0\0\0\x04\0\0\0\x07\0\0\0\x01\0\0\0\x02\0\0\0\x02\0\0\0hi";
// With the closing NUL of a C string in the message.
const WITH_NUL: &[u8] = b"\0\0\0\0\0\0\0\x17\0\0\0\x04\0\0\0\x07\0\0\0\x01\0\0\0\x02\0\0\0\x03hi\0";
// With eight bytes of slack.
const WITH_SLACK: &[u8] = b"\0\0\0\0\0\0\0\x1e\0\0\0\x04\0\0\0\x07\0\0\0\x01\0\0\0\x02\0\0\0\x02hi\
      \xff\xff\xff\xff\xff\xff\xff\xff";
// A type without a name, a process id below 0 and bytes that print as escapes.
const ESCAPES: &[u8] =
    b"\0\0\0\0\0\0\0\x17\0\0\0\x03\xff\xff\xff\xff\0\0\0\x01\0\0\0\x02\0\0\0\x03\x09\x5c\xe9";
// (4, 7, 4294967297, 2, "hi") in version 2, big-endian and little-endian.
const WIDE: &[u8] =
    b"\x02\0\0\0\0\0\0\x1a\0\0\0\x04\0\0\0\x07\0\0\0\x01\0\0\0\x01\0\0\0\x02\0\0\0\x02hi";

const WIDE_LITTLE: &[u8] =
    b"\x03\0\0\0\x1a\0\0\0\x04\0\0\0\x07\0\0\0\x01\0\0\0\x01\0\0\0\x02\0\0\0\x02\0\0\0hi";
// The base record, a bad one (version 2, and 22 is below its 24), and the base record again.
const BAD_BETWEEN: &[u8] = b"\0\0\0\0\0\0\0\x16\0\0\0\x04\0\0\0\x07\0\0\0\x01\0\0\0\x02\0\0\0\x02hi\
      \x02\0\0\0\0\0\0\x16\0\0\0\0\0\0\0\x16\0\0\0\x04\0\0\0\x07\0\0\0\x01\0\0\0\x02\0\0\0\x02hi";

// The fields of a record that is wanted.
struct Want {
    kind: i32,
    pid: i32,
    sec: i64,
    usec: i32,
    text: &'static [u8],
}

const HI: Want = Want {
    kind: 4,
    pid: 7,
    sec: 1,
    usec: 2,
    text: b"hi",
};

const HI_NUL: Want = Want {
    kind: 4,
    pid: 7,
    sec: 1,
    usec: 2,
    text: b"hi\0",
};

const HI_WIDE: Want = Want {
    kind: 4,
    pid: 7,
    sec: 4_294_967_297,
    usec: 2,
    text: b"hi",
};

const ESCAPED: Want = Want {
    kind: 3,
    pid: -1,
    sec: 1,
    usec: 2,
    text: b"\x09\x5c\xe9",
};

fn is_same(got: &LogRecord, want: &Want) -> bool {
    got.kind == want.kind
        && got.pid == want.pid
        && got.sec == want.sec
        && got.usec == want.usec
        && got.text.as_slice() == want.text
}

// Whether these records were read and no others.
fn are_same(got: &[LogRecord], want: &[Want]) -> bool {
    got.len() == want.len() && got.iter().zip(want).all(|(g, w)| is_same(g, w))
}

// A record with this text in place of its own.
fn with_text(want: &Want, text: Vec<u8>) -> LogRecord {
    LogRecord {
        kind: want.kind,
        pid: want.pid,
        sec: want.sec,
        usec: want.usec,
        text: Bytes::new(text),
    }
}

fn record(alloc: Global, want: &Want) -> Result<LogRecord, Fail> {
    Ok(with_text(want, want.text.to_vec(alloc)?))
}

// A whole input, with the records and the bad record that are read of it, how many bytes are left
// then, and how many were read.
type Row = (&'static [u8], &'static [Want], Option<Bad>, u64, u64);

static READ: &[Row] = &[
    (BASE, &[HI], None, 0, 30),
    (b"", &[], None, 0, 0),
    (LITTLE, &[HI], None, 0, 30),
    (WITH_NUL, &[HI_NUL], None, 0, 31),
    (WITH_SLACK, &[HI], None, 0, 38),
    (ESCAPES, &[ESCAPED], None, 0, 31),
    (WIDE, &[HI_WIDE], None, 0, 34),
    (WIDE_LITTLE, &[HI_WIDE], None, 0, 34),
];

const BAD_SECOND: Option<Bad> = Some(Bad {
    at: 30,
    why: BadWhy::Length,
});

const BAD_ORDER: Option<Bad> = Some(Bad {
    at: 0,
    why: BadWhy::Order,
});

const BAD_LENGTH: Option<Bad> = Some(Bad {
    at: 0,
    why: BadWhy::Length,
});

const BAD_MESSAGE: Option<Bad> = Some(Bad {
    at: 0,
    why: BadWhy::Message,
});

// Its message says three bytes.
const LONG_MESSAGE: &[u8] =
    b"\0\0\0\0\0\0\0\x16\0\0\0\x04\0\0\0\x07\0\0\0\x01\0\0\0\x02\0\0\0\x03hi";

static BAD: &[Row] = &[
    (BAD_BETWEEN, &[HI], BAD_SECOND, 0, 30),
    (b"\x04", &[], BAD_ORDER, 0, 0),
    (b"\0\0\0\0\0\x01\0\x15", &[], BAD_LENGTH, 0, 0),
    (b"\0\0\0\0\0\0\0\x13", &[], BAD_LENGTH, 0, 0),
    (b"\x02\0\0\0\0\x01\0\x19", &[], BAD_LENGTH, 0, 0),
    (LONG_MESSAGE, &[], BAD_MESSAGE, 0, 0),
    // More is needed of these, whose lengths are the greatest, and of the base record without its
    // last byte.
    (BASE_FRONT, &[], None, 29, 0),
    (b"\0\0\0\0\0\x01\0\x14", &[], None, 8, 0),
    (b"\x02\0\0\0\0\x01\0\x18", &[], None, 8, 0),
];

// Whether a decoder that is fed this gives these records and this bad record.
fn gives(
    decoder: &mut Decoder,
    input: &[u8],
    records: &[Want],
    bad: Option<Bad>,
) -> Result<bool, Fail> {
    let fed = decoder.feed(input)?;
    let is_bad = fed.bad == bad;
    Ok(are_same(fed.records.into_vec().as_slice(), records) && is_bad)
}

// Whether a decoder that is fed the whole input comes to this, and gives nothing more then.
fn is_read(alloc: Global, row: &Row) -> Result<bool, Fail> {
    let (input, records, bad, rest, offset) = row;
    let mut decoder = Decoder::new(alloc);
    let is_given = gives(&mut decoder, input, records, *bad)?;
    let is_at = decoder.rest_len() == *rest && decoder.offset() == *offset;
    let is_all = gives(&mut decoder, b"", &[], *bad)?;
    Ok(is_given && is_at && is_all)
}

#[test]
fn records_are_read(rt: HostRuntime) -> Result<(), Fail> {
    for (at, row) in READ.iter().enumerate() {
        assert_in(&rt, at, is_read(rt.alloc(), row)?);
    }
    Ok(())
}

#[test]
fn bad_records_are_told(rt: HostRuntime) -> Result<(), Fail> {
    for (at, row) in BAD.iter().enumerate() {
        assert_in(&rt, at, is_read(rt.alloc(), row)?);
    }
    Ok(())
}

// Whether the base record is read in two pieces.
fn is_read_in_two(alloc: Global, front: &[u8], back: &[u8]) -> Result<bool, Fail> {
    let mut decoder = Decoder::new(alloc);
    let is_none = gives(&mut decoder, front, &[], None)?;
    let is_kept = decoder.rest_len() == front.len() as u64;
    let is_whole = gives(&mut decoder, back, &[HI], None)?;
    Ok(is_none && is_kept && is_whole && decoder.offset() == 30)
}

// Whether a decoder that is fed the bytes of a bad record between others one by one gives each
// record as soon as it can be told.
fn are_read_by_bytes(decoder: &mut Decoder) -> Result<bool, Fail> {
    let mut are_well = true;
    for (i, byte) in BAD_BETWEEN.iter().enumerate() {
        let records: &[Want] = if i == 29 { &[HI] } else { &[] };
        let bad = if i < 37 { None } else { BAD_SECOND };
        are_well &= gives(decoder, &[*byte], records, bad)?;
    }
    Ok(are_well)
}

#[test]
fn pieces_are_read(rt: HostRuntime) -> Result<(), Fail> {
    for cut in 1..30 {
        assert_in(
            &rt,
            cut,
            is_read_in_two(rt.alloc(), &BASE[..cut], &BASE[cut..])?,
        );
    }
    let mut decoder = Decoder::new(rt.alloc());
    let are_well = are_read_by_bytes(&mut decoder)?;
    assert!(rt; are_well);
    Ok(())
}

// The front of a record whose message has the greatest length, and of one whose message is one
// longer.
const LONGEST: &[u8] = b"\0\0\0\0\0\x01\0\x14\0\0\0\x04\0\0\0\x07\0\0\0\x01\0\0\0\x02\0\x01\0\0";

const LONGER: &[u8] = b"\0\0\0\0\0\x01\0\x14\0\0\0\x04\0\0\0\x07\0\0\0\x01\0\0\0\x02\0\x01\0\x01";

// A front with a message of the greatest length.
fn with_message(alloc: Global, front: &[u8]) -> Result<Vec<u8>, Fail> {
    let message = vec![in alloc; b'a'; 65_536]?;
    let mut input = front.to_vec(alloc)?;
    input.extend_from_slice(message.as_slice())?;
    Ok(input)
}

// Whether a record has the message of an input, and is written as it.
fn is_longest(alloc: Global, record: &LogRecord, input: &[u8]) -> Result<bool, Fail> {
    let encoded = encode(alloc, record, Order::Big)?;
    let is_same = encoded.as_slice() == input;
    Ok(is_same && input.strip_prefix(LONGEST) == Some(record.text.as_slice()))
}

// Whether the one record of an input has its message.
fn is_longest_read(alloc: Global, input: &[u8]) -> Result<bool, Fail> {
    let fed = Decoder::new(alloc).feed(input)?;
    match fed.records.as_slice() {
        [found] => is_longest(alloc, found, input),
        _ => Ok(false),
    }
}

// Whether an input has a message that is too long.
fn is_longer_refused(alloc: Global, input: &[u8]) -> Result<bool, Fail> {
    Ok(Decoder::new(alloc).feed(input)?.bad == BAD_MESSAGE)
}

#[test]
fn longest_message_is_read(rt: HostRuntime) -> Result<(), Fail> {
    let longest = with_message(rt.alloc(), LONGEST)?;
    assert!(rt; is_longest_read(rt.alloc(), longest.as_slice())?);
    let longer = with_message(rt.alloc(), LONGER)?;
    assert!(rt; is_longer_refused(rt.alloc(), longer.as_slice())?);
    Ok(())
}

// In which version a record is written.
#[derive(Clone, Copy)]
enum Version {
    One,
    Two,
}

// What is written of a record.
fn written(
    alloc: Global,
    record: &LogRecord,
    version: Version,
    order: Order,
) -> Result<Bytes, EncodeRefused> {
    match version {
        Version::One => encode(alloc, record, order),
        Version::Two => encode_2(alloc, record, order),
    }
}

// Whether a record is written as these bytes.
fn is_written_as(
    alloc: Global,
    want: &Want,
    version: Version,
    order: Order,
    bytes: &[u8],
) -> Result<bool, Fail> {
    let record = record(alloc, want)?;
    Ok(written(alloc, &record, version, order)?.as_slice() == bytes)
}

#[test]
fn records_are_written(rt: HostRuntime) -> Result<(), Fail> {
    for (want, version, order, bytes) in [
        (&HI, Version::One, Order::Big, BASE),
        (&HI, Version::One, Order::Little, LITTLE_WRITTEN),
        (&HI_WIDE, Version::Two, Order::Big, WIDE),
        (&HI_WIDE, Version::Two, Order::Little, WIDE_LITTLE),
    ] {
        assert!(rt; is_written_as(rt.alloc(), want, version, order, bytes)?);
    }
    Ok(())
}

// Whether a record is not written, and why.
fn is_refused(
    record: &LogRecord,
    alloc: Global,
    version: Version,
    order: Order,
    why: EncodeRefused,
) -> bool {
    written(alloc, record, version, order).err() == Some(why)
}

// Whether a record is refused whose seconds do not fit version 1.
fn is_wide_refused(alloc: Global) -> Result<bool, Fail> {
    let wide = record(alloc, &HI_WIDE)?;
    let too_wide = EncodeRefused::SecondsWide { sec: 4_294_967_297 };
    Ok(is_refused(&wide, alloc, Version::One, Order::Big, too_wide))
}

// Whether such a record with a message that is too long is refused for its message.
fn is_long_refused(alloc: Global) -> Result<bool, Fail> {
    let long = with_text(&HI_WIDE, vec![in alloc; b'a'; 65_537]?);
    let too_long = EncodeRefused::TooLong { length: 65_537 };
    let is_first = is_refused(&long, alloc, Version::One, Order::Big, too_long);
    let is_second = is_refused(&long, alloc, Version::Two, Order::Little, too_long);
    Ok(is_first && is_second)
}

#[test]
fn records_that_do_not_fit_are_refused(rt: HostRuntime) -> Result<(), Fail> {
    assert!(rt; is_wide_refused(rt.alloc())?);
    assert!(rt; is_long_refused(rt.alloc())?);
    Ok(())
}

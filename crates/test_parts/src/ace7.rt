//! What clients of ACE 7 send: a source and an end that give records of version 2, whatever the
//! pieces are in which the bytes come.
ghost use Rattle.std.specs.Prelude.{IfOk, []};
ghost use Rattle.ev_base.specs.Bytes.{HasGiven};
ghost use Rattle.ev_base.specs.MemSource.{mem_source_facts};

use crate::asserts::assert_in;
use ace7_input::{Ace7End, Ace7Source};
use cdr_record::{First, first_in};
use ev_base::{
    Got, Handle, Kind, Mask, MemSource, Net, PeerEnd, Report, Sent, Source, SteadySource, Waited,
};
use one_net::{OneEnd, OneNet};
use std::alloc::Global;
use std::test::Fail;

// The bytes that a client was seen to send over a socket: `ACE_DEBUG ((LM_DEBUG, "hi\n"))` and
// `ACE_ERROR ((LM_ERROR, "a worse one: %d\n", 42))`, with `ACE_Log_Msg::LOGGER`, of ACE 7.0.8 on
// x86-64. The padding of a header is whatever stood there.
const SENT: &[u8] = b"\x01/\x17\xce\x1c\0\0\0\x04\0\0\0\x9e+\0\0\xf6K\x0fk\0\0\0\0'\x9a\x09\0\
    \x04\0\0\0hi\x0a\0\
    \x01/\x17\xce)\0\0\0\x80\0\0\0\x9e+\0\0\xf6K\x0fk\0\0\0\0T\x9a\x09\0\
    \x11\0\0\0a worse one: 42\x0a\0";
// What that means: records of version 2.
const MEANT: &[u8] = b"\x03/\x17\xce\x1c\0\0\0\x04\0\0\0\x9e+\0\0\xf6K\x0fk\0\0\0\0'\x9a\x09\0\
    \x04\0\0\0hi\x0a\0\
    \x03/\x17\xce)\0\0\0\x80\0\0\0\x9e+\0\0\xf6K\x0fk\0\0\0\0T\x9a\x09\0\
    \x11\0\0\0a worse one: 42\x0a\0";

// What is sent, and what is given for it.
struct Row {
    name: &'static str,
    sent: &'static [u8],
    given: &'static [u8],
}

const ROWS: &[Row] = &[
    Row {
        name: "nothing",
        sent: b"",
        given: b"",
    },
    Row {
        name: "a header of version 3",
        sent: b"\x03\0\0\0\x18\0\0\0",
        given: b"\x03\0\0\0\x18\0\0\0",
    },
    Row {
        name: "a record of version 2, and one after it",
        sent: b"\x02\0\0\0\0\0\0\x18aaaaaaaaaaaaaaaaaaaaaaaa\0\0\0\0\0\0\0\x18",
        given: b"\x02\0\0\0\0\0\0\x18aaaaaaaaaaaaaaaaaaaaaaaa\x02\0\0\0\0\0\0\x18",
    },
    Row {
        name: "big-endian and little-endian, without a message",
        sent: b"\0\0\0\0\0\0\0\x18\0\x01\0\x01aaaaaaaaaaaaaaaaaaaa\x01\0\0\0\x18\0\0\0\0",
        given: b"\x02\0\0\0\0\0\0\x18\0\x01\0\x01aaaaaaaaaaaaaaaaaaaa\x03\0\0\0\x18\0\0\0\0",
    },
    Row {
        name: "a payload of 23 bytes, which is no header's",
        sent: b"\0\0\0\0\0\0\0\x17aaaaaaaaaaaaaaaaaaaaaaa\0\0\0\0\0\0\0\x18",
        given: b"\x02\0\0\0\0\0\0\x17aaaaaaaaaaaaaaaaaaaaaaa\0\0\0\0\0\0\0\x18",
    },
    Row {
        name: "a payload of 65,561 bytes, which is no header's",
        sent: b"\x01\0\0\0\x19\0\x01\0\x01\0\0\0\x18\0\0\0",
        given: b"\x03\0\0\0\x19\0\x01\0\x01\0\0\0\x18\0\0\0",
    },
    Row {
        name: "no header between two records",
        sent: b"\0\0\0\0\0\0\0\x18aaaaaaaaaaaaaaaaaaaaaaaa\x04\0\0\0\x01\0\0\0\x18\0\0\0",
        given: b"\x02\0\0\0\0\0\0\x18aaaaaaaaaaaaaaaaaaaaaaaa\x04\0\0\0\x01\0\0\0\x18\0\0\0",
    },
    Row {
        name: "the front of a header",
        sent: b"\x01\x01\x01\x01\x01",
        given: b"\x03\x01\x01\x01\x01",
    },
];

/// The bytes from one place to another, as far as they are there.
fn between(bytes: &[u8], from: usize, to: usize) -> &[u8] {
    match bytes.get(from..to) {
        Some(piece) => piece,
        None => b"",
    }
}

/// A source of these bytes in three pieces, which are cut at these places.
fn cut(alloc: Global, bytes: &[u8], first: usize, second: usize) -> Result<MemSource, Fail>
    ensures { IfOk result (λ source. HasGiven (mem_source_facts source).bytes []) }
{
    let mut pieces = Vec::new(alloc);
    pieces.push(between(bytes, 0, first).to_vec(alloc)?)?;
    pieces.push(between(bytes, first, second).to_vec(alloc)?)?;
    pieces.push(between(bytes, second, bytes.len()).to_vec(alloc)?)?;
    Ok(MemSource::new(pieces, Vec::new(alloc)))
}

/// Whether a source gives these bytes.
fn gives<S: Source>(source: &mut S, bytes: &[u8]) -> bool {
    let mut buf = [0u8; 48];
    let mut rest = bytes;
    for _ in 0..bytes.len().saturating_add(1) {
        match source.read(&mut buf) {
            Got::Bytes(count) => match rest.strip_prefix(&buf[..count.min(48)]) {
                Some(behind) => rest = behind,
                None => return false,
            },
            Got::Over => return rest.is_empty(),
            Got::Pause | Got::Failed => return false,
        }
    }
    false
}

#[test]
fn two_records_of_ace_7_are_given_as_they_were_meant_however_they_are_cut(
    rt: HostRuntime,
) -> Result<(), Fail> {
    for second in 0..SENT.len() + 1 {
        for first in 0..second + 1 {
            let mut source = Ace7Source::new(cut(rt.alloc(), SENT, first, second)?);
            assert_in(&rt, second, gives(&mut source, MEANT));
        }
    }
    let stands = first_in(MEANT);
    assert!(rt; stands == First::One(36));
    Ok(())
}

#[test]
fn what_is_no_header_is_given_as_it_is(rt: HostRuntime) -> Result<(), Fail> {
    for row in ROWS {
        for second in 0..row.sent.len() + 1 {
            let mut source = Ace7Source::new(cut(rt.alloc(), row.sent, second.min(1), second)?);
            assert_in(&rt, row.name, gives(&mut source, row.given));
        }
    }
    Ok(())
}

#[test]
fn the_longest_payload_passes(rt: HostRuntime) -> Result<(), Fail> {
    let alloc = rt.alloc();
    let mut bytes = b"\x01\0\0\0\x18\0\x01\0".to_vec(alloc)?;
    bytes.resize(65_568, b'a')?;
    bytes.extend_from_slice(b"\x01\0\0\0\x18\0\0\0")?;
    let mut wanted = b"\x03\0\0\0\x18\0\x01\0".to_vec(alloc)?;
    wanted.resize(65_568, b'a')?;
    wanted.extend_from_slice(b"\x03\0\0\0\x18\0\0\0")?;
    let mut source = Ace7Source::new(SteadySource::new(bytes));
    let is_well = gives(&mut source, &wanted);
    assert!(rt; is_well);
    Ok(())
}

#[test]
fn an_end_of_ace_7_gives_what_was_meant(rt: HostRuntime) -> Result<(), Fail> {
    let inner = OneEnd::new(SteadySource::new(b"\x01\0\0".to_vec(rt.alloc())?), 8);
    let mut end = Ace7End::new(inner);
    let mut buf = [0; 8];
    let is_read = end.read(&mut buf) == Got::Bytes(3) && buf.starts_with(b"\x03\0\0");
    let is_over = end.read(&mut buf) == Got::Over;
    let takes_none = !end.is_listener() && end.write(b"hello") == Sent::Pause;
    drop(end.into_inner().into_input());
    assert!(rt; is_read && is_over && takes_none);
    Ok(())
}

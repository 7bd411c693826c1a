//! What `display` and `audit` write, by their input, with the status and its number.
use crate::running::{RECORD, Ran, long_record, run_short, see, source};
use ev_base::MemSource;
use std::alloc::Global;
use std::process::Abort;
use std::sync::Wait;
use std::test::Fail;
use std::thread::Threads;
use std::time::Clock;

/// The journal of an acceptor and one connection that sends a record and ends, up to its first
/// read.
const OPENED: &[u8] =
    b"opened 0 r--\npolled 0\nready 0 read\nstarted 2\nreturned 2 again accepted 0\n\
      opened 1 r--\nstarted 4\nreturned 4 keep none\npolled 0\nready 1 read\nready 1 read\n\
      started 9\n";

/// The rest of it.
const CLOSED: &[u8] =
    b"returned 9 again piece 0 30 1 4:7:1:2:6869\nstarted 10\nreturned 10 keep piece 0 0 0\n\
      started 12\nreturned 12 close piece 0 0 0\nclosed 1 end 0 end\npolled 0\nended\nremoved 0\n\
      closed 0 shut\n";

/// A run of a command: its input in pieces, what it writes, its status and the number beside it.
type Row<'a> = (&'a [&'a [u8]], &'a [u8], u8, u64);

/// Runs a command on an input, with a sink that fails after so many bytes.
fn run<R: Clock + Threads + Wait + Copy + Send + Sync + 'static>(
    rt: &R,
    alloc: Global,
    word: &str,
    input: MemSource,
    fail_after: Option<u64>,
) -> Result<Ran, Fail> {
    run_short(rt, alloc, word, input, fail_after)
}

/// Sees a row of a command.
fn see_row<R: Abort + Clock + Threads + Wait + Copy + Send + Sync + 'static>(
    rt: &R,
    alloc: Global,
    word: &str,
    (pieces, written, status, at): Row<'_>,
) -> Result<(), Fail> {
    let ran = run(rt, alloc, word, source(alloc, pieces, &[])?, None)?;
    see(rt, word, &ran, (status, at), written);
    Ok(())
}

/// Rows of `display`.
static DISPLAYED: &[Row<'static>] = &[
    (&[RECORD], b"1,2 7 LM_DEBUG: hi\n", 0, 0),
    (&[], b"", 0, 0),
    (
        &[RECORD, RECORD],
        b"1,2 7 LM_DEBUG: hi\n1,2 7 LM_DEBUG: hi\n",
        0,
        0,
    ),
    (
        &[b"\x01\xaa\xbb\xcc\x16\0\0\0\x04\0\0\0\x07\0\0\0\x01\0\0\0\x02\0\0\0\x02\0\0\0hi"],
        b"1,2 7 LM_DEBUG: hi\n",
        0,
        0,
    ),
    (
        &[b"\0\0\0\0\0\0\0\x17\0\0\0\x03\xff\xff\xff\xff\0\0\0\x01\0\0\0\x02\0\0\0\x03\x09\\\xe9"],
        b"1,2 -1 3: \\x09\\\\\\xe9\n",
        0,
        0,
    ),
    (
        &[
            RECORD,
            b"\x01\xaa\xbb\xcc\x16\0\0\0\x04\0\0\0\x07\0\0\0\x01\0\0\0\x02\0\0\0\x02\0\0\0hi",
        ],
        b"1,2 7 LM_DEBUG: hi\n1,2 7 LM_DEBUG: hi\n",
        0,
        0,
    ),
    (&[RECORD, b"\x04"], b"1,2 7 LM_DEBUG: hi\n", 8, 30),
    (&[RECORD, b"\0\0\0\0\0\0\0"], b"1,2 7 LM_DEBUG: hi\n", 8, 30),
    (&[RECORD, b"\0\0\0"], b"1,2 7 LM_DEBUG: hi\n", 8, 30),
];

#[test]
fn records_are_displayed(rt: HostRuntime) -> Result<(), Fail> {
    let alloc = rt.alloc();
    for row in DISPLAYED {
        see_row(&rt, alloc, "display", *row)?;
    }
    Ok(())
}

#[test]
fn the_lines_before_a_failed_read_are_displayed(rt: HostRuntime) -> Result<(), Fail> {
    let alloc = rt.alloc();
    let input = source(alloc, &[RECORD], &[1])?;
    let ran = run(&rt, alloc, "display", input, None)?;
    see(&rt, "a failed read", &ran, (3, 0), b"1,2 7 LM_DEBUG: hi\n");
    Ok(())
}

/// Headers that 65,536 bytes of a message follow, the status, and how many bytes are written.
static LONG: &[(&[u8], u8, usize)] = &[
    (
        b"\0\0\0\0\0\x01\0\x14\0\0\0\x04\0\0\0\x07\0\0\0\x01\0\0\0\x02\0\x01\0\0",
        0,
        65_536 + 17,
    ),
    (
        b"\0\0\0\0\0\x01\0\x14\0\0\0\x04\0\0\0\x07\0\0\0\x01\0\0\0\x02\0\x01\0\x01",
        8,
        0,
    ),
    (b"\0\0\0\0\0\x01\0\x15", 8, 0),
    (b"\0\0\0\0\0\0\0\x13", 8, 0),
];

/// Sees how long the text of a header and a message of 65,536 bytes is.
fn see_length<R: Abort + Clock + Threads + Wait + Copy + Send + Sync + 'static>(
    rt: &R,
    alloc: Global,
    header: &[u8],
    status: u8,
    length: usize,
) -> Result<(), Fail> {
    let ran = run(rt, alloc, "display", long_record(alloc, header)?, None)?;
    let ending = (ran.status, ran.at, ran.output.bytes().len());
    drop(ran);
    assert!(*rt; ending == (status, 0, length), "a long record of {length}");
    Ok(())
}

#[test]
fn long_records_are_displayed(rt: HostRuntime) -> Result<(), Fail> {
    let alloc = rt.alloc();
    for (header, status, length) in LONG {
        see_length(&rt, alloc, header, *status, *length)?;
    }
    Ok(())
}

/// Rows of `audit`.
static AUDITED: &[Row<'static>] = &[
    (&[b"most 1\n"], b"legal 0\n", 0, 0),
    (
        &[
            b"most 1\nopened 0 r--\npolled 0\n",
            b"ready 0 read\nstarted 2\n",
        ],
        b"legal 4\n",
        0,
        0,
    ),
    (&[b"most 1\nended\n"], b"legal 1\n", 0, 0),
    (&[b"most 1001\n", OPENED, CLOSED], b"legal 22\n", 0, 0),
    // an event that is started twice, a first line that is none, and too few handlers
    (
        &[b"most 1001\n", OPENED, b"started 9\n", CLOSED],
        b"",
        10,
        12,
    ),
    (&[b"most x\n", OPENED, CLOSED], b"", 2, 1),
    (&[b"most 1\n", OPENED, CLOSED], b"", 10, 5),
    (&[b""], b"", 2, 1),
    (&[b"most 0\n"], b"", 2, 1),
    (&[b"most 1\nopened 00 r--\n"], b"", 2, 2),
    (&[b"most 1\nopened 0 r--\npolled 0"], b"", 2, 3),
    (&[b"most 1\nopened 0 r--\nopened 1 r--\n"], b"", 10, 1),
    (&[b"most 1\nstarted 0\n"], b"", 10, 0),
];

#[test]
fn journals_are_audited(rt: HostRuntime) -> Result<(), Fail> {
    let alloc = rt.alloc();
    for row in AUDITED {
        see_row(&rt, alloc, "audit", *row)?;
    }
    Ok(())
}

/// Sees what a command writes to a sink that fails after five bytes.
fn see_front<R: Abort + Clock + Threads + Wait + Copy + Send + Sync + 'static>(
    rt: &R,
    alloc: Global,
    word: &str,
    input: &[u8],
    front: &[u8],
) -> Result<(), Fail> {
    let ran = run(rt, alloc, word, source(alloc, &[input], &[])?, Some(5))?;
    see(rt, word, &ran, (4, 0), front);
    Ok(())
}

#[test]
fn a_sink_that_fails_has_a_front(rt: HostRuntime) -> Result<(), Fail> {
    let alloc = rt.alloc();
    see_front(&rt, alloc, "display", RECORD, b"1,2 7")?;
    see_front(&rt, alloc, "audit", b"most 1\n", b"legal")
}

//! Runs of the command over ends in memory.
ghost use Rattle.std.specs.Prelude.{◌≡◌, true, IfOk};
ghost use Rattle.dial_memory.specs.DialNets.{is_new_net};

use crate::lists::{list_of, source_of, words_of};
use cmd_forward::{Forwarded, forward_main};
use dial_memory::{MemDialEnd, MemDialNet, MemDialer};
use ev_base::{Finish, Handle, MemSink, MemSource};
use std::alloc::Global;
use std::sync::Wait;
use std::test::Fail;

struct Row {
    words: &'static str,
    pieces: &'static [&'static [u8]],
    read_fails: &'static [u64],
    finishes: &'static [Finish],
    takes: &'static [u64],
    write_fails: &'static [u64],
    moments: &'static [u64],
    // How many bytes the output takes.
    room: usize,
    status: u8,
    at: u64,
    // What the peer was given, if a connection was begun, and what was written.
    held: Option<&'static [u8]>,
    text: &'static [u8],
}

/// A record of a two byte message, little-endian, and as it is sent.
const LITTLE: &[u8] = &[
    1, 0, 0, 0, 22, 0, 0, 0, 4, 0, 0, 0, 7, 0, 0, 0, 1, 0, 0, 0, 2, 0, 0, 0, 2, 0, 0, 0, 104, 105,
];

const BIG: &[u8] = &[
    0, 0, 0, 0, 0, 0, 0, 22, 0, 0, 0, 4, 0, 0, 0, 7, 0, 0, 0, 1, 0, 0, 0, 2, 0, 0, 0, 2, 104, 105,
];

const TOTALS: &[u8] = b"records 1\nbytes 30\n";

const FORWARD: &str = "forward --port 9";

static ROWS: [Row; 16] = [
    // The connection is made at once, and writes take 10 bytes, none and 20.
    Row {
        words: FORWARD,
        pieces: &[LITTLE],
        read_fails: &[],
        finishes: &[Finish::Done],
        takes: &[10, 0, 20],
        write_fails: &[],
        moments: &[0, 1],
        room: 64,
        status: 0,
        at: 0,
        held: Some(BIG),
        text: TOTALS,
    },
    // The connection is not made in 5,000 milliseconds.
    Row {
        words: FORWARD,
        pieces: &[LITTLE],
        read_fails: &[],
        finishes: &[Finish::Pause],
        takes: &[],
        write_fails: &[],
        moments: &[0, 6000],
        room: 64,
        status: 14,
        at: 5000,
        held: Some(&[]),
        text: &[],
    },
    // Nor in as many as the words say.
    Row {
        words: "forward --wait=70 --port=9",
        pieces: &[LITTLE],
        read_fails: &[],
        finishes: &[],
        takes: &[],
        write_fails: &[],
        moments: &[0, 6000],
        room: 64,
        status: 14,
        at: 70,
        held: Some(&[]),
        text: &[],
    },
    // No input.
    Row {
        words: FORWARD,
        pieces: &[],
        read_fails: &[],
        finishes: &[Finish::Done],
        takes: &[],
        write_fails: &[],
        moments: &[0],
        room: 64,
        status: 0,
        at: 0,
        held: Some(&[]),
        text: b"records 0\nbytes 0\n",
    },
    // A bad record after a good one.
    Row {
        words: FORWARD,
        pieces: &[LITTLE, &[9, 9, 9]],
        read_fails: &[],
        finishes: &[Finish::Done],
        takes: &[],
        write_fails: &[],
        moments: &[0],
        room: 64,
        status: 8,
        at: 30,
        held: Some(BIG),
        text: &[],
    },
    // An unfinished one.
    Row {
        words: FORWARD,
        pieces: &[LITTLE, &[1]],
        read_fails: &[],
        finishes: &[Finish::Done],
        takes: &[],
        write_fails: &[],
        moments: &[0],
        room: 64,
        status: 8,
        at: 30,
        held: Some(BIG),
        text: &[],
    },
    // A read fails after a record.
    Row {
        words: FORWARD,
        pieces: &[LITTLE],
        read_fails: &[1],
        finishes: &[Finish::Done],
        takes: &[],
        write_fails: &[],
        moments: &[0],
        room: 64,
        status: 3,
        at: 0,
        held: Some(BIG),
        text: &[],
    },
    // A write to the peer fails.
    Row {
        words: FORWARD,
        pieces: &[LITTLE],
        read_fails: &[],
        finishes: &[Finish::Done],
        takes: &[12],
        write_fails: &[1],
        moments: &[0],
        room: 64,
        status: 13,
        at: 0,
        held: Some(&[0, 0, 0, 0, 0, 0, 0, 22, 0, 0, 0, 4]),
        text: &[],
    },
    // It fails after a bad record was read in the same piece.
    Row {
        words: FORWARD,
        pieces: &[&[
            1, 0, 0, 0, 22, 0, 0, 0, 4, 0, 0, 0, 7, 0, 0, 0, 1, 0, 0, 0, 2, 0, 0, 0, 2, 0, 0, 0,
            104, 105, 9,
        ]],
        read_fails: &[],
        finishes: &[Finish::Done],
        takes: &[4],
        write_fails: &[1],
        moments: &[0],
        room: 64,
        status: 8,
        at: 30,
        held: Some(&[0, 0, 0, 0]),
        text: &[],
    },
    // The connection could not be made.
    Row {
        words: FORWARD,
        pieces: &[LITTLE],
        read_fails: &[],
        finishes: &[Finish::Pause, Finish::Failed],
        takes: &[],
        write_fails: &[],
        moments: &[0, 1],
        room: 64,
        status: 13,
        at: 0,
        held: Some(&[]),
        text: &[],
    },
    // Nothing can be reported any more before it is made.
    Row {
        words: FORWARD,
        pieces: &[LITTLE],
        read_fails: &[],
        finishes: &[Finish::Pause],
        takes: &[],
        write_fails: &[],
        moments: &[0],
        room: 64,
        status: 15,
        at: 0,
        held: Some(&[]),
        text: &[],
    },
    // Nor while bytes wait to be sent.
    Row {
        words: FORWARD,
        pieces: &[LITTLE],
        read_fails: &[],
        finishes: &[Finish::Done],
        takes: &[3, 0],
        write_fails: &[],
        moments: &[0],
        room: 64,
        status: 15,
        at: 0,
        held: Some(&[0, 0, 0]),
        text: &[],
    },
    // The output takes no more than the first line.
    Row {
        words: FORWARD,
        pieces: &[LITTLE],
        read_fails: &[],
        finishes: &[Finish::Done],
        takes: &[],
        write_fails: &[],
        moments: &[0],
        room: 10,
        status: 4,
        at: 0,
        held: Some(BIG),
        text: b"records 1\n",
    },
    // Words that call nothing.
    Row {
        words: "forward",
        pieces: &[LITTLE],
        read_fails: &[],
        finishes: &[],
        takes: &[],
        write_fails: &[],
        moments: &[],
        room: 64,
        status: 1,
        at: 0,
        held: None,
        text: &[],
    },
    Row {
        words: "forward --port 9 --wait 0",
        pieces: &[LITTLE],
        read_fails: &[],
        finishes: &[],
        takes: &[],
        write_fails: &[],
        moments: &[],
        room: 64,
        status: 1,
        at: 0,
        held: None,
        text: &[],
    },
    Row {
        words: "forward --port 9 --port 9",
        pieces: &[LITTLE],
        read_fails: &[],
        finishes: &[],
        takes: &[],
        write_fails: &[],
        moments: &[],
        room: 64,
        status: 1,
        at: 0,
        held: None,
        text: &[],
    },
];

/// Records that each come alone: a turn each, so that the run has more than 1,024 entries.
static MANY: [&[u8]; 600] = [LITTLE; 600];

type Left = Forwarded<MemDialNet, MemSource, MemSink>;

/// The latest moment of a row.
const LATEST: u64 = 1 << 40;

fn net_of(alloc: Global, moments: &[u64]) -> Result<MemDialNet, Fail>
    ensures { IfOk result (λ net. is_new_net net ≡ true) }
{
    let mut list = Vec::new(alloc);
    match moments {
        [] => Ok(MemDialNet::new(alloc, list)),
        [first] if *first <= LATEST => {
            list.push(*first)?;
            Ok(MemDialNet::new(alloc, list))
        }
        [first, second] if first <= second && *second <= LATEST => {
            list.push(*first)?;
            list.push(*second)?;
            Ok(MemDialNet::new(alloc, list))
        }
        _ => Err("the moments are not those of a row".into()),
    }
}

fn dialer_of(alloc: Global, row: &Row) -> Result<MemDialer, Fail> {
    let end = MemDialEnd::new(
        alloc,
        64,
        list_of(alloc, row.finishes)?,
        list_of(alloc, row.takes)?,
        list_of(alloc, row.write_fails)?,
    )?;
    Ok(MemDialer::new(net_of(alloc, row.moments)?, end))
}

fn run<R: Wait>(rt: &R, alloc: Global, row: &Row, dialer: &mut MemDialer) -> Result<Left, Fail> {
    let words = words_of(alloc, row.words)?;
    let input = source_of(alloc, row.pieces, row.read_fails)?;
    let output = MemSink::new(alloc, row.room, None)?;
    Ok(forward_main(rt, alloc, &words, dialer, input, output))
}

/// What the peer was given, if a connection was begun.
fn held(left: &Left) -> Option<&[u8]> {
    match &left.net {
        Some(net) => net.retired(Handle(0)).map(MemDialEnd::held),
        None => None,
    }
}

fn is_so(left: &Left, row: &Row) -> bool {
    (left.status, left.at) == (row.status, row.at)
        && held(left) == row.held
        && left.output.bytes() == row.text
}

#[test]
fn records_are_forwarded_and_each_status_is_told(rt: HostRuntime) -> Result<(), Fail> {
    let alloc = rt.alloc();
    for row in &ROWS {
        let mut dialer = dialer_of(alloc, row)?;
        let left = run(&rt, alloc, row, &mut dialer)?;
        assert!(rt; is_so(&left, row));
    }
    Ok(())
}

#[test]
fn a_dialler_that_fails_is_a_fault_of_the_peer(rt: HostRuntime) -> Result<(), Fail> {
    let alloc = rt.alloc();
    let mut dialer = dialer_of(alloc, &ROWS[0])?;
    let first = run(&rt, alloc, &ROWS[0], &mut dialer)?;
    let second = run(&rt, alloc, &ROWS[0], &mut dialer)?;
    assert!(rt; first.status == 0);
    assert!(rt; second.status == 13);
    assert!(rt; second.net.is_none());
    assert!(rt; second.output.bytes().is_empty());
    Ok(())
}

#[test]
fn a_run_that_lets_its_journal_go_tells_all_totals(rt: HostRuntime) -> Result<(), Fail> {
    let alloc = rt.alloc();
    let finishes = list_of(alloc, &[Finish::Done])?;
    let end = MemDialEnd::new(alloc, 18_000, finishes, Vec::new(alloc), Vec::new(alloc))?;
    let mut dialer = MemDialer::new(net_of(alloc, &[0])?, end);
    let words = words_of(alloc, FORWARD)?;
    let input = source_of(alloc, &MANY, &[])?;
    let output = MemSink::new(alloc, 64, None)?;
    let left = forward_main(&rt, alloc, &words, &mut dialer, input, output);
    assert!(rt; left.status == 0);
    assert!(rt; left.output.bytes() == b"records 600\nbytes 18000\n".as_slice());
    assert!(rt; matches!(held(&left), Some(bytes) if bytes.len() == 18_000));
    Ok(())
}

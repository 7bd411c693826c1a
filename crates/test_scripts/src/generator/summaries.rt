//! Summaries.

use crate::asserts::assert_same;
use cdr_record::{Bytes, LogRecord, Records};
use ev_base::{Answer, Handle, Mask, MemSink};
use log_handler::{EndKind, LoggedRecords, ServerNote};
use reactor_model::Entry;
use run_summary::Summary;
use std::alloc::Global;
use std::test::Fail;

/// The lines of a summary.
const FOUR_LINES: &[u8] = b"connections 40\nrecords 5000\nbytes 242500\nlines 5040\n";

fn records(alloc: Global, count: u64) -> Result<LoggedRecords, Fail> {
    let mut records = Vec::new(alloc);
    for _ in 0..count {
        records.push(LogRecord {
            kind: 4,
            pid: 7,
            sec: 1,
            usec: 2,
            text: Bytes::new(Vec::from_slice(alloc, b"a\nb")?),
        })?;
    }
    Ok(LoggedRecords::new(alloc, Records::new(records))?)
}

fn returned(note: ServerNote) -> Entry<ServerNote> {
    Entry::Returned {
        event: 0,
        answer: Answer::Again,
        note,
    }
}

fn piece(alloc: Global, took: u64, count: u64) -> Result<Entry<ServerNote>, Fail> {
    Ok(returned(ServerNote::Piece {
        conn: 3,
        took,
        records: records(alloc, count)?,
    }))
}

fn opened() -> Entry<ServerNote> {
    Entry::Opened {
        handle: Handle(1),
        mask: Mask {
            read: true,
            write: false,
            except: false,
        },
    }
}

fn closed(note: ServerNote) -> Entry<ServerNote> {
    Entry::Closed {
        handle: Handle(1),
        note,
    }
}

fn refused() -> Entry<ServerNote> {
    Entry::Refused {
        live: 1,
        fault: false,
        note: ServerNote::Finished {
            conn: 4,
            end: EndKind::Refused,
        },
    }
}

#[test]
fn counts_each_note(rt: HostRuntime) -> Result<(), Fail> {
    let alloc = rt.alloc();
    let mut entries = Vec::new(alloc);
    entries.push(opened())?;
    entries.push(returned(ServerNote::Accepted { conn: 3 }))?;
    entries.push(opened())?;
    entries.push(piece(alloc, 30, 1)?)?;
    entries.push(piece(alloc, 0, 0)?)?;
    entries.push(piece(alloc, 70, 2)?)?;
    entries.push(returned(ServerNote::NoneWaiting))?;
    entries.push(refused())?;
    entries.push(closed(ServerNote::Finished {
        conn: 3,
        end: EndKind::Partial(10),
    }))?;
    entries.push(Entry::Ended)?;
    entries.push(closed(ServerNote::ListenerShut))?;
    let expected = Summary {
        connections: 1,
        records: 3,
        bytes: 100,
        lines: 5,
    };
    assert_same(&rt, Summary::of(&entries), expected);
    Ok(())
}

#[test]
fn tells_a_number_too_large_as_the_largest(rt: HostRuntime) -> Result<(), Fail> {
    let alloc = rt.alloc();
    let mut entries = Vec::new(alloc);
    entries.push(piece(alloc, u64::MAX, 0)?)?;
    entries.push(piece(alloc, 1, 0)?)?;
    assert_same(&rt, Summary::of(&entries).bytes, u64::MAX);
    Ok(())
}

#[test]
fn is_written_in_four_lines(rt: HostRuntime) -> Result<(), Fail> {
    let summary = Summary {
        connections: 40,
        records: 5000,
        bytes: 242_500,
        lines: 5040,
    };
    let sink = MemSink::new(rt.alloc(), 4096, None).map_err(|_| Fail::from("no room"))?;
    let (sink, whole) = summary.write(sink);
    assert!(rt; whole);
    assert_same(&rt, sink.bytes(), FOUR_LINES);
    let broken = MemSink::new(rt.alloc(), 4096, Some(20)).map_err(|_| Fail::from("no room"))?;
    let (_, whole) = summary.write(broken);
    assert!(rt; !whole);
    Ok(())
}

//! Journals that are written as their entries are appended.
use crate::asserts::assert_in;
use cdr_record::{Bytes, LogRecord, Records};
use ev_base::{Answer, Handle, Kind, Mask, MemSink};
use journal_text::JournalSink;
use log_handler::{EndKind, LoggedRecords, ServerNote};
use reactor_model::{Entry, Watch};
use std::alloc::Global;
use std::test::Fail;

/// A watch over a sink with room for a text.
fn watch(alloc: Global, room: usize) -> Result<JournalSink<MemSink>, Fail> {
    let output = MemSink::new(alloc, room, None).map_err(|_| Fail::from("no room"))?;
    Ok(JournalSink::new(1, output))
}

/// A piece of this many bytes, with these records.
fn piece(alloc: Global, took: u64, records: Records) -> Result<ServerNote, Fail> {
    Ok(ServerNote::Piece {
        conn: 0,
        took,
        records: LoggedRecords::new(alloc, records)?,
    })
}

/// The record of the worked run: an `hi` of process 7.
fn one_record(alloc: Global) -> Result<Records, Fail> {
    let text = Vec::from_slice(alloc, b"hi")?;
    let mut items = Vec::new(alloc);
    items.push(LogRecord {
        kind: 4,
        pid: 7,
        sec: 1,
        usec: 2,
        text: Bytes::new(text),
    })?;
    Ok(Records::new(items))
}

/// A note of these rows.
#[derive(Clone, Copy)]
enum Note {
    /// A piece of 30 bytes with the record of the worked run.
    OneRecord,
    /// A piece without bytes.
    NoBytes,
    NoneWaiting,
    Shut,
    Finished(u64, EndKind),
}

impl Note {
    fn made(self, alloc: Global) -> Result<ServerNote, Fail> {
        match self {
            Note::OneRecord => piece(alloc, 30, one_record(alloc)?),
            Note::NoBytes => piece(alloc, 0, Records::new(Vec::new(alloc))),
            Note::NoneWaiting => Ok(ServerNote::NoneWaiting),
            Note::Shut => Ok(ServerNote::ListenerShut),
            Note::Finished(conn, end) => Ok(ServerNote::Finished { conn, end }),
        }
    }
}

/// An entry of these rows, with its fields in their order. What is posted is of the kind except,
/// and what is refused is no fault.
#[derive(Clone, Copy)]
enum Step {
    Opened(Handle, Mask),
    Scheduled(u64, Handle, u64, u64),
    Cancelled(u64),
    Polled(u64),
    Due(u64),
    Ready(Handle, Kind),
    Posted(Handle, u64, u64),
    Stale(Handle, u64, u64),
    Started(u64),
    Returned(u64, Answer, Note),
    Masked(Handle, Mask),
    Suspended(Handle),
    Resumed(Handle),
    Refused(u64, Note),
    Removed(Handle),
    Closed(Handle, Note),
    Ended,
}

use self::Step::*;

/// An entry of a posted notice.
fn posted(handle: Handle, from: u64, seq: u64) -> Entry<ServerNote> {
    Entry::Posted {
        handle,
        kind: Kind::Except,
        from,
        seq,
    }
}

impl Step {
    fn entry(self, alloc: Global) -> Result<Entry<ServerNote>, Fail> {
        Ok(match self {
            Opened(handle, mask) => Entry::Opened { handle, mask },
            Scheduled(timer, handle, first, every) => Entry::Scheduled {
                timer,
                handle,
                first,
                every,
            },
            Cancelled(timer) => Entry::Cancelled { timer },
            Polled(now) => Entry::Polled { now },
            Due(timer) => Entry::Due { timer },
            Ready(handle, kind) => Entry::Ready { handle, kind },
            Posted(handle, from, seq) => posted(handle, from, seq),
            Stale(handle, from, seq) => Entry::Stale { handle, from, seq },
            Started(event) => Entry::Started { event },
            Returned(event, answer, note) => Entry::Returned {
                event,
                answer,
                note: note.made(alloc)?,
            },
            Masked(handle, mask) => Entry::Masked { handle, mask },
            Suspended(handle) => Entry::Suspended { handle },
            Resumed(handle) => Entry::Resumed { handle },
            Refused(live, note) => Entry::Refused {
                live,
                fault: false,
                note: note.made(alloc)?,
            },
            Removed(handle) => Entry::Removed { handle },
            Closed(handle, note) => Entry::Closed {
                handle,
                note: note.made(alloc)?,
            },
            Ended => Entry::Ended,
        })
    }
}

/// Appends entries.
fn see(alloc: Global, watch: &mut JournalSink<MemSink>, steps: &[Step]) -> Result<(), Fail> {
    for step in steps {
        let entry = step.entry(alloc)?;
        watch.saw(&entry);
    }
    Ok(())
}

/// Whether a watch over a sink with room for so many bytes is broken after these entries, and has
/// written this.
fn writes(
    alloc: Global,
    room: usize,
    steps: &[Step],
    text: &[u8],
    is_broken: bool,
) -> Result<bool, Fail> {
    let mut watch = watch(alloc, room)?;
    see(alloc, &mut watch, steps)?;
    let is_well = watch.broken() == is_broken;
    let written = watch.into_output();
    Ok(written.bytes() == text && is_well)
}

const FIRST: Handle = Handle(0);

/// The worked run.
static ONE_CONNECTION: &[Step] = &[
    Opened(FIRST, Mask::READ),
    Polled(0),
    Ready(FIRST, Kind::Read),
    Started(2),
    Returned(2, Answer::Again, Note::OneRecord),
    Started(4),
    Returned(4, Answer::Close, Note::NoBytes),
    Closed(FIRST, Note::Finished(0, EndKind::End)),
    Polled(0),
    Ended,
];

/// Its text.
const WRITTEN: &[u8] = b"most 1\nopened 0 r--\npolled 0\nready 0 read\nstarted 2\n\
      returned 2 again piece 0 30 1 4:7:1:2:6869\nstarted 4\nreturned 4 close piece 0 0 0\n\
      closed 0 end 0 end\npolled 0\nended\n";

#[test]
fn the_journal_of_one_connection(rt: HostRuntime) -> Result<(), Fail> {
    assert!(rt; writes(rt.alloc(), 4_096, ONE_CONNECTION, WRITTEN, false)?);
    Ok(())
}

const FOURTH: Handle = Handle(3);

const NOT_READ: Mask = Mask {
    read: false,
    write: true,
    except: true,
};

/// Entries with their lines, after the first line.
static LINES: &[(Step, &[u8])] = &[
    (Scheduled(1, FOURTH, 20, 0), b"most 1\nscheduled 1 3 20 0\n"),
    (Cancelled(1), b"most 1\ncancelled 1\n"),
    (Due(1), b"most 1\ndue 1\n"),
    (Posted(FOURTH, 2, 5), b"most 1\nposted 3 except 2 5\n"),
    (Stale(FOURTH, 2, 5), b"most 1\nstale 3 2 5\n"),
    (Masked(FOURTH, NOT_READ), b"most 1\nmasked 3 -we\n"),
    (Suspended(FOURTH), b"most 1\nsuspended 3\n"),
    (Resumed(FOURTH), b"most 1\nresumed 3\n"),
    (
        Refused(2, Note::Finished(1, EndKind::Refused)),
        b"most 1\nrefused 2 no end 1 refused\n",
    ),
    (Removed(FOURTH), b"most 1\nremoved 3\n"),
    (Closed(FOURTH, Note::Shut), b"most 1\nclosed 3 shut\n"),
    (
        Closed(FOURTH, Note::Finished(1, EndKind::Partial(12))),
        b"most 1\nclosed 3 end 1 partial:12\n",
    ),
    (
        Returned(9, Answer::Keep, Note::NoneWaiting),
        b"most 1\nreturned 9 keep none\n",
    ),
];

#[test]
fn a_line_for_each_entry(rt: HostRuntime) -> Result<(), Fail> {
    for (at, (step, text)) in LINES.iter().enumerate() {
        assert_in(&rt, at, writes(rt.alloc(), 64, &[*step], text, false)?);
    }
    Ok(())
}

#[test]
fn nothing_is_written_behind_a_failure(rt: HostRuntime) -> Result<(), Fail> {
    let steps = [Polled(7), Polled(7), Polled(7)];
    assert!(rt; writes(rt.alloc(), 12, &steps, b"most 1\npolle", true)?);
    Ok(())
}

//! In how many writes lines are written.
ghost use Rattle.ev_base.specs.MemSink.{mem_sink_facts};

use crate::asserts::{assert_in, assert_same};
use cdr_record::{Bytes, LogRecord, RecordList, Records};
use ev_base::{Answer, Handle, Mask, MemSink, Sink, Wrote};
use journal_text::JournalSink;
use log_handler::{EndKind, LineSink, LoggedRecords, ServerNote};
use packed_records::GatheredRecords;
use reactor_model::{Entry, Watch};
use std::alloc::Global;
use std::test::Fail;

const LINE: &[u8] = b"3 1,2 7 LM_DEBUG: hi\n";

const TWO_LINES: &[u8] = b"3 1,2 7 LM_DEBUG: hi\n3 1,2 7 LM_DEBUG: hi\n";

/// A sink in memory that counts its writes.
#[derive(Drop)]
struct CountingSink {
    below: MemSink,
    writes: u64,
}

impl Sink for CountingSink {
    ghost facts = { λ sink. mem_sink_facts sink.below };

    fn write(&mut self, piece: &[u8]) -> Wrote {
        self.writes = self.writes.saturating_add(1);
        self.below.write(piece)
    }
}

fn counting_sink(alloc: Global) -> Result<CountingSink, Fail> {
    match MemSink::new(alloc, 4096, None) {
        Ok(below) => Ok(CountingSink { below, writes: 0 }),
        Err(_) => Err(Fail::from("no room")),
    }
}

/// A record with this message.
fn record_with(text: Vec<u8>) -> LogRecord {
    LogRecord {
        kind: 4,
        pid: 7,
        sec: 1,
        usec: 2,
        text: Bytes::new(text),
    }
}

/// So many equal records.
fn records_of(alloc: Global, count: u64) -> Result<Records, Fail> {
    let mut records = Vec::new(alloc);
    for _ in 0..count {
        records.push(record_with(Vec::from_slice(alloc, b"hi")?))?;
    }
    Ok(Records::new(records))
}

/// These records as a connection with this number logs them: with the text of their lines,
/// unless it is one alone that is short.
fn logged_for(alloc: Global, conn: u64, records: &Records) -> Result<LoggedRecords, Fail> {
    let mut gathered = GatheredRecords::new(alloc, 0, 0);
    for entry in records.as_slice() {
        gathered.append(entry.borrowed())?;
    }
    Ok(LoggedRecords::with_lines(alloc, conn, gathered)?)
}

/// So many records, as the connection with this number logs them if one is given, and else
/// without a text.
fn logged(alloc: Global, count: u64, conn: Option<u64>) -> Result<LoggedRecords, Fail> {
    let records = records_of(alloc, count)?;
    Ok(match conn {
        Some(conn) => logged_for(alloc, conn, &records)?,
        None => LoggedRecords::new(alloc, records)?,
    })
}

/// A turn of connection 3 with these records.
fn piece(records: LoggedRecords) -> Entry<ServerNote> {
    Entry::Returned {
        event: 0,
        answer: Answer::Again,
        note: ServerNote::Piece {
            conn: 3,
            took: 30,
            records,
        },
    }
}

fn accepted() -> Entry<ServerNote> {
    Entry::Returned {
        event: 0,
        answer: Answer::Again,
        note: ServerNote::Accepted { conn: 3 },
    }
}

fn opened() -> Entry<ServerNote> {
    Entry::Opened {
        handle: Handle(1),
        mask: Mask {
            read: true,
            write: false,
            except: false,
        },
    }
}

fn closed(end: EndKind) -> Entry<ServerNote> {
    Entry::Closed {
        handle: Handle(1),
        note: ServerNote::Finished { conn: 3, end },
    }
}

/// An entry of these rows.
#[derive(Clone, Copy)]
enum Noted {
    Accepted,
    Opened,
    /// A turn with so many records, as the connection with this number logs them if one is
    /// given, and else without a text.
    Piece(u64, Option<u64>),
    Closed(EndKind),
}

impl Noted {
    fn entry(self, alloc: Global) -> Result<Entry<ServerNote>, Fail> {
        Ok(match self {
            Noted::Accepted => accepted(),
            Noted::Opened => opened(),
            Noted::Piece(count, conn) => piece(logged(alloc, count, conn)?),
            Noted::Closed(end) => closed(end),
        })
    }
}

/// Whether an entry is written to a sink in so many writes, and as these lines.
fn is_written(entry: &Entry<ServerNote>, output: CountingSink, writes: u64, lines: &[u8]) -> bool {
    let mut watch = LineSink::new(output);
    watch.saw(entry);
    let is_broken = watch.broken();
    let output = watch.into_output();
    !is_broken && is_taken(&output, writes, lines)
}

/// Whether a sink took this in so many writes.
fn is_taken(output: &CountingSink, writes: u64, text: &[u8]) -> bool {
    output.writes == writes && output.below.bytes() == text
}

/// Whether an entry is written in so many writes, and as these lines.
fn gives_lines(alloc: Global, (noted, writes, lines): (Noted, u64, &[u8])) -> Result<bool, Fail> {
    let output = counting_sink(alloc)?;
    let entry = noted.entry(alloc)?;
    Ok(is_written(&entry, output, writes, lines))
}

/// Entries, in how many writes each is written, and which lines.
static NOTED: &[(Noted, u64, &[u8])] = &[
    (Noted::Accepted, 0, b""),
    (Noted::Opened, 0, b""),
    (Noted::Piece(0, None), 0, b""),
    (Noted::Piece(0, Some(3)), 0, b""),
    (Noted::Piece(1, Some(3)), 1, LINE),
    (Noted::Piece(2, Some(3)), 1, TWO_LINES),
    // without a text, or with that for another number, each line is made and written alone
    (Noted::Piece(2, None), 2, TWO_LINES),
    (Noted::Piece(2, Some(4)), 2, TWO_LINES),
    (Noted::Closed(EndKind::Idle), 1, b"3 closed: idle\n"),
    (Noted::Closed(EndKind::Stopped), 1, b"3 closed: stopped\n"),
    (Noted::Closed(EndKind::Refused), 1, b"3 closed: refused\n"),
];

#[test]
fn a_note_is_written_at_once(rt: HostRuntime) -> Result<(), Fail> {
    for (at, row) in NOTED.iter().enumerate() {
        assert_in(&rt, at, gives_lines(rt.alloc(), *row)?);
    }
    Ok(())
}

/// A record alone, whose message is so often this byte.
fn alone(alloc: Global, byte: u8, count: usize) -> Result<LoggedRecords, Fail> {
    let mut text = Vec::new(alloc);
    for _ in 0..count {
        text.push(byte)?;
    }
    let mut records = Vec::new(alloc);
    records.push(record_with(text))?;
    logged_for(alloc, 3, &Records::new(records))
}

/// In how many writes the line of a record alone is written, and how many bytes it has.
fn line_alone(alloc: Global, byte: u8, count: usize) -> Result<(u64, usize), Fail> {
    let entry = piece(alone(alloc, byte, count)?);
    let mut watch = LineSink::new(counting_sink(alloc)?);
    watch.saw(&entry);
    let output = watch.into_output();
    Ok((output.writes, output.below.bytes().len()))
}

/// Records alone whose messages are so often a byte, and how many bytes the line has for each. The
/// longest that is kept in place has 104.
static ALONE: &[(u8, usize, usize)] = &[
    (b'm', 0, 1),
    (b'm', 104, 1),
    (b'm', 105, 1),
    (1, 104, 4),
    (1, 105, 4),
];

#[test]
fn a_record_alone_is_written_at_once(rt: HostRuntime) -> Result<(), Fail> {
    let beside = LINE.len() - 2;
    for (byte, count, width) in ALONE {
        let line = line_alone(rt.alloc(), *byte, *count)?;
        assert_same(&rt, line, (1, beside + count * width));
    }
    Ok(())
}

/// What a sink took that was lent a journal of three entries.
fn three_entries(alloc: Global) -> Result<CountingSink, Fail> {
    let sink = counting_sink(alloc)?;
    let returned = piece(logged(alloc, 2, Some(3))?);
    let mut watch = JournalSink::new(1, sink);
    watch.saw(&opened());
    watch.saw(&returned);
    watch.saw(&closed(EndKind::Idle));
    Ok(watch.into_output())
}

#[test]
fn an_entry_of_a_journal_is_written_at_once(rt: HostRuntime) -> Result<(), Fail> {
    let text = b"most 1\nopened 1 r--\nreturned 0 again piece 3 30 2 4:7:1:2:6869 4:7:1:2:6869\n\
          closed 1 end 3 idle\n";
    let output = three_entries(rt.alloc())?;
    let is_so = is_taken(&output, 3, text);
    drop(output);
    assert!(rt; is_so);
    Ok(())
}

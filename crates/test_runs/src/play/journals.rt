//! Scripts, with the journals and the lines that come of them.
use crate::asserts::assert_in;
use crate::play::playing::{Asked, play};
use core_loop::RunEnd;
use ev_base::MemSink;
use journal_text::JournalSink;
use log_handler::LineSink;
use std::alloc::Global;
use std::fmt::Write;
use std::sync::Wait;
use std::test::Fail;

/// What a script is played with if nothing is said.
const PLAIN: Asked = Asked {
    most: 1001,
    idle: None,
    until: None,
};

/// The same, with room for one connection.
const ALONE: Asked = Asked {
    most: 2,
    idle: None,
    until: None,
};

/// The same, until one connection was closed or refused.
const UNTIL_ONE: Asked = Asked {
    most: 1001,
    idle: None,
    until: Some(1),
};

/// The same, but a connection is closed after 100 quiet milliseconds.
const IDLE: Asked = Asked {
    most: 1001,
    idle: Some(100),
    until: None,
};

/// A script that is played, how its run ends, and a text that comes of it.
type Row = (&'static str, Asked, RunEnd, &'static str);

/// Scripts with the texts of their journals. The first has one connection with one record; in the
/// second a connection is refused; the third is stopped by a notice after the first closing; in
/// the fourth a connection is closed as idle before its input is read.
static JOURNALS: &[Row] = &[
    (
        "open 0\ndata 0 000000000000001600000004000000070000000100000002000000026869\nshut 0\n",
        PLAIN,
        RunEnd::Over,
        "most 1001\nopened 0 r--\npolled 0\nready 0 read\nstarted 2\n\
          returned 2 again accepted 0\nopened 1 r--\nstarted 4\nreturned 4 keep none\npolled 0\n\
          ready 1 read\nready 1 read\nstarted 9\nreturned 9 again piece 0 30 1 4:7:1:2:6869\n\
          started 10\nreturned 10 keep piece 0 0 0\nstarted 12\nreturned 12 close piece 0 0 0\n\
          closed 1 end 0 end\npolled 0\nended\nremoved 0\nclosed 0 shut\n",
    ),
    (
        "open 0\nopen 1\nshut 0\n",
        ALONE,
        RunEnd::Over,
        "most 2\nopened 0 r--\npolled 0\nready 0 read\nready 0 read\nstarted 2\n\
          returned 2 again accepted 0\nopened 1 r--\nstarted 3\nreturned 3 keep none\nstarted 5\n\
          returned 5 again accepted 1\nrefused 2 no end 1 refused\nstarted 10\n\
          returned 10 keep none\npolled 0\nready 1 read\nstarted 15\n\
          returned 15 close piece 0 0 0\nclosed 1 end 0 end\npolled 0\nended\nremoved 0\n\
          closed 0 shut\n",
    ),
    (
        "open 0\nshut 0\nat 5\nopen 1\n",
        UNTIL_ONE,
        RunEnd::Stopped,
        "most 1001\nopened 0 r--\npolled 0\nready 0 read\nstarted 2\n\
          returned 2 again accepted 0\nopened 1 r--\nstarted 4\nreturned 4 keep none\npolled 0\n\
          ready 1 read\nstarted 9\nreturned 9 close piece 0 0 0\nclosed 1 end 0 end\n\
          posted 0 except 0 0\nstarted 13\nreturned 13 keep none\nended\nremoved 0\n\
          closed 0 shut\n",
    ),
    (
        "open 0\nat 100\ndata 0 000000000000001600000004000000070000000100000002000000026869\n",
        IDLE,
        RunEnd::Over,
        "most 1001\nopened 0 r--\npolled 0\nready 0 read\nstarted 2\n\
          returned 2 again accepted 0\nopened 1 r--\nscheduled 0 1 100 100\nstarted 4\n\
          returned 4 keep none\npolled 100\ndue 0\nready 1 read\nstarted 10\n\
          returned 10 close piece 0 0 0\nclosed 1 end 0 idle\npolled 100\nended\nremoved 0\n\
          closed 0 shut\n",
    ),
];

/// Scripts with the lines of their notes. A record that comes in two pieces is read whole; an idle
/// connection is closed, at the second time that its timer comes due if a record came between; a
/// connection is refused; the notice comes before the second connection; a failure of the listener
/// is none of a connection, which fails later; a connection that is left open is stopped; and
/// nothing comes of nothing.
static LINES: &[Row] = &[
    (
        "open 0\ndata 0 000000000000001600000004\ndata 0 000000070000000100000002000000026869\n\
          shut 0\n",
        PLAIN,
        RunEnd::Over,
        "0 1,2 7 LM_DEBUG: hi\n0 closed: end\n",
    ),
    (
        "open 0\nat 100\ndata 0 000000000000001600000004000000070000000100000002000000026869\n",
        IDLE,
        RunEnd::Over,
        "0 closed: idle\n",
    ),
    (
        "open 0\nat 60\ndata 0 000000000000001600000004000000070000000100000002000000026869\n\
          at 350\nquiet\n",
        IDLE,
        RunEnd::Over,
        "0 1,2 7 LM_DEBUG: hi\n0 closed: idle\n",
    ),
    (
        "open 0\nopen 1\nshut 0",
        ALONE,
        RunEnd::Over,
        "1 closed: refused\n0 closed: end\n",
    ),
    (
        "open 0\nshut 0\nat 5\nopen 1",
        UNTIL_ONE,
        RunEnd::Stopped,
        "0 closed: end\n",
    ),
    (
        "open 0\nfail listener\n\
          data 0 000000000000001600000004000000070000000100000002000000026869\nfail 0",
        PLAIN,
        RunEnd::Over,
        "0 1,2 7 LM_DEBUG: hi\n0 closed: failed\n",
    ),
    ("open 0", PLAIN, RunEnd::Over, "0 closed: stopped\n"),
    ("", PLAIN, RunEnd::Over, ""),
];

/// A sink in memory.
fn sink(alloc: Global, room: usize) -> Result<MemSink, Fail> {
    MemSink::new(alloc, room, None).map_err(|_| Fail::from("no room"))
}

/// Whether a row's script comes to its journal.
fn is_journal<R: Wait>(rt: &R, alloc: Global, row: &Row) -> Result<bool, Fail> {
    let (script, asked, end, journal) = row;
    let watch = JournalSink::new(asked.most, sink(alloc, 4_096)?);
    let (ran, watch) = play(rt, alloc, script, *asked, watch)?;
    let written = watch.into_output();
    Ok(written.bytes() == journal.as_bytes() && ran == *end)
}

#[test]
fn journals_come_of_scripts(rt: HostRuntime) -> Result<(), Fail> {
    for (at, row) in JOURNALS.iter().enumerate() {
        assert_in(&rt, at, is_journal(&rt, rt.alloc(), row)?);
    }
    Ok(())
}

/// Whether a row's script comes to its lines.
fn are_lines<R: Wait>(rt: &R, alloc: Global, row: &Row) -> Result<bool, Fail> {
    let (script, asked, end, lines) = row;
    let watch = LineSink::new(sink(alloc, 4_096)?);
    let (ran, watch) = play(rt, alloc, script, *asked, watch)?;
    let written = watch.into_output();
    Ok(written.bytes() == lines.as_bytes() && ran == *end)
}

#[test]
fn lines_come_of_scripts(rt: HostRuntime) -> Result<(), Fail> {
    for (at, row) in LINES.iter().enumerate() {
        assert_in(&rt, at, are_lines(&rt, rt.alloc(), row)?);
    }
    Ok(())
}

//! Scripts, with the lines that come of them.
use crate::asserts::assert_in;
use crate::serve::playing::watch_script;
use ev_base::MemSink;
use log_handler::LineSink;
use server_run::{Asked, Ending};
use std::alloc::Global;
use std::sync::Wait;
use std::test::Fail;
use std::thread::Threads;

/// What a run is asked for if nothing is said: one worker, and room for 1,000 connections.
const PLAIN: Asked = Asked {
    workers: 1,
    connections: 1_000,
    idle: None,
    until: None,
    limit: None,
    volume: 512,
};

/// The same, with room for one connection.
const ALONE: Asked = Asked {
    workers: 1,
    connections: 1,
    idle: None,
    until: None,
    limit: None,
    volume: 512,
};

/// The same, until one connection was closed or refused.
const UNTIL_ONE: Asked = Asked {
    workers: 1,
    connections: 1_000,
    idle: None,
    until: Some(1),
    limit: None,
    volume: 512,
};

/// The same, but a connection is closed after 100 quiet milliseconds.
const IDLE: Asked = Asked {
    workers: 1,
    connections: 1_000,
    idle: Some(100),
    until: None,
    limit: None,
    volume: 512,
};

/// A script that is played, how its run ends, and a text that comes of it.
type Row = (&'static str, Asked, Ending, &'static str);

/// Scripts with the lines of their notes. A record that comes in two pieces is read whole; an idle
/// connection is closed, at the second time that its timer comes due if a record came between; a
/// connection is refused; the notice comes before the second connection; a failure of the listener
/// is none of a connection, which fails later; a connection that is left open is stopped; and
/// nothing comes of nothing.
static LINES: &[Row] = &[
    (
        "open 0\ndata 0 000000000000001600000004\ndata 0 000000070000000100000002000000026869\n\
          shut 0\n",
        PLAIN,
        Ending::Over,
        "0 1,2 7 LM_DEBUG: hi\n0 closed: end\n",
    ),
    (
        "open 0\nat 100\ndata 0 000000000000001600000004000000070000000100000002000000026869\n",
        IDLE,
        Ending::Over,
        "0 closed: idle\n",
    ),
    (
        "open 0\nat 60\ndata 0 000000000000001600000004000000070000000100000002000000026869\n\
          at 350\nquiet\n",
        IDLE,
        Ending::Over,
        "0 1,2 7 LM_DEBUG: hi\n0 closed: idle\n",
    ),
    (
        "open 0\nopen 1\nshut 0",
        ALONE,
        Ending::Over,
        "1 closed: refused\n0 closed: end\n",
    ),
    (
        "open 0\nshut 0\nat 5\nopen 1",
        UNTIL_ONE,
        Ending::Notified,
        "0 closed: end\n",
    ),
    (
        "open 0\nfail listener\n\
          data 0 000000000000001600000004000000070000000100000002000000026869\nfail 0",
        PLAIN,
        Ending::Over,
        "0 1,2 7 LM_DEBUG: hi\n0 closed: failed\n",
    ),
    ("open 0", PLAIN, Ending::Over, "0 closed: stopped\n"),
    ("", PLAIN, Ending::Over, ""),
];

/// A sink in memory.
pub(crate) fn sink(alloc: Global, room: usize, fail_after: Option<u64>) -> Result<MemSink, Fail> {
    MemSink::new(alloc, room, fail_after).map_err(|_| Fail::from("no room"))
}

/// Whether a row's script comes to its lines.
fn are_lines<R: Threads + Wait + Sync>(rt: &R, alloc: Global, row: &Row) -> Result<bool, Fail> {
    let (script, asked, end, lines) = row;
    let watch = LineSink::new(sink(alloc, 4_096, None)?);
    let (ending, watch) = watch_script(rt, alloc, script, *asked, watch)?;
    let written = watch.into_output();
    Ok(written.bytes() == lines.as_bytes() && ending == *end)
}

#[test]
fn lines_come_of_scripts(rt: HostRuntime) -> Result<(), Fail> {
    for (at, row) in LINES.iter().enumerate() {
        assert_in(&rt, at, are_lines(&rt, rt.alloc(), row)?);
    }
    Ok(())
}

//! Runs that a fault ends.
use crate::asserts::assert_in;
use crate::serve::journals::sink;
use crate::serve::playing::{Fails, NONE_FAILS, numbers, play};
use journal_text::JournalSink;
use reactor_model::MemVolumes;
use server_run::{Asked, Ending};
use std::alloc::Global;
use std::sync::Wait;
use std::test::Fail;
use std::thread::Threads;

/// A connection that is opened and shut.
const SCRIPT: &str = "open 0\nshut 0\n";

/// What a run is asked for: one worker, which hands each entry over at once.
const ASKED: Asked = Asked {
    workers: 1,
    connections: 10,
    idle: None,
    until: None,
    limit: None,
    volume: 1,
};

/// The calls of the net that fail; the number of the volume that is not taken; after how many
/// bytes a write fails; how the run ends by that; and the journal of one worker, as far as it was
/// written.
type Row = (Fails, Option<u64>, Option<u64>, Ending, &'static str);

/// The first wait fails.
const WAIT_FAILS: Fails = Fails {
    wait: Some(0),
    attach: None,
};

/// The listener is not attached.
const ATTACH_FAILS: Fails = Fails {
    wait: None,
    attach: Some(0),
};

/// A wait fails; the listener is not attached; the first volume is not taken; a write fails at the
/// registration of the acceptor, and one at its closing, after a wait that failed.
static ROWS: &[Row] = &[
    (
        WAIT_FAILS,
        None,
        None,
        Ending::NetFault,
        "most 11\nopened 0 r--\nended\nremoved 0\nclosed 0 shut\n",
    ),
    (
        ATTACH_FAILS,
        None,
        None,
        Ending::NotAttached,
        "most 11\nended\n",
    ),
    (
        NONE_FAILS,
        Some(0),
        None,
        Ending::VolumeFault,
        "most 11\nopened 0 r--\nended\nremoved 0\nclosed 0 shut\n",
    ),
    (NONE_FAILS, None, Some(8), Ending::Broken, "most 11\n"),
    (
        WAIT_FAILS,
        None,
        Some(37),
        Ending::Broken,
        "most 11\nopened 0 r--\nended\nremoved 0\n",
    ),
];

/// Whether a row's run ends as it says, with its journal.
fn ends_so<R: Threads + Wait + Sync>(rt: &R, alloc: Global, row: &Row) -> Result<bool, Fail> {
    let (fails, volume, write, end, journal) = row;
    let refused = numbers(alloc, *volume)?;
    let watch = JournalSink::new(11, sink(alloc, 4_096, *write)?);
    let volumes = MemVolumes::new(alloc, refused);
    let (ending, watch) = play(rt, alloc, SCRIPT, ASKED, *fails, watch, volumes)?;
    let written = watch.into_output();
    Ok(written.bytes() == journal.as_bytes() && ending == *end)
}

#[test]
fn faults_end_runs(rt: HostRuntime) -> Result<(), Fail> {
    for (at, row) in ROWS.iter().enumerate() {
        assert_in(&rt, at, ends_so(&rt, rt.alloc(), row)?);
    }
    Ok(())
}

//! Runs of the command over hosts that play a script: how each ends, and what it writes.
use cmd_pool::{Pooled, pool_main};
use ev_base::MemSink;
use script_net::{ScriptHost, ScriptNet};
use script_text::parse_script;
use std::alloc::Global;
use std::process::Abort;
use std::sync::Wait;
use std::test::Fail;
use std::thread::Threads;

/// A connection that sends a record in two pieces and ends.
const RECORD: &str =
    "open 0\ndata 0 000000000000001600000004\ndata 0 000000070000000100000002000000026869\n\
      shut 0\n";

/// What is written for it.
const LINES: &[u8] = b"0 1,2 7 LM_DEBUG: hi\n0 closed: end\n";

/// Two connections with a record each, which end in the other order.
const TWO: &str =
    "open 0\nopen 1\ndata 1 0000000000000016000000040000000700000001000000020000000268\
69\nshut 1\nat 5\ndata 0 000000000000001600000004000000070000000100000002000000026869\nshut 0\n";

/// What is written for them, connection after connection.
const BOTH: &[u8] = b"0 1,2 7 LM_DEBUG: hi\n0 closed: end\n1 1,2 7 LM_DEBUG: hi\n1 closed: end\n";

/// Words, a script, the waits of its net that fail, after how many bytes the output fails, the
/// status, and what is written.
type Row<'a> = (&'a str, &'a str, &'a [u64], Option<u64>, u8, &'a [u8]);

/// Runs over hosts.
static ROWS: &[Row<'static>] = &[
    (
        "pool --port 7000 --workers 4 --writers 2",
        RECORD,
        &[],
        None,
        0,
        LINES,
    ),
    ("pool --port=7000", RECORD, &[], None, 0, LINES),
    (
        "pool --writers 16 --port 7000 --workers 2",
        TWO,
        &[],
        None,
        0,
        BOTH,
    ),
    (
        "pool --workers 8 --writers 16 --port 7000",
        TWO,
        &[],
        None,
        0,
        BOTH,
    ),
    ("pool --port 7000", "", &[], None, 0, b""),
    ("pool --port 7000", RECORD, &[], Some(10), 4, b"0 1,2 7 LM"),
    ("pool --port 7000", RECORD, &[0], None, 5, b""),
    ("pool", RECORD, &[], None, 1, b""),
    ("pool --port 0", RECORD, &[], None, 1, b""),
    ("pool --port 7000 --writers 17", RECORD, &[], None, 1, b""),
    ("pool --port 7000 --workers 65", RECORD, &[], None, 1, b""),
    ("pool --port 7000 --port 7000", RECORD, &[], None, 1, b""),
    ("pool --port 7000 --", RECORD, &[], None, 1, b""),
    ("serve --port 7000", RECORD, &[], None, 1, b""),
];

/// The words of a line, which are parted by one space.
pub(crate) fn words_of(alloc: Global, line: &str) -> Result<Vec<String>, Fail> {
    let mut words = Vec::new(alloc);
    for word in line.split(' ') {
        words.push(String::from_str(alloc, word)?)?;
    }
    Ok(words)
}

/// A host that plays a script, some waits of whose net fail.
fn host_of(alloc: Global, script: &str, waits: &[u64]) -> Result<ScriptHost, Fail> {
    let waits = Vec::from_slice(alloc, waits)?;
    let (net, listener, waker) = parse_script(alloc, script.as_bytes(), 0)?.parts();
    let mut net = net;
    net.fail_waits(waits);
    Ok(ScriptHost::of_parts(net, listener, waker))
}

/// What the words of a line leave with a host.
fn run<R: Threads + Wait + Copy + Send + Sync + 'static>(
    rt: &R,
    alloc: Global,
    line: &str,
    host: &mut ScriptHost,
    fail_after: Option<u64>,
) -> Result<Pooled<ScriptNet, MemSink>, Fail> {
    let words = words_of(alloc, line)?;
    let output = MemSink::new(alloc, 4_096, fail_after)?;
    Ok(pool_main(rt, alloc, &words, host, output))
}

/// Whether a row ends with its status, and writes what it is to write.
fn is_so<R: Threads + Wait + Copy + Send + Sync + 'static>(
    rt: &R,
    alloc: Global,
    row: &Row<'_>,
) -> Result<bool, Fail> {
    let (line, script, waits, fail_after, status, written) = *row;
    let mut host = host_of(alloc, script, waits)?;
    let pooled = run(rt, alloc, line, &mut host, fail_after)?;
    Ok(pooled.status == status && pooled.output.bytes() == written)
}

#[test]
fn rows_end_with_their_status_and_lines(rt: HostRuntime) -> Result<(), Fail> {
    for row in ROWS {
        assert!(rt; is_so(&rt, rt.alloc(), row)?, "{}", row.0);
    }
    Ok(())
}

#[test]
fn a_host_that_refuses_is_told(rt: HostRuntime) -> Result<(), Fail> {
    let mut host = ScriptHost::new(None, true);
    let pooled = run(&rt, rt.alloc(), "pool --port 7000", &mut host, None)?;
    assert!(rt; pooled.status == 7 && pooled.net.is_none() && pooled.output.bytes().is_empty());
    Ok(())
}

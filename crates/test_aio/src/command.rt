//! Runs of the command over hosts that play a script: how each ends, and what it writes.
use cmd_aio::aio_main;
use ev_base::{Handle, MemSink};
use script_net::{ScriptHost, ScriptNet};
use script_text::parse_script;
use std::alloc::Global;
use std::process::Abort;
use std::sync::Wait;
use std::test::Fail;

/// A connection that sends three bytes in two pieces and ends.
const THREE: &str = "open 0\ndata 0 6869\ndata 0 6a\nshut 0\n";

/// One that sends three bytes at once and ends.
const ONCE: &str = "open 0\ndata 0 686970\nshut 0\n";

/// Two connections, which end in the other order.
const TWO: &str = "open 0\nopen 1\ndata 1 61\nshut 1\nat 5\ndata 0 6263\nshut 0\n";

/// One that fails, and one that stays.
const FAILS: &str = "open 0\nopen 1\ndata 0 6869\ndata 1 61\nfail 0\n";

/// What a run is asked for and what it meets: the words, the script, how many bytes the ends take,
/// which waits and attaches of the net fail, after how many bytes the output does, and whether the
/// host refuses to listen; then its status, what it writes, and what the end of the first
/// connection holds, if it is looked at.
#[derive(Clone, Copy)]
struct Row {
    line: &'static str,
    script: &'static str,
    room: usize,
    waits: &'static [u64],
    attaches: &'static [u64],
    fail_after: Option<u64>,
    refuses: bool,
    status: u8,
    written: &'static [u8],
    held: Option<&'static [u8]>,
}

/// A run in which nothing fails.
const PLAIN: Row = Row {
    line: "aio --port 7000",
    script: THREE,
    room: 100,
    waits: &[],
    attaches: &[],
    fail_after: None,
    refuses: false,
    status: 0,
    written: b"",
    held: None,
};

/// Words that do not call the command.
const USAGE: Row = Row { status: 1, ..PLAIN };

/// Runs over hosts.
static ROWS: [Row; 17] = [
    Row {
        written: b"0 read 3 wrote 3 cancelled 0\n",
        held: Some(b"hij"),
        ..PLAIN
    },
    Row {
        script: ONCE,
        room: 2,
        written: b"0 read 3 wrote 2 cancelled 1\n",
        held: Some(b"hi"),
        ..PLAIN
    },
    Row {
        line: "aio --until 1 --port=7000",
        script: TWO,
        written: b"1 read 1 wrote 1 cancelled 0\n0 read 0 wrote 0 cancelled 1\n",
        ..PLAIN
    },
    Row {
        script: TWO,
        written: b"1 read 1 wrote 1 cancelled 0\n0 read 2 wrote 2 cancelled 0\n",
        ..PLAIN
    },
    Row {
        script: FAILS,
        written: b"0 read 2 wrote 2 cancelled 0\n1 read 1 wrote 1 cancelled 1\n",
        ..PLAIN
    },
    Row {
        script: "open 0\ndata 0 61\nshut 0\n",
        attaches: &[1],
        written: b"0 read 0 wrote 0 cancelled 1\n",
        ..PLAIN
    },
    Row {
        script: "",
        ..PLAIN
    },
    Row {
        fail_after: Some(10),
        status: 4,
        written: b"0 read 3 w",
        ..PLAIN
    },
    Row {
        waits: &[0],
        status: 5,
        ..PLAIN
    },
    Row {
        attaches: &[0],
        status: 5,
        ..PLAIN
    },
    Row {
        refuses: true,
        status: 7,
        ..PLAIN
    },
    Row {
        line: "aio",
        ..USAGE
    },
    Row {
        line: "aio --port 0",
        ..USAGE
    },
    Row {
        line: "aio --port 7000 --until 0",
        ..USAGE
    },
    Row {
        line: "aio --port 7000 --port 7000",
        ..USAGE
    },
    Row {
        line: "aio --port 7000 --",
        ..USAGE
    },
    Row {
        line: "pool --port 7000",
        ..USAGE
    },
];

/// The words of a line, which are parted by one space.
fn words_of(alloc: Global, line: &str) -> Result<Vec<String>, Fail> {
    let mut words = Vec::new(alloc);
    for word in line.split(' ') {
        words.push(String::from_str(alloc, word)?)?;
    }
    Ok(words)
}

/// A host that plays a script, some waits and attaches of whose net fail, or one that refuses.
fn host_of(alloc: Global, row: &Row) -> Result<ScriptHost, Fail> {
    if row.refuses {
        return Ok(ScriptHost::new(None, true));
    }
    let script = parse_script(alloc, row.script.as_bytes(), row.room)?;
    let (mut net, listener, waker) = script.parts();
    net.fail_waits(Vec::from_slice(alloc, row.waits)?);
    net.fail_attaches(Vec::from_slice(alloc, row.attaches)?);
    Ok(ScriptHost::of_parts(net, listener, waker))
}

/// What the end of the first connection holds.
fn held(net: &Option<ScriptNet>) -> Option<&[u8]> {
    Some(net.as_ref()?.retired(Handle(1))?.held())
}

fn see<R: Wait + Abort>(rt: &R, alloc: Global, row: &Row) -> Result<(), Fail> {
    let mut host = host_of(alloc, row)?;
    let words = words_of(alloc, row.line)?;
    let output = MemSink::new(alloc, 4_096, row.fail_after)?;
    let served = aio_main(rt, alloc, &words, &mut host, output);
    assert!(*rt; served.status == row.status, "{}", row.line);
    assert!(*rt; served.output.bytes() == row.written, "{}", row.line);
    assert!(*rt;
        served.net.is_none() == (row.refuses || row.status == 1),
        "{}",
        row.line
    );
    if row.held.is_some() {
        assert!(*rt; held(&served.net) == row.held, "{}", row.line);
    }
    Ok(())
}

#[test]
fn rows_end_with_their_status_and_lines(rt: HostRuntime) -> Result<(), Fail> {
    for row in &ROWS {
        see(&rt, rt.alloc(), row)?;
    }
    Ok(())
}

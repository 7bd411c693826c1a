//! Words that run the server over scripts and over hosts that play one: how each run ends, and what
//! it writes.
use crate::asserts::{assert_in, assert_same_in};
use crate::running::{LINES, Ran, room, run_short, run_words, see, source, volumes, words_of};
use script_net::ScriptHost;
use script_text::parse_script;
use std::alloc::Global;
use std::process::Abort;
use std::sync::Wait;
use std::test::Fail;
use std::thread::Threads;
use std::time::Clock;

/// A connection that sends a record in two pieces and ends.
const RECORD: &str =
    "open 0\ndata 0 000000000000001600000004\ndata 0 000000070000000100000002000000026869\n\
      shut 0\n";

/// One that ends, and one that comes later.
const TWO: &str = "open 0\nshut 0\nat 5\nopen 1\n";

/// Runs words on an input, with a host that refuses to listen.
pub(crate) fn run<R: Clock + Threads + Wait + Copy + Send + Sync + 'static>(
    rt: &R,
    alloc: Global,
    words: &str,
    input: &str,
) -> Result<Ran, Fail> {
    let input = source(alloc, &[input.as_bytes()], &[])?;
    run_short(rt, alloc, words, input, None)
}

/// Runs words without an input, with a host.
fn run_hosted<R: Clock + Threads + Wait + Copy + Send + Sync + 'static>(
    rt: &R,
    alloc: Global,
    words: &str,
    host: &mut ScriptHost,
) -> Result<Ran, Fail> {
    let words = words_of(alloc, words)?;
    let output = room(alloc, None)?;
    let input = source(alloc, &[], &[])?;
    let left = run_words(rt, alloc, &words, host, input, output, volumes(alloc, &[])?);
    drop(words);
    Ok(left.ran())
}

/// A host that plays a script, some waits and attaches of whose net fail, by their numbers from 0.
fn host_of(
    alloc: Global,
    script: &str,
    waits: &[u64],
    attaches: &[u64],
) -> Result<ScriptHost, Fail> {
    let waits = Vec::from_slice(alloc, waits)?;
    let attaches = Vec::from_slice(alloc, attaches)?;
    let (net, listener, waker) = parse_script(alloc, script.as_bytes(), 0)?.parts();
    let mut net = net;
    net.fail_waits(waits);
    net.fail_attaches(attaches);
    Ok(ScriptHost::of_parts(net, listener, waker))
}

/// A run over a host that plays a script: its words, the script, the waits and the attaches that
/// fail, the status, what is written, and how many entries the journal has if the run fails.
type Hosted<'a> = (
    &'a str,
    &'a str,
    &'a [u64],
    &'a [u64],
    u8,
    &'a [u8],
    Option<usize>,
);

/// Runs over hosts.
static HOSTED: &[Hosted<'static>] = &[
    ("serve --port 7000", RECORD, &[], &[], 0, LINES, None),
    (
        "serve --workers 4 --timers heap --port=7000",
        RECORD,
        &[],
        &[],
        0,
        LINES,
        None,
    ),
    (
        "serve --until 1 --port 7000",
        TWO,
        &[],
        &[],
        0,
        b"0 closed: end\n",
        None,
    ),
    ("serve --port 7000", "", &[], &[], 0, b"", None),
    ("serve --port 7000", RECORD, &[0], &[], 5, b"", Some(4)),
    (
        "serve --workers 4 --port 7000",
        RECORD,
        &[0],
        &[],
        5,
        LINES,
        None,
    ),
    ("serve --port 7000", RECORD, &[], &[0], 5, b"", Some(1)),
];

/// Runs words with a host that plays a script, some waits and attaches of whose net fail.
fn run_script<R: Clock + Threads + Wait + Copy + Send + Sync + 'static>(
    rt: &R,
    alloc: Global,
    (words, script, waits, attaches): (&str, &str, &[u64], &[u64]),
) -> Result<Ran, Fail> {
    let mut host = host_of(alloc, script, waits, attaches)?;
    let ran = run_hosted(rt, alloc, words, &mut host);
    drop(host);
    ran
}

/// Sees a run over a host that plays a script.
fn see_hosted<R: Abort + Clock + Threads + Wait + Copy + Send + Sync + 'static>(
    rt: &R,
    alloc: Global,
    (words, script, waits, attaches, status, lines, entries): Hosted<'_>,
) -> Result<(), Fail> {
    let ran = run_script(rt, alloc, (words, script, waits, attaches))?;
    see(rt, words, &ran, (status, 0), lines);
    let (has_net, count) = (ran.has_net, ran.entries);
    drop(ran);
    assert_in(rt, words, has_net);
    if let Some(entries) = entries {
        assert_same_in(rt, words, count, entries);
    }
    Ok(())
}

/// Sees a run over a host that refuses to listen.
fn see_unheard<R: Abort + Clock + Threads + Wait + Copy + Send + Sync + 'static>(
    rt: &R,
    alloc: Global,
) -> Result<(), Fail> {
    let ran = run(rt, alloc, "serve --port 7000", "")?;
    let ending = (ran.status, ran.at, ran.has_net);
    drop(ran);
    assert!(*rt; ending == (7, 0, false), "a host that refuses to listen");
    Ok(())
}

#[test]
fn a_host_is_served(rt: HostRuntime) -> Result<(), Fail> {
    let alloc = rt.alloc();
    for row in HOSTED {
        see_hosted(&rt, alloc, *row)?;
    }
    see_unheard(&rt, alloc)
}

/// Words, a script, the status with its number, and what is written.
static REPLAYED: &[(&str, &str, (u8, u64), &[u8])] = &[
    ("replay", RECORD, (0, 0), LINES),
    ("replay --grouped --timers wheel", RECORD, (0, 0), LINES),
    ("replay --workers=2", "", (0, 0), b""),
    ("replay", "open 1\n", (2, 1), b""),
    (
        "replay --journal",
        "open 0\nshut 0\ndata 0 00\n",
        (2, 3),
        b"",
    ),
];

/// Sees how a run over a script ends, and what it writes.
fn see_replayed<R: Abort + Clock + Threads + Wait + Copy + Send + Sync + 'static>(
    rt: &R,
    alloc: Global,
    (words, script, ending, lines): (&str, &str, (u8, u64), &[u8]),
) -> Result<(), Fail> {
    let ran = run(rt, alloc, words, script)?;
    see(rt, words, &ran, ending, lines);
    Ok(())
}

#[test]
fn a_script_is_replayed(rt: HostRuntime) -> Result<(), Fail> {
    let alloc = rt.alloc();
    for row in REPLAYED {
        see_replayed(&rt, alloc, *row)?;
    }
    Ok(())
}

/// Sees the summary of a generated script.
fn see_summary<R: Abort + Clock + Threads + Wait + Copy + Send + Sync + 'static>(
    rt: &R,
    alloc: Global,
    words: &str,
    summary: &str,
) -> Result<(), Fail> {
    let ran = run(rt, alloc, words, "")?;
    see(rt, words, &ran, (0, 0), summary.as_bytes());
    let first = ran.first;
    drop(ran);
    assert_same_in(rt, words, first, 0);
    Ok(())
}

#[test]
fn generated_scripts_are_run(rt: HostRuntime) -> Result<(), Fail> {
    let alloc = rt.alloc();
    let one = "connections 1\nrecords 125\nbytes 6035\nlines 126\n";
    see_summary(&rt, alloc, "gen 1 0", one)?;
    let forty = "connections 40\nrecords 5000\nbytes 242500\nlines 5040\n";
    see_summary(&rt, alloc, "gen 40 7", forty)?;
    let eighty = "connections 80\nrecords 10000\nbytes 485000\nlines 10080\n";
    see_summary(&rt, alloc, "gen 80 7", eighty)
}

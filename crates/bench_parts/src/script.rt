//! What it costs to read the text of a script of network events from standard input.

use script_text::{ScriptRefused, parse_script};
use std::alloc::Global;
use std::io;
use std::io::Read;
use std::time::Instant;

/// How often a text is read if that is timed.
const TIMES: usize = 5;

/// Says what the text on standard input is, or, if it is timed, reads it five times and prints
/// the number of its first bad line, or 0, and the nanoseconds of the fastest time.
pub fn run(rt: &HostRuntime, timed: bool) -> io::Result<()> {
    let mut text = Vec::new(rt.alloc());
    rt.stdin().read_to_end(&mut text)?;
    if timed {
        return time(rt, &text);
    }
    match first_bad(rt.alloc(), &text) {
        None => println!(rt; "no memory"),
        Some(0) => println!(rt; "a script"),
        Some(line) => println!(rt; "line {line} may not stand in a script"),
    }
}

/// The number of the first bad line of a text, or 0 if it is a script; None if there was no
/// memory.
fn first_bad(alloc: Global, text: &[u8]) -> Option<u64> {
    match parse_script(alloc, text, 0) {
        Ok(_) => Some(0),
        Err(ScriptRefused::BadScript { line }) => Some(line),
        Err(ScriptRefused::NoMemory) => None,
    }
}

/// Reads a text several times, and prints the fastest of them.
fn time(rt: &HostRuntime, text: &[u8]) -> io::Result<()> {
    let mut best = u128::MAX;
    let mut bad = None;
    for _ in 0..TIMES {
        let start = Instant::now(rt)?;
        bad = first_bad(rt.alloc(), text);
        best = best.min(start.elapsed(rt)?.as_nanos());
    }
    match bad {
        None => println!(rt; "no memory"),
        Some(line) => println!(rt; "{line} {best}"),
    }
}

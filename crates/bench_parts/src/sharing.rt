//! What a hold of the token and a posting cost.

use crate::cost::cost;
use crate::posts::Way;
use crate::{holds, posts};
use std::alloc::Global;
use std::io;
use std::rt::Runtime;
use std::sync::Wait;
use std::thread::Threads;
use std::time::Instant;

/// Makes a few holds and postings, or if it is timed many.
pub fn run<R: Runtime + Threads + Wait + Sync>(
    rt: &R,
    alloc: Global,
    timed: bool,
) -> io::Result<()> {
    let holds = [
        (1, "one thread"),
        (2, "two threads"),
        (4, "four threads"),
        (8, "eight threads"),
    ];
    for (threads, by) in holds {
        time_hold(rt, alloc, timed, (), threads, "hold", by)?;
    }
    for (threads, by) in [(1, "one thread"), (4, "four threads")] {
        let bytes = [0u8; 8_704];
        time_hold(rt, alloc, timed, bytes, threads, "hold of 8704 bytes", by)?;
    }
    time_posts(rt, alloc, timed)
}

// Holds by so many threads of a value that holds these bytes.
fn time_hold<R: Runtime + Threads + Wait + Sync, B: Drop + Send>(
    rt: &R,
    alloc: Global,
    timed: bool,
    bytes: B,
    threads: u64,
    what: &str,
    by: &str,
) -> io::Result<()> {
    let turns = if timed { 400_000 } else { 100 };
    let Ok((token, root)) = holds::token_with(alloc, bytes) else {
        return Ok(());
    };
    let start = Instant::now(rt)?;
    let held = holds::hold_by(rt, &token, root, threads, turns);
    let nanos = start.elapsed(rt)?.as_nanos();
    println!(rt; "{what}, {by}: {}", cost(timed, held, nanos))
}

// Postings through a ring.
fn time_posts<R: Runtime + Threads + Wait + Sync>(
    rt: &R,
    alloc: Global,
    timed: bool,
) -> io::Result<()> {
    let turns = if timed { 1_000_000 } else { 100 };
    let ways = [
        (Way::Alone, "one thread"),
        (Way::OneToOne, "one to one"),
        (Way::FourToOne, "four to one"),
    ];
    for (way, by) in ways {
        let start = Instant::now(rt)?;
        let posted = posts::post_by(rt, alloc, way, turns);
        let nanos = start.elapsed(rt)?.as_nanos();
        println!(rt; "post and next, {by}: {}", cost(timed, posted, nanos))?;
    }
    Ok(())
}

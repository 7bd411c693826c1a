//! What an event costs in a pool of workers: to lead, to make the upcall and to settle it. The
//! handles are reported in turn, 256 for each wait, and the journal is handed over in volumes of
//! 65,536 entries, which are let go.

ghost use Rattle.std.specs.Prelude.{◌≤◌};

mod calls;
mod core_runs;
mod events;
mod slow_net;

use calls::slowest_calls;
use core_runs::serve_core;
use events::serve_pool;
use std::alloc::Global;
use std::io;
use std::sync::Wait;
use std::thread::Threads;
use std::time::{Clock, Instant};
use test_pool::{NoPool, next_number};

/// How many events a run has that is timed.
const MANY: u64 = 1_000_000;

/// How many one has that is not.
const FEW: u64 = 2_048;

/// How many turns of a generator of numbers are timed, to find how many take 20 microseconds.
const TURNS: u32 = 20_000_000;

/// Serves events by pools of 1, 2, 4 and 8 workers, and by the one-thread reactor of the same net,
/// and prints how each run ended. If it is timed there are about 1,000,000 events in each run,
/// and it prints nanoseconds for each; then how many upcalls of about 20 microseconds of work
/// workers make in a second; and how long the slowest of 10,000 removals, and of 10,000 settlings,
/// took beside a leader whose net waits up to 10 seconds.
pub fn report_pools<R: Threads + Wait + Clock + Print + Copy + Send + Sync>(
    rt: &R,
    alloc: Global,
    timed: bool,
) -> io::Result<()> {
    let events = if timed { MANY } else { FEW };
    for handles in [1, 100, 4_000] {
        let core = report_core(rt, alloc, timed, handles, events)?;
        for workers in [1, 2, 4, 8] {
            report_pool(rt, alloc, timed, handles, workers, events, core)?;
        }
    }
    if timed {
        report_work(rt, alloc)?;
        return report_slowest(rt, alloc);
    }
    Ok(())
}

/// Serves events by the one-thread reactor, and tells how many nanoseconds they took, or prints
/// that a run was made.
fn report_core<R: Threads + Wait + Clock + Print + Copy + Send + Sync>(
    rt: &R,
    alloc: Global,
    timed: bool,
    handles: u64,
    events: u64,
) -> io::Result<u128>
    requires least { 1 ≤ handles }
    requires greatest { handles ≤ 4097 }
{
    match serve_core(rt, alloc, handles, events)? {
        Ok(nanos) => {
            if timed {
                println!(rt;
                    "{handles} handles, one thread: {} ns for an event",
                    nanos / events.max(1) as u128
                )?;
            }
            Ok(nanos)
        }
        Err(NoPool) => {
            println!(rt; "no memory")?;
            Ok(0)
        }
    }
}

/// Serves events by a pool, and prints how many nanoseconds they took beside those of the
/// one-thread reactor, or how the run ended.
fn report_pool<R: Threads + Wait + Clock + Print + Copy + Send + Sync>(
    rt: &R,
    alloc: Global,
    timed: bool,
    handles: u64,
    workers: usize,
    events: u64,
    core: u128,
) -> io::Result<()>
    requires least { 1 ≤ handles }
    requires greatest { handles ≤ 4097 }
    requires many { 1 ≤ workers }
    requires few { workers ≤ 60 }
{
    match serve_pool(rt, alloc, handles, workers, 0, events)? {
        Ok(run) if timed => {
            let each = run.nanos / events.max(1) as u128;
            let hundredths = run.nanos.saturating_mul(100) / core.max(1);
            println!(rt;
                "{handles} handles, {workers} workers: {each} ns for an event, {}.{:02} times one thread",
                hundredths / 100,
                hundredths % 100
            )
        }
        Ok(run) => println!(rt; "{handles} handles, {workers} workers: {:?}", run.ran),
        Err(NoPool) => println!(rt; "{handles} handles, {workers} workers: no memory"),
    }
}

/// How many turns of a generator of numbers take about 20 microseconds.
fn turns_of_20_microseconds<R: Clock + Print>(rt: &R) -> io::Result<u32> {
    let start = Instant::now(rt)?;
    let mut number = 1;
    for _ in 0..TURNS {
        number = next_number(number);
    }
    let nanos = start.elapsed(rt)?.as_nanos();
    println!(rt; "a generator of numbers came to {number} in {nanos} ns")?;
    let turns = u128::from(TURNS).saturating_mul(20_000) / nanos.max(1);
    Ok(u32::try_from(turns).unwrap_or(TURNS))
}

/// Prints how many upcalls of 20 microseconds of work are made in a second, by one worker and by
/// four.
fn report_work<R: Threads + Wait + Clock + Print + Copy + Send + Sync>(
    rt: &R,
    alloc: Global,
) -> io::Result<()> {
    let turns = turns_of_20_microseconds(rt)?;
    let events = 200_000;
    for workers in [1, 2, 4, 8] {
        match serve_pool(rt, alloc, 100, workers, turns, events)? {
            Ok(run) => {
                let rate = u128::from(events).saturating_mul(1_000_000_000) / run.nanos.max(1);
                println!(rt;
                    "{workers} workers, upcalls of 20 microseconds: {rate} events a second"
                )?
            }
            Err(NoPool) => println!(rt; "{workers} workers: no memory")?,
        }
    }
    Ok(())
}

/// Prints how long the slowest calls took beside a leader whose net waits long.
fn report_slowest<R: Threads + Wait + Clock + Print + Copy + Send + Sync>(
    rt: &R,
    alloc: Global,
) -> io::Result<()> {
    match slowest_calls(rt, alloc) {
        Ok(slowest) => println!(rt;
            "beside a leader that waits up to 10 s: slowest of 10000 removals {} us, of {} settlings {} us",
            slowest.remove / 1_000,
            slowest.settled,
            slowest.settle / 1_000
        ),
        Err(NoPool) => println!(rt; "no memory"),
    }
}

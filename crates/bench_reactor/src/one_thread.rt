//! What an event costs in the one-thread reactor: to wait for it, to start its upcall, to make it
//! and to settle it. The handles are reported or notified in turn, 256 for each wait, also if
//! handles between them were closed, and the journal is handed over in volumes of 65,536 entries,
//! which are let go. A call that is refused is made once more.

ghost use Rattle.std.specs.Prelude.{◌≤◌};
ghost use Rattle.core_loop.specs.Idle.{IsIdle};
ghost use Rattle.test_nets.specs.RoundRobin.{round_robin_rows};

mod calls;
mod gaps;
mod runs;

use calls::run_calls;
use ev_base::Handle;
use gaps::Gaps;
use runs::{
    BenchRows, EVENTS_OF_WAIT, Refused, entries_of, reactor, register_all, serve_posts,
    serve_reports,
};
use std::io;
use std::time::Instant;

/// How the events of a run come about.
#[derive(Clone, Copy, PartialEq, Eq)]
enum By {
    /// The net reports them.
    Reports,
    /// They are posted to handles with such gaps between them.
    Posts(Gaps),
}

/// How many events a run had, how many nanoseconds they took, and how many entries it handed over
/// and held in the end.
#[derive(Clone, Copy)]
struct Served {
    events: u64,
    nanos: u128,
    handed: u64,
    held: u64,
}

/// How many waits come to about 1,000,000 events.
const LONG: u64 = 3_907;

/// How many waits come to about 10,000,000 events.
const LONGER: u64 = 39_063;

/// What is run, and what is printed of it.
#[derive(Clone, Copy, PartialEq, Eq)]
pub enum Asked {
    /// Few events, whose entries are counted, and the journal of a short run that makes every call.
    Few,
    /// That journal alone.
    Calls,
    /// About 1,000,000 events: nanoseconds for each.
    Timed,
    /// About 1,000,000 events of each kind with 4,000 handles: how many entries there were.
    Long,
    /// The same with about 10,000,000.
    Longer,
}

/// Runs what is asked for, and prints what it came to.
pub fn report_runs(rt: &HostRuntime, asked: Asked) -> io::Result<()> {
    match asked {
        Asked::Few => {
            report_each(rt, false, 4)?;
            report_calls(rt)
        }
        Asked::Calls => report_calls(rt),
        Asked::Timed => report_each(rt, true, LONG),
        Asked::Long => report_long(rt, LONG),
        Asked::Longer => report_long(rt, LONGER),
    }
}

/// Events of each kind with 4,000 handles, for so many waits.
fn report_long(rt: &HostRuntime, waits: u64) -> io::Result<()> {
    report(rt, false, By::Reports, 4_000, waits)?;
    report(rt, false, By::Posts(Gaps::None), 4_000, waits)
}

/// Events of each kind with 1, 100 and 4,000 handles, and with gaps between these, for so many
/// waits.
fn report_each(rt: &HostRuntime, timed: bool, waits: u64) -> io::Result<()> {
    for by in [By::Reports, By::Posts(Gaps::None)] {
        for handles in [1, 100, 4_000] {
            report(rt, timed, by, handles, waits)?;
        }
    }
    for gaps in [Gaps::EveryOther, Gaps::Random, Gaps::BehindFirst] {
        report(rt, timed, By::Posts(gaps), 4_000, waits)?;
    }
    Ok(())
}

/// Prints the journal of the short run that makes every call, first the entries that were handed
/// over.
fn report_calls(rt: &HostRuntime) -> io::Result<()> {
    let calls = match run_calls(rt.alloc()) {
        Ok(calls) => calls,
        Err(Refused) => return println!(rt; "no reactor was made"),
    };
    for entry in calls.volumes.entries() {
        println!(rt; "{entry:?}")?;
    }
    for entry in calls.journal.as_slice() {
        println!(rt; "{entry:?}")?;
    }
    match calls.made {
        Ok(()) => Ok(()),
        Err(Refused) => println!(rt; "a call was refused twice"),
    }
}

/// The gaps between the handles of a run.
fn gaps_of(by: By) -> Gaps {
    match by {
        By::Reports => Gaps::None,
        By::Posts(gaps) => gaps,
    }
}

/// Serves the events of so many waits, if handlers were registered: at these handles.
fn serve(
    core: &mut BenchRows,
    by: By,
    registered: Result<Vec<Handle>, Refused>,
    waits: u64,
) -> Result<u64, Refused>
    requires { IsIdle round_robin_rows core.old }
    ensures { IsIdle round_robin_rows core.new }
{
    let live = registered?;
    match by {
        By::Reports => serve_reports(core, waits),
        By::Posts(_) => serve_posts(core, &live, waits),
    }
}

/// Makes a reactor with so many handlers, and serves the events of so many waits.
fn run(rt: &HostRuntime, by: By, handles: u64, waits: u64) -> io::Result<Result<Served, Refused>>
    requires least { 1 ≤ handles }
    requires greatest { handles ≤ 4097 }
{
    let start = Instant::now(rt)?;
    let each = match by {
        By::Reports => EVENTS_OF_WAIT,
        By::Posts(_) => 0,
    };
    let mut core = match reactor(rt.alloc(), handles, each) {
        Ok(core) => core,
        Err(refused) => return Ok(Err(refused)),
    };
    let registered = register_all(&mut core, rt.alloc(), handles, gaps_of(by));
    let before = start.elapsed(rt);
    let served = serve(&mut core, by, registered, waits);
    let after = start.elapsed(rt);
    let (handed, held) = entries_of(core);
    let nanos = after?.as_nanos().saturating_sub(before?.as_nanos());
    Ok(match served {
        Ok(events) => Ok(Served {
            events,
            nanos,
            handed,
            held,
        }),
        Err(refused) => Err(refused),
    })
}

/// How the events of a run come about, in words.
fn name_of(by: By) -> &'static str {
    match by {
        By::Reports => "reported",
        By::Posts(Gaps::None) => "posted",
        By::Posts(Gaps::EveryOther) => "posted, every other handle closed",
        By::Posts(Gaps::Random) => "posted, random handles closed",
        By::Posts(Gaps::BehindFirst) => "posted, 10000 handles behind the first closed",
    }
}

/// Prints what a run came to: nanoseconds for each event, or how many entries there were.
fn report(rt: &HostRuntime, timed: bool, by: By, handles: u64, waits: u64) -> io::Result<()>
    requires least { 1 ≤ handles }
    requires greatest { handles ≤ 4097 }
{
    let name = name_of(by);
    match run(rt, by, handles, waits)? {
        Ok(run) if timed && run.events > 0 => {
            println!(rt;
                "{handles} handles, {} events {name}: {} ns each",
                run.events,
                run.nanos / run.events as u128
            )
        }
        Ok(run) => {
            println!(rt;
                "{handles} handles, {} events {name}: {} entries handed over, {} held",
                run.events, run.handed, run.held
            )
        }
        Err(Refused) => println!(rt; "{handles} handles, {name}: no memory"),
    }
}

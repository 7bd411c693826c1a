//! What it costs to check a journal: with few handles and many waiting events, with 10,000 armed
//! timers, and with 10,000 live handles.

use crate::journals::{backlog, periodic, served};
use ev_types::NoMemory;
use journal_check::{CheckRefused, check};
use reactor_journal::Entry;
use std::io;
use std::time::Instant;

/// Checks short journals, or if it is timed those of about 100,000 and 1,000,000 entries.
pub fn run(rt: &HostRuntime, timed: bool) -> io::Result<()> {
    if !timed {
        return compare(rt, timed, 1_000, 10);
    }
    compare(rt, timed, 100_000, 10_000)?;
    compare(rt, timed, 1_000_000, 10_000)
}

/// Checks a journal of each kind, of about so many entries.
fn compare(rt: &HostRuntime, timed: bool, entries: u64, many: u64) -> io::Result<()> {
    report(
        rt,
        timed,
        "8 handles, all events waiting first",
        backlog(rt.alloc(), entries),
    )?;
    report(
        rt,
        timed,
        "periodic timers",
        periodic(rt.alloc(), entries, many),
    )?;
    report(rt, timed, "live handles", served(rt.alloc(), entries, many))
}

fn report(
    rt: &HostRuntime,
    timed: bool,
    name: &str,
    journal: Result<Vec<Entry<u64>>, NoMemory>,
) -> io::Result<()> {
    let Ok(journal) = journal else {
        return println!(rt; "{name}: no memory");
    };
    let start = Instant::now(rt)?;
    let answer = check(rt.alloc(), &journal, 1_000_000);
    let nanos = start.elapsed(rt)?.as_nanos();
    let count = journal.len() as u64;
    match answer {
        Ok(()) if timed && count > 0 => {
            println!(rt; "{count} entries, {name}: {}", nanos / count as u128)
        }
        Ok(()) => println!(rt; "{count} entries, {name}: legal"),
        Err(CheckRefused::Illegal { at }) => println!(rt; "{name}: illegal at {at}"),
        Err(CheckRefused::NoMemory) => println!(rt; "{name}: no memory"),
    }
}

//! Legal journals to be checked.

use ev_types::{Answer, Handle, Kind, Mask, NoMemory};
use reactor_journal::Entry;
use std::alloc::Global;

/// Opens so many handles.
fn opened(alloc: Global, handles: u64) -> Result<Vec<Entry<u64>>, NoMemory> {
    let mut journal = Vec::new(alloc);
    for handle in 0..handles {
        journal.push(Entry::Opened {
            handle: Handle(handle),
            mask: Mask::READ,
        })?;
    }
    Ok(journal)
}

fn posted(journal: &mut Vec<Entry<u64>>, handle: u64, seq: u64) -> Result<(), NoMemory> {
    journal.push(Entry::Posted {
        handle: Handle(handle),
        kind: Kind::Read,
        from: 0,
        seq,
    })?;
    Ok(())
}

/// Starts an event and settles it.
fn turn(journal: &mut Vec<Entry<u64>>, event: u64) -> Result<(), NoMemory> {
    journal.push(Entry::Started { event })?;
    journal.push(Entry::Returned {
        event,
        answer: Answer::Keep,
        note: 0,
    })?;
    Ok(())
}

/// Eight handles; a third of the entries are notifications, which all wait before the first is
/// started.
pub fn backlog(alloc: Global, entries: u64) -> Result<Vec<Entry<u64>>, NoMemory> {
    let mut journal = opened(alloc, 8)?;
    let events = entries / 3;
    for seq in 0..events {
        posted(&mut journal, seq % 8, seq)?;
    }
    for seq in 0..events {
        turn(&mut journal, seq.saturating_add(8))?;
    }
    Ok(journal)
}

/// One handle with so many periodic timers, of which one comes due in each millisecond.
pub fn periodic(alloc: Global, entries: u64, timers: u64) -> Result<Vec<Entry<u64>>, NoMemory> {
    let mut journal = opened(alloc, 1)?;
    for timer in 0..timers {
        journal.push(Entry::Scheduled {
            timer,
            handle: Handle(0),
            first: timer.saturating_add(1),
            every: timers,
        })?;
    }
    if timers > 0 {
        for at in 0..entries / 4 {
            journal.push(Entry::Polled {
                now: at.saturating_add(1),
            })?;
            let event = journal.len() as u64;
            journal.push(Entry::Due { timer: at % timers })?;
            turn(&mut journal, event)?;
        }
    }
    Ok(journal)
}

/// So many live handles, each of which is notified and served in turn.
pub fn served(alloc: Global, entries: u64, handles: u64) -> Result<Vec<Entry<u64>>, NoMemory> {
    let mut journal = opened(alloc, handles)?;
    if handles > 0 {
        for seq in 0..entries / 3 {
            let event = journal.len() as u64;
            posted(&mut journal, seq % handles, seq)?;
            turn(&mut journal, event)?;
        }
    }
    Ok(journal)
}

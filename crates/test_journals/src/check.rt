//! Journals that are checked, each with its first entry that is illegal.
use crate::asserts::assert_in;
use ev_base::{Answer, Handle, Kind, Mask};
use journal_check::{CheckRefused, check, laws};
use reactor_model::Entry;
use std::alloc::Global;
use std::test::Fail;

/// An entry of these rows. All that is opened wants to read, all that is ready can be read, and all
/// that is posted comes of one poster.
#[derive(Clone, Copy)]
enum Step {
    Opened(Handle),
    /// A timer with its handle, its first deadline and its period.
    Scheduled(u64, Handle, u64, u64),
    Cancelled(u64),
    Polled(u64),
    Due(u64),
    Ready(Handle),
    Posted(Handle),
    Started(u64),
    Returned(u64, Answer),
    Refused(u64),
    Removed(Handle),
    Closed(Handle),
    Ended,
}

use self::Step::*;

impl Step {
    fn entry(self) -> Entry<u64> {
        let (mask, kind) = (Mask::READ, Kind::Read);
        match self {
            Opened(handle) => Entry::Opened { handle, mask },
            Scheduled(timer, handle, first, every) => Entry::Scheduled {
                timer,
                handle,
                first,
                every,
            },
            Cancelled(timer) => Entry::Cancelled { timer },
            Polled(now) => Entry::Polled { now },
            Due(timer) => Entry::Due { timer },
            Ready(handle) => Entry::Ready { handle, kind },
            Posted(handle) => Entry::Posted {
                handle,
                kind: Kind::Except,
                from: 0,
                seq: 0,
            },
            Started(event) => Entry::Started { event },
            Returned(event, answer) => Entry::Returned {
                event,
                answer,
                note: event,
            },
            Refused(live) => Entry::Refused {
                live,
                fault: false,
                note: 0,
            },
            Removed(handle) => Entry::Removed { handle },
            Closed(handle) => Entry::Closed {
                handle,
                note: handle.0,
            },
            Ended => Entry::Ended,
        }
    }
}

const FIRST: Handle = Handle(0);

const SECOND: Handle = Handle(1);

/// One connection that sends one record and ends.
const ONE_CONNECTION: &[Step] = &[
    Opened(FIRST),
    Polled(0),
    Ready(FIRST),
    Started(2),
    Returned(2, Answer::Again),
    Started(4),
    Returned(4, Answer::Close),
    Closed(FIRST),
    Polled(0),
    Ended,
];

/// A listener, and a connection that it accepts.
const ONE_ACCEPTED: &[Step] = &[
    Opened(FIRST),
    Polled(0),
    Ready(FIRST),
    Started(2),
    Returned(2, Answer::Again),
    Opened(SECOND),
    Started(4),
    Returned(4, Answer::Keep),
    Polled(0),
    Ready(SECOND),
    Ready(SECOND),
    Started(9),
    Returned(9, Answer::Again),
    Started(10),
    Returned(10, Answer::Keep),
    Started(12),
    Returned(12, Answer::Close),
    Closed(SECOND),
    Polled(0),
    Ended,
    Removed(FIRST),
    Closed(FIRST),
];

/// A connection that is refused, since two handles are live.
const ONE_REFUSED: &[Step] = &[
    Opened(FIRST),
    Polled(0),
    Ready(FIRST),
    Ready(FIRST),
    Started(2),
    Returned(2, Answer::Again),
    Opened(SECOND),
    Started(3),
    Returned(3, Answer::Keep),
    Started(5),
    Returned(5, Answer::Again),
    Refused(2),
    Started(10),
    Returned(10, Answer::Keep),
    Polled(0),
    Ready(SECOND),
    Started(15),
    Returned(15, Answer::Close),
    Closed(SECOND),
    Polled(0),
    Ended,
    Removed(FIRST),
    Closed(FIRST),
];

/// A run that a notification ends.
const ONE_NOTIFIED: &[Step] = &[
    Opened(FIRST),
    Polled(0),
    Ready(FIRST),
    Started(2),
    Returned(2, Answer::Again),
    Opened(SECOND),
    Started(4),
    Returned(4, Answer::Keep),
    Polled(0),
    Ready(SECOND),
    Started(9),
    Returned(9, Answer::Close),
    Closed(SECOND),
    Posted(FIRST),
    Started(13),
    Returned(13, Answer::Keep),
    Ended,
    Removed(FIRST),
    Closed(FIRST),
];

/// A connection that is closed when it was idle too long.
const ONE_IDLE: &[Step] = &[
    Opened(FIRST),
    Polled(0),
    Ready(FIRST),
    Started(2),
    Returned(2, Answer::Again),
    Opened(SECOND),
    Scheduled(0, SECOND, 100, 100),
    Started(4),
    Returned(4, Answer::Keep),
    Polled(100),
    Due(0),
    Ready(SECOND),
    Started(10),
    Returned(10, Answer::Close),
    Closed(SECOND),
    Polled(100),
    Ended,
    Removed(FIRST),
    Closed(FIRST),
];

/// An upcall is started twice.
const STARTED_TWICE: &[Step] = &[
    Opened(FIRST),
    Polled(0),
    Ready(FIRST),
    Started(2),
    Returned(2, Answer::Again),
    Opened(SECOND),
    Started(4),
    Returned(4, Answer::Keep),
    Polled(0),
    Ready(SECOND),
    Ready(SECOND),
    Started(9),
    Started(9),
    Returned(9, Answer::Again),
];

/// Two handlers are called at once.
const AT_ONCE: &[Step] = &[
    Opened(FIRST),
    Opened(SECOND),
    Polled(0),
    Ready(FIRST),
    Ready(SECOND),
    Started(3),
    Started(4),
    Returned(4, Answer::Keep),
    Returned(3, Answer::Keep),
];

/// A deadline beyond 64 bits stays armed and never comes due.
const LATE: &[Step] = &[
    Opened(FIRST),
    Scheduled(0, FIRST, u64::MAX, u64::MAX),
    Polled(u64::MAX),
    Due(0),
    Started(3),
    Returned(3, Answer::Keep),
    Polled(u64::MAX),
    Cancelled(0),
    Cancelled(0),
];

/// A timer is armed again at the least deadline above now.
const CATCHES_UP: &[Step] = &[
    Opened(FIRST),
    Scheduled(0, FIRST, 10, 10),
    Polled(35),
    Due(0),
    Started(3),
    Returned(3, Answer::Keep),
    Polled(39),
    Polled(40),
    Due(0),
];

/// Journals with at most so many handles, and the place of the first entry that is illegal, if one
/// is.
static JOURNALS: &[(&[Step], u64, Option<u64>)] = &[
    (ONE_CONNECTION, 1, None),
    (ONE_ACCEPTED, 1001, None),
    (ONE_REFUSED, 2, None),
    (ONE_NOTIFIED, 1001, None),
    (ONE_IDLE, 1001, None),
    (&[], 1, None),
    (ONE_ACCEPTED, 1, Some(5)),
    (STARTED_TWICE, 1001, Some(12)),
    (AT_ONCE, 2, None),
    (LATE, 1, Some(8)),
    (CATCHES_UP, 1, None),
];

/// Journals of which the entry at a place is changed, and the place of the first entry that is
/// illegal then.
static CHANGED: &[(&[Step], u64, usize, Step, u64)] = &[
    (ONE_CONNECTION, 1, 0, Opened(SECOND), 0),
    (ONE_CONNECTION, 1, 2, Ready(SECOND), 2),
    (ONE_CONNECTION, 1, 3, Started(1), 3),
    (ONE_CONNECTION, 1, 4, Returned(3, Answer::Again), 4),
    (ONE_CONNECTION, 1, 4, Returned(2, Answer::Keep), 5),
    (ONE_CONNECTION, 1, 4, Returned(2, Answer::Close), 5),
    (ONE_CONNECTION, 1, 5, Posted(SECOND), 5),
    (ONE_CONNECTION, 1, 6, Returned(4, Answer::Keep), 7),
    (ONE_CONNECTION, 1, 7, Closed(SECOND), 7),
    (ONE_CONNECTION, 1, 7, Polled(0), 7),
    (ONE_CONNECTION, 1, 8, Posted(FIRST), 8),
    (ONE_CONNECTION, 1, 8, Closed(FIRST), 8),
    // after the end
    (ONE_ACCEPTED, 1001, 20, Polled(0), 20),
    // before the timer's deadline
    (ONE_IDLE, 1001, 9, Polled(99), 10),
    // before what the timer is due
    (ONE_IDLE, 1001, 10, Ready(SECOND), 10),
    // input before the timeout
    (ONE_IDLE, 1001, 12, Started(11), 12),
];

/// The entries of a journal.
fn entries(alloc: Global, journal: &[Step]) -> Result<Vec<Entry<u64>>, Fail> {
    let mut entries = Vec::with_capacity(alloc, journal.len())?;
    for step in journal {
        entries.push(step.entry())?;
    }
    Ok(entries)
}

/// The place of the first entry that is illegal, if one is.
fn illegal_at(alloc: Global, journal: &[Entry<u64>], most: u64) -> Result<Option<u64>, Fail> {
    match check(alloc, journal, most) {
        Ok(()) => Ok(None),
        Err(CheckRefused::Illegal { at }) => Ok(Some(at)),
        Err(CheckRefused::NoMemory) => Err(Fail::from("memory")),
    }
}

/// That place, if the entry at a place is changed.
fn place(
    alloc: Global,
    journal: &[Step],
    most: u64,
    change: Option<(usize, Step)>,
) -> Result<Option<u64>, Fail> {
    let mut entries = entries(alloc, journal)?;
    if let Some((at, step)) = change {
        if at < entries.len() {
            entries[at] = step.entry();
        }
    }
    illegal_at(alloc, &entries, most)
}

#[test]
fn journals_are_legal_up_to_a_place(rt: HostRuntime) -> Result<(), Fail> {
    for (row, (journal, most, at)) in JOURNALS.iter().enumerate() {
        assert_in(&rt, row, place(rt.alloc(), journal, *most, None)? == *at);
    }
    laws::refused_at_the_least::<u64>();
    Ok(())
}

#[test]
fn one_changed_entry_is_found(rt: HostRuntime) -> Result<(), Fail> {
    for (row, (journal, most, changed, step, at)) in CHANGED.iter().enumerate() {
        let change = Some((*changed, *step));
        assert_in(
            &rt,
            row,
            place(rt.alloc(), journal, *most, change)? == Some(*at),
        );
    }
    Ok(())
}

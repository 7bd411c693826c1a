//! What no contract says: the journals of whole runs of two callers.
use crate::steps::*;
use ev_base::{Answer, Handle, Kind, Mask};
use reactor_core::{CancelRefused, NotLive, RegisterRefused, StateRefused};
use reactor_model::Entry;
use std::test::Fail;
use test_pool::*;

const KEEP: Role = Role::Answers(Answer::Keep);

const AGAIN: Role = Role::Answers(Answer::Again);

const FIRST: Handle = Handle(0);

const SECOND: Handle = Handle(1);

// A handle that was never opened.
const UNKNOWN: Handle = Handle(7);

static REMOVAL: &Run = &Run {
    name: "removal",
    steps: &[
        (Who::Root, Step::Register(AGAIN, Ok(FIRST))),
        (Who::Root, Step::Serve(2, FIRST)),
        (Who::Hired, Step::Remove(FIRST, Ok(()))),
        (Who::Root, Step::Settle(1)),
        (Who::Hired, Step::Lead(Answered::Over)),
        (Who::Hired, Step::Remove(FIRST, Err(NotLive))),
    ],
    entries: Some((
        &[
            Entry::Opened {
                handle: FIRST,
                mask: Mask::READ,
            },
            Entry::Polled { now: 0 },
            Entry::Ready {
                handle: FIRST,
                kind: Kind::Read,
            },
            Entry::Started { event: 2 },
            Entry::Removed { handle: FIRST },
            Entry::Returned {
                event: 2,
                answer: Answer::Again,
                note: 0,
            },
            Entry::Closed {
                handle: FIRST,
                note: 0,
            },
            Entry::Polled { now: 0 },
            Entry::Ended,
        ],
        &[],
    )),
};

#[test]
fn a_removed_handler_is_closed_once_its_upcall_is_settled(rt: HostRuntime) -> Result<(), Fail> {
    take(&rt, rt.alloc(), 1, &[0], &[ready_at(0, 0)], REMOVAL)
}

// The entries of two handlers that have one report each, up to the upcalls.
const TWO_STARTED: &[Entry<u64>] = &[
    Entry::Opened {
        handle: FIRST,
        mask: Mask::READ,
    },
    Entry::Opened {
        handle: SECOND,
        mask: Mask::READ,
    },
    Entry::Polled { now: 0 },
    Entry::Ready {
        handle: FIRST,
        kind: Kind::Read,
    },
    Entry::Ready {
        handle: SECOND,
        kind: Kind::Read,
    },
    Entry::Started { event: 3 },
    Entry::Started { event: 4 },
];

static TWO_UPCALLS: &Run = &Run {
    name: "two upcalls",
    steps: &[
        (Who::Root, Step::Register(KEEP, Ok(FIRST))),
        (Who::Root, Step::Register(KEEP, Ok(SECOND))),
        (Who::Root, Step::Serve(3, FIRST)),
        (Who::Hired, Step::Serve(4, SECOND)),
        (Who::Hired, Step::Settle(0)),
        (Who::Root, Step::Settle(0)),
    ],
    entries: Some((
        TWO_STARTED,
        &[
            Entry::Returned {
                event: 4,
                answer: Answer::Keep,
                note: 0,
            },
            Entry::Returned {
                event: 3,
                answer: Answer::Keep,
                note: 0,
            },
            Entry::Ended,
            Entry::Removed { handle: FIRST },
            Entry::Closed {
                handle: FIRST,
                note: 0,
            },
            Entry::Removed { handle: SECOND },
            Entry::Closed {
                handle: SECOND,
                note: 0,
            },
        ],
    )),
};

#[test]
fn two_upcalls_are_on_their_way_at_once(rt: HostRuntime) -> Result<(), Fail> {
    let reports = [ready_at(0, 0), ready_at(0, 1)];
    take(&rt, rt.alloc(), 2, &[0], &reports, TWO_UPCALLS)
}

static TIMERS: &Run = &Run {
    name: "timers",
    steps: &[
        (Who::Root, Step::Register(KEEP, Ok(FIRST))),
        (Who::Hired, Step::Schedule(FIRST, Ok(0))),
        (Who::Root, Step::Serve(3, FIRST)),
        (Who::Root, Step::Settle(0)),
        (Who::Root, Step::Lead(Answered::Quiet)),
        (Who::Root, Step::Serve(8, FIRST)),
        (Who::Hired, Step::Cancel(0, Ok(()))),
        (Who::Hired, Step::Cancel(0, Err(CancelRefused::NotArmed))),
        (Who::Root, Step::Settle(0)),
    ],
    entries: None,
};

static SUSPENSIONS: &Run = &Run {
    name: "suspensions",
    steps: &[
        (Who::Root, Step::Register(KEEP, Ok(FIRST))),
        (Who::Root, Step::Register(KEEP, Ok(SECOND))),
        (Who::Root, Step::Suspend(FIRST, Ok(()))),
        (Who::Hired, Step::Suspend(FIRST, Err(StateRefused::Same))),
        (Who::Root, Step::Serve(5, SECOND)),
        (Who::Hired, Step::Lead(Answered::Over)),
        (Who::Hired, Step::Resume(FIRST, Ok(()))),
        (Who::Hired, Step::Serve(4, FIRST)),
        (Who::Root, Step::Settle(0)),
        (Who::Hired, Step::Settle(0)),
        (
            Who::Root,
            Step::Suspend(UNKNOWN, Err(StateRefused::NotLive)),
        ),
        (
            Who::Hired,
            Step::Resume(UNKNOWN, Err(StateRefused::NotLive)),
        ),
    ],
    entries: None,
};

#[test]
fn timers_and_suspensions_reach_the_pool(rt: HostRuntime) -> Result<(), Fail> {
    take(&rt, rt.alloc(), 1, &[35, 39, 40], &[], TIMERS)?;
    let reports = [ready_at(0, 0), ready_at(0, 1)];
    take(&rt, rt.alloc(), 2, &[0], &reports, SUSPENSIONS)
}

static POSTING: &Run = &Run {
    name: "posting",
    steps: &[
        (Who::Root, Step::Register(KEEP, Ok(FIRST))),
        (Who::Root, Step::Post(FIRST, Kind::Read, 0)),
        (Who::Root, Step::Serve(1, FIRST)),
        (Who::Root, Step::Settle(0)),
        (Who::Root, Step::Lead(Answered::Over)),
    ],
    entries: None,
};

static STALE_POSTING: &Run = &Run {
    name: "stale posting",
    steps: &[
        (Who::Root, Step::Register(KEEP, Ok(FIRST))),
        (Who::Root, Step::Post(FIRST, Kind::Read, 0)),
        (Who::Root, Step::Serve(1, FIRST)),
        (Who::Hired, Step::Remove(FIRST, Ok(()))),
        (Who::Hired, Step::Post(FIRST, Kind::Read, 1)),
        (Who::Hired, Step::Lead(Answered::Over)),
        (Who::Root, Step::Settle(1)),
        (Who::Root, Step::Lead(Answered::Over)),
    ],
    entries: Some((
        &[
            Entry::Opened {
                handle: FIRST,
                mask: Mask::READ,
            },
            Entry::Posted {
                handle: FIRST,
                kind: Kind::Read,
                from: 0,
                seq: 0,
            },
            Entry::Started { event: 1 },
            Entry::Removed { handle: FIRST },
            Entry::Stale {
                handle: FIRST,
                from: 1,
                seq: 0,
            },
            Entry::Polled { now: 0 },
            Entry::Returned {
                event: 1,
                answer: Answer::Keep,
                note: 0,
            },
            Entry::Closed {
                handle: FIRST,
                note: 0,
            },
            Entry::Polled { now: 0 },
            Entry::Ended,
        ],
        &[],
    )),
};

#[test]
fn postings_reach_the_journal(rt: HostRuntime) -> Result<(), Fail> {
    take(&rt, rt.alloc(), 1, &[], &[], POSTING)?;
    take(&rt, rt.alloc(), 1, &[], &[], STALE_POSTING)
}

// Two upcalls are on their way, of which the first stops the pool. The second answers Again.
static AGAIN_BEHIND_THE_END: &Run = &Run {
    name: "again behind the end",
    steps: &[
        (Who::Root, Step::Register(Role::Stops, Ok(FIRST))),
        (Who::Root, Step::Register(AGAIN, Ok(SECOND))),
        (Who::Root, Step::Serve(3, FIRST)),
        (Who::Hired, Step::Serve(4, SECOND)),
        (Who::Root, Step::Settle(1)),
        (Who::Hired, Step::Settle(2)),
        (Who::Root, Step::Lead(Answered::Stopped)),
    ],
    entries: Some((
        TWO_STARTED,
        &[
            Entry::Returned {
                event: 3,
                answer: Answer::Keep,
                note: 0,
            },
            Entry::Ended,
            Entry::Removed { handle: FIRST },
            Entry::Closed {
                handle: FIRST,
                note: 0,
            },
            Entry::Removed { handle: SECOND },
            Entry::Returned {
                event: 4,
                answer: Answer::Again,
                note: 0,
            },
            Entry::Closed {
                handle: SECOND,
                note: 0,
            },
        ],
    )),
};

// The second offers another handler.
static OFFER_BEHIND_THE_END: &Run = &Run {
    name: "offer behind the end",
    steps: &[
        (Who::Root, Step::Register(Role::Stops, Ok(FIRST))),
        (Who::Root, Step::Register(Role::Offers, Ok(SECOND))),
        (Who::Root, Step::Serve(3, FIRST)),
        (Who::Hired, Step::Serve(4, SECOND)),
        (Who::Root, Step::Settle(1)),
        (Who::Hired, Step::Settle(3)),
        (Who::Root, Step::Lead(Answered::Stopped)),
    ],
    entries: Some((
        TWO_STARTED,
        &[
            Entry::Returned {
                event: 3,
                answer: Answer::Keep,
                note: 0,
            },
            Entry::Ended,
            Entry::Removed { handle: FIRST },
            Entry::Closed {
                handle: FIRST,
                note: 0,
            },
            Entry::Removed { handle: SECOND },
            Entry::Returned {
                event: 4,
                answer: Answer::Keep,
                note: 0,
            },
            Entry::Closed {
                handle: SECOND,
                note: 0,
            },
            Entry::Refused {
                live: 0,
                fault: false,
                note: 0,
            },
        ],
    )),
};

// The second asks for no more reports.
static MASK_BEHIND_THE_END: &Run = &Run {
    name: "mask behind the end",
    steps: &[
        (Who::Root, Step::Register(Role::Stops, Ok(FIRST))),
        (Who::Root, Step::Register(Role::Masks, Ok(SECOND))),
        (Who::Root, Step::Serve(3, FIRST)),
        (Who::Hired, Step::Serve(4, SECOND)),
        (Who::Root, Step::Settle(1)),
        (Who::Hired, Step::Settle(2)),
        (Who::Root, Step::Lead(Answered::Stopped)),
    ],
    entries: Some((
        TWO_STARTED,
        &[
            Entry::Returned {
                event: 3,
                answer: Answer::Keep,
                note: 0,
            },
            Entry::Ended,
            Entry::Removed { handle: FIRST },
            Entry::Closed {
                handle: FIRST,
                note: 0,
            },
            Entry::Removed { handle: SECOND },
            Entry::Returned {
                event: 4,
                answer: Answer::Keep,
                note: 0,
            },
            Entry::Closed {
                handle: SECOND,
                note: 0,
            },
        ],
    )),
};

#[test]
fn an_upcall_is_settled_behind_the_end(rt: HostRuntime) -> Result<(), Fail> {
    let reports = [ready_at(0, 0), ready_at(0, 1)];
    for run in [
        AGAIN_BEHIND_THE_END,
        OFFER_BEHIND_THE_END,
        MASK_BEHIND_THE_END,
    ] {
        take(&rt, rt.alloc(), 2, &[0], &reports, run)?;
    }
    Ok(())
}

static FULL: &Run = &Run {
    name: "full",
    steps: &[
        (Who::Root, Step::Register(KEEP, Ok(FIRST))),
        (
            Who::Hired,
            Step::Register(KEEP, Err(RegisterRefused::Full { live: 1, opened: 1 })),
        ),
        (Who::Hired, Step::Stop),
        (
            Who::Root,
            Step::Register(KEEP, Err(RegisterRefused::Stopped)),
        ),
    ],
    entries: None,
};

#[test]
fn a_full_pool_gives_the_handler_back(rt: HostRuntime) -> Result<(), Fail> {
    take(&rt, rt.alloc(), 1, &[], &[], FULL)
}

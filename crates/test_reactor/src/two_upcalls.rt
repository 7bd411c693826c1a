//! What becomes of two upcalls that are on their way when the first of them stops the reactor, and
//! which wait was over.
use crate::steps::{Acting, Run, Step, reactor, take};
use crate::tests::ready;
use ev_base::{Answer, Handle, Kind, Mask};
use reactor_core::{PollRefused, Polled, Settled};
use reactor_model::Entry;
use std::alloc::Global;
use std::process::Abort;
use std::test::Fail;

const FIRST: Handle = Handle(0);

const SECOND: Handle = Handle(1);

// The entries of two handlers that have one report each, up to the end of the reactor by the first
// one's act while the second one's upcall is on its way.
const UP_TO_THE_END: &[Entry<u64>] = &[
    Entry::Opened {
        handle: FIRST,
        mask: Mask::READ,
    },
    Entry::Opened {
        handle: SECOND,
        mask: Mask::READ,
    },
    Entry::Polled { now: 0 },
    Entry::Ready {
        handle: FIRST,
        kind: Kind::Read,
    },
    Entry::Ready {
        handle: SECOND,
        kind: Kind::Read,
    },
    Entry::Started { event: 3 },
    Entry::Started { event: 4 },
    Entry::Returned {
        event: 3,
        answer: Answer::Keep,
        note: 0,
    },
    Entry::Ended,
    Entry::Removed { handle: FIRST },
    Entry::Closed {
        handle: FIRST,
        note: 0,
    },
    Entry::Removed { handle: SECOND },
];

// What the journal came to after the first upcall.
const BEHIND_FIRST: Settled = Settled {
    entries: 12,
    closed: 1,
    ended: true,
};

// Has one report for each of two handlers, of which the first one stops the reactor.
fn settle_behind_the_end(rt: &impl Abort, alloc: Global, run: &Run) -> Result<(), Fail> {
    let reports = [(0, ready(0)), (0, ready(1))].to_vec(alloc)?;
    let moments = [0].to_vec(alloc)?;
    let core = reactor(alloc, 2, 64, moments, reports, Vec::new(alloc))?;
    take(rt, core, run);
    Ok(())
}

const SECOND_CLOSED: Entry<u64> = Entry::Closed {
    handle: SECOND,
    note: 0,
};

static OUT_AT_THE_END: &Run = &Run {
    steps: &[
        Step::RegisterActing(Acting::Stops, Ok(FIRST)),
        Step::Register(Answer::Again, Ok(SECOND)),
        Step::Poll(Ok(Polled::Events)),
        Step::TwoTurns(
            BEHIND_FIRST,
            Settled {
                entries: 14,
                closed: 2,
                ended: true,
            },
        ),
        Step::Poll(Err(PollRefused::Stopped)),
    ],
    taken: &[],
    entries: UP_TO_THE_END,
    behind: &[
        Entry::Returned {
            event: 4,
            answer: Answer::Again,
            note: 0,
        },
        SECOND_CLOSED,
    ],
};

#[test]
fn an_upcall_that_is_out_at_the_end_is_settled_behind_it(rt: HostRuntime) -> Result<(), Fail> {
    settle_behind_the_end(&rt, rt.alloc(), OUT_AT_THE_END)
}

static OFFERED_BEHIND: &Run = &Run {
    steps: &[
        Step::RegisterActing(Acting::Stops, Ok(FIRST)),
        Step::RegisterActing(Acting::Offers, Ok(SECOND)),
        Step::Poll(Ok(Polled::Events)),
        Step::TwoTurns(
            BEHIND_FIRST,
            Settled {
                entries: 15,
                closed: 3,
                ended: true,
            },
        ),
        Step::Poll(Err(PollRefused::Stopped)),
    ],
    taken: &[],
    entries: UP_TO_THE_END,
    behind: &[
        Entry::Returned {
            event: 4,
            answer: Answer::Keep,
            note: 0,
        },
        SECOND_CLOSED,
        Entry::Refused {
            live: 0,
            fault: false,
            note: 0,
        },
    ],
};

#[test]
fn a_handler_that_is_offered_behind_the_end_is_refused(rt: HostRuntime) -> Result<(), Fail> {
    settle_behind_the_end(&rt, rt.alloc(), OFFERED_BEHIND)
}

static MASKED_BEHIND: &Run = &Run {
    steps: &[
        Step::RegisterActing(Acting::Stops, Ok(FIRST)),
        Step::RegisterActing(Acting::Masks(Mask::NONE), Ok(SECOND)),
        Step::Poll(Ok(Polled::Events)),
        Step::TwoTurns(
            BEHIND_FIRST,
            Settled {
                entries: 14,
                closed: 2,
                ended: true,
            },
        ),
        Step::Poll(Err(PollRefused::Stopped)),
    ],
    taken: &[],
    entries: UP_TO_THE_END,
    behind: &[
        Entry::Returned {
            event: 4,
            answer: Answer::Keep,
            note: 0,
        },
        SECOND_CLOSED,
    ],
};

#[test]
fn a_mask_that_is_asked_for_behind_the_end_adds_nothing(rt: HostRuntime) -> Result<(), Fail> {
    settle_behind_the_end(&rt, rt.alloc(), MASKED_BEHIND)
}

static WAITS_OVER: &Run = &Run {
    steps: &[
        Step::Register(Answer::Keep, Ok(FIRST)),
        Step::Over(0),
        Step::Poll(Ok(Polled::Events)),
        Step::Over(0),
        Step::Turn(Ok(Some(2))),
        Step::Poll(Ok(Polled::Over)),
        Step::Over(2),
        Step::Poll(Ok(Polled::Over)),
        Step::Over(3),
        Step::Stop,
        Step::Poll(Err(PollRefused::Stopped)),
        Step::Over(3),
    ],
    taken: &[],
    entries: &[
        Entry::Opened {
            handle: FIRST,
            mask: Mask::READ,
        },
        Entry::Polled { now: 4 },
        Entry::Ready {
            handle: FIRST,
            kind: Kind::Read,
        },
        Entry::Started { event: 2 },
        Entry::Returned {
            event: 2,
            answer: Answer::Keep,
            note: 0,
        },
        Entry::Polled { now: 4 },
        Entry::Polled { now: 4 },
        Entry::Ended,
        Entry::Removed { handle: FIRST },
        Entry::Closed {
            handle: FIRST,
            note: 0,
        },
    ],
    behind: &[],
};

#[test]
fn the_last_wait_that_was_over_is_known(rt: HostRuntime) -> Result<(), Fail> {
    let alloc = rt.alloc();
    let reports = [(0, ready(0))].to_vec(alloc)?;
    let moments = [4].to_vec(alloc)?;
    let core = reactor(alloc, 1, 64, moments, reports, Vec::new(alloc))?;
    take(&rt, core, WAITS_OVER);
    Ok(())
}

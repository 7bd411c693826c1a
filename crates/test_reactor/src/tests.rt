//! What no contract says: the journals of whole runs.
use crate::steps::*;
use ev_base::{Answer, Handle, Kind, Mask, Report};
use reactor_core::{
    HandOverRefused, LiveRefused, NotLive, Polled, PostRefused, RegisterRefused, StateRefused,
};
use reactor_model::Entry;
use std::test::Fail;

const HANDLE: Handle = Handle(0);

const FIRST: Handle = Handle(0);

const SECOND: Handle = Handle(1);

const OTHER: Handle = Handle(2);

/// What a registration is told when one handler may live, and lives.
pub(crate) const FULL_OF_ONE: RegisterRefused = RegisterRefused::Full { live: 1, opened: 1 };

// A handle is ready for reading.
pub(crate) fn ready(handle: u64) -> Report {
    Report {
        handle: Handle(handle),
        kind: Kind::Read,
    }
}

static POSTINGS: &Run = &Run {
    steps: &[
        Step::Register(Answer::Keep, Ok(HANDLE)),
        Step::Post(HANDLE, Kind::Read, (0, 0), Ok(())),
        Step::Turn(Ok(Some(1))),
        Step::Remove(HANDLE, Ok(())),
        Step::Post(HANDLE, Kind::Read, (0, 1), Ok(())),
        Step::Stop,
        Step::Post(HANDLE, Kind::Read, (0, 2), Err(PostRefused::Stopped)),
        Step::Register(Answer::Keep, Err(RegisterRefused::Stopped)),
    ],
    taken: &[],
    entries: &[
        Entry::Opened {
            handle: HANDLE,
            mask: Mask::READ,
        },
        Entry::Posted {
            handle: HANDLE,
            kind: Kind::Read,
            from: 0,
            seq: 0,
        },
        Entry::Started { event: 1 },
        Entry::Returned {
            event: 1,
            answer: Answer::Keep,
            note: 0,
        },
        Entry::Removed { handle: HANDLE },
        Entry::Closed {
            handle: HANDLE,
            note: 0,
        },
        Entry::Stale {
            handle: HANDLE,
            from: 0,
            seq: 1,
        },
        Entry::Ended,
    ],
    behind: &[],
};

#[test]
fn postings_go_into_the_journal(rt: HostRuntime) -> Result<(), Fail> {
    let core = quiet(rt.alloc(), 1)?;
    take(&rt, core, POSTINGS);
    Ok(())
}

static PERIODIC: &Run = &Run {
    steps: &[
        Step::Register(Answer::Keep, Ok(HANDLE)),
        Step::Schedule(HANDLE, Ok(0)),
        Step::Poll(Ok(Polled::Quiet)),
        Step::Turn(Ok(Some(3))),
        Step::Poll(Ok(Polled::Quiet)),
        Step::Turn(Ok(None)),
        Step::Poll(Ok(Polled::Quiet)),
        Step::TurnCancelling(0, 8),
    ],
    taken: &[],
    entries: &[
        Entry::Opened {
            handle: HANDLE,
            mask: Mask::READ,
        },
        Entry::Scheduled {
            timer: 0,
            handle: HANDLE,
            first: 10,
            every: 10,
        },
        Entry::Polled { now: 35 },
        Entry::Due { timer: 0 },
        Entry::Started { event: 3 },
        Entry::Returned {
            event: 3,
            answer: Answer::Keep,
            note: 0,
        },
        Entry::Polled { now: 39 },
        Entry::Polled { now: 40 },
        Entry::Due { timer: 0 },
        Entry::Started { event: 8 },
        Entry::Cancelled { timer: 0 },
        Entry::Returned {
            event: 8,
            answer: Answer::Keep,
            note: 0,
        },
        Entry::Ended,
        Entry::Removed { handle: HANDLE },
        Entry::Closed {
            handle: HANDLE,
            note: 0,
        },
    ],
    behind: &[],
};

#[test]
fn a_periodic_timer_comes_due_at_its_multiples(rt: HostRuntime) -> Result<(), Fail> {
    let alloc = rt.alloc();
    let moments = [35, 39, 40].to_vec(alloc)?;
    let core = reactor(alloc, 1, 64, moments, Vec::new(alloc), Vec::new(alloc))?;
    take(&rt, core, PERIODIC);
    Ok(())
}

static REMOVED: &Run = &Run {
    steps: &[
        Step::Register(Answer::Again, Ok(HANDLE)),
        Step::Poll(Ok(Polled::Events)),
        Step::TurnRemoving(HANDLE, 2),
        Step::Turn(Ok(None)),
        Step::Poll(Ok(Polled::Over)),
        Step::Remove(HANDLE, Err(NotLive)),
    ],
    taken: &[],
    entries: &[
        Entry::Opened {
            handle: HANDLE,
            mask: Mask::READ,
        },
        Entry::Polled { now: 0 },
        Entry::Ready {
            handle: HANDLE,
            kind: Kind::Read,
        },
        Entry::Started { event: 2 },
        Entry::Removed { handle: HANDLE },
        Entry::Returned {
            event: 2,
            answer: Answer::Again,
            note: 0,
        },
        Entry::Closed {
            handle: HANDLE,
            note: 0,
        },
        Entry::Polled { now: 0 },
        Entry::Ended,
    ],
    behind: &[],
};

#[test]
fn a_handler_that_is_removed_in_its_upcall_is_closed_behind_it(
    rt: HostRuntime,
) -> Result<(), Fail> {
    let alloc = rt.alloc();
    let reports = [(0, ready(0))].to_vec(alloc)?;
    let moments = [0].to_vec(alloc)?;
    let core = reactor(alloc, 1, 64, moments, reports, Vec::new(alloc))?;
    take(&rt, core, REMOVED);
    Ok(())
}

static VOLUMES: &Run = &Run {
    steps: &[
        Step::Register(Answer::Keep, Ok(HANDLE)),
        Step::HandOver(Ok(0)),
        Step::Post(Handle(4), Kind::Write, (1, 0), Ok(())),
        Step::HandOver(Err(HandOverRefused::Failed)),
        Step::First(0),
        Step::HandOver(Ok(2)),
        Step::First(2),
        Step::HandOver(Ok(0)),
    ],
    taken: &[
        Entry::Opened {
            handle: HANDLE,
            mask: Mask::READ,
        },
        Entry::Stale {
            handle: Handle(4),
            from: 1,
            seq: 0,
        },
    ],
    entries: &[
        Entry::Ended,
        Entry::Removed { handle: HANDLE },
        Entry::Closed {
            handle: HANDLE,
            note: 0,
        },
    ],
    behind: &[],
};

#[test]
fn volumes_are_handed_over(rt: HostRuntime) -> Result<(), Fail> {
    let alloc = rt.alloc();
    let fails = [0].to_vec(alloc)?;
    let core = reactor(alloc, 1, 2, Vec::new(alloc), Vec::new(alloc), fails)?;
    take(&rt, core, VOLUMES);
    Ok(())
}

static FULL: &Run = &Run {
    steps: &[
        Step::Register(Answer::Keep, Ok(HANDLE)),
        Step::Register(Answer::Keep, Err(FULL_OF_ONE)),
    ],
    taken: &[],
    entries: &[
        Entry::Opened {
            handle: HANDLE,
            mask: Mask::READ,
        },
        Entry::Ended,
        Entry::Removed { handle: HANDLE },
        Entry::Closed {
            handle: HANDLE,
            note: 0,
        },
    ],
    behind: &[],
};

#[test]
fn no_more_handlers_are_registered_than_may_live(rt: HostRuntime) -> Result<(), Fail> {
    let core = quiet(rt.alloc(), 1)?;
    take(&rt, core, FULL);
    Ok(())
}

static SUSPENDED: &Run = &Run {
    steps: &[
        Step::Register(Answer::Keep, Ok(FIRST)),
        Step::Register(Answer::Keep, Ok(SECOND)),
        Step::Poll(Ok(Polled::Events)),
        Step::Suspend(FIRST, Ok(())),
        Step::Suspend(FIRST, Err(StateRefused::Same)),
        Step::TurnAlone(4),
        Step::Turn(Ok(None)),
        Step::Resume(FIRST, Ok(())),
        Step::Turn(Ok(Some(3))),
        Step::Masks(SECOND, Mask::NONE, Ok(())),
        Step::Suspend(OTHER, Err(StateRefused::NotLive)),
        Step::Resume(OTHER, Err(StateRefused::NotLive)),
        Step::Masks(OTHER, Mask::READ, Err(LiveRefused::NotLive)),
    ],
    taken: &[],
    entries: &[
        Entry::Opened {
            handle: FIRST,
            mask: Mask::READ,
        },
        Entry::Opened {
            handle: SECOND,
            mask: Mask::READ,
        },
        Entry::Polled { now: 5 },
        Entry::Ready {
            handle: FIRST,
            kind: Kind::Read,
        },
        Entry::Ready {
            handle: SECOND,
            kind: Kind::Read,
        },
        Entry::Suspended { handle: FIRST },
        Entry::Started { event: 4 },
        Entry::Returned {
            event: 4,
            answer: Answer::Keep,
            note: 0,
        },
        Entry::Resumed { handle: FIRST },
        Entry::Started { event: 3 },
        Entry::Returned {
            event: 3,
            answer: Answer::Keep,
            note: 0,
        },
        Entry::Masked {
            handle: SECOND,
            mask: Mask::NONE,
        },
        Entry::Ended,
        Entry::Removed { handle: FIRST },
        Entry::Closed {
            handle: FIRST,
            note: 0,
        },
        Entry::Removed { handle: SECOND },
        Entry::Closed {
            handle: SECOND,
            note: 0,
        },
    ],
    behind: &[],
};

#[test]
fn no_event_of_a_suspended_handle_is_started(rt: HostRuntime) -> Result<(), Fail> {
    let alloc = rt.alloc();
    let reports = [(0, ready(0)), (0, ready(1))].to_vec(alloc)?;
    let moments = [5].to_vec(alloc)?;
    let core = reactor(alloc, 2, 64, moments, reports, Vec::new(alloc))?;
    take(&rt, core, SUSPENDED);
    Ok(())
}

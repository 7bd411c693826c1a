//! What the calls of a reactor refuse, and what a refusal leaves.
ghost use Rattle.std.specs.Prelude.{◌≤◌, IfOk};
ghost use Rattle.core_loop.specs.Idle.{IsIdle};
ghost use Rattle.test_nets.specs.RoundRobin.{round_robin_rows};

use crate::steps::{Run, Step, quiet, take};
use crate::tests::FULL_OF_ONE;
use ev_base::{Answer, Handle, Kind, Mask};
use reactor_core::{
    CancelRefused, Core, LiveRefused, NotLive, PollRefused, Polled, PostRefused, RegisterRefused,
    StateRefused,
};
use reactor_model::{DropVolumes, Entry, NoWatch};
use std::alloc::Global;
use std::test::Fail;
use test_nets::*;
use timer_queue::SortedTimers;

const HANDLE: Handle = Handle(0);

// A handle that was never opened.
const UNKNOWN: Handle = Handle(7);

static REFUSALS: &Run = &Run {
    steps: &[
        Step::Register(Answer::Keep, Ok(HANDLE)),
        Step::Resume(HANDLE, Err(StateRefused::Same)),
        Step::Suspend(HANDLE, Ok(())),
        Step::Suspend(HANDLE, Err(StateRefused::Same)),
        Step::Register(Answer::Keep, Err(FULL_OF_ONE)),
        // Each call on a handle that was never opened, and on a timer that was never set.
        Step::Remove(UNKNOWN, Err(NotLive)),
        Step::Suspend(UNKNOWN, Err(StateRefused::NotLive)),
        Step::Resume(UNKNOWN, Err(StateRefused::NotLive)),
        Step::Masks(UNKNOWN, Mask::NONE, Err(LiveRefused::NotLive)),
        Step::Schedule(UNKNOWN, Err(LiveRefused::NotLive)),
        Step::Cancel(7, Err(CancelRefused::NotArmed)),
        Step::Stop,
        Step::Poll(Err(PollRefused::Stopped)),
        Step::Post(HANDLE, Kind::Read, (0, 0), Err(PostRefused::Stopped)),
        Step::Register(Answer::Keep, Err(RegisterRefused::Stopped)),
        Step::Turn(Ok(None)),
        Step::Remove(HANDLE, Err(NotLive)),
        // The same of a reactor that was stopped.
        Step::Remove(UNKNOWN, Err(NotLive)),
        Step::Suspend(UNKNOWN, Err(StateRefused::NotLive)),
        Step::Resume(UNKNOWN, Err(StateRefused::NotLive)),
        Step::Masks(UNKNOWN, Mask::NONE, Err(LiveRefused::NotLive)),
        Step::Schedule(UNKNOWN, Err(LiveRefused::NotLive)),
        Step::Cancel(7, Err(CancelRefused::NotArmed)),
    ],
    taken: &[],
    entries: &[
        Entry::Opened {
            handle: HANDLE,
            mask: Mask::READ,
        },
        Entry::Suspended { handle: HANDLE },
        Entry::Ended,
        Entry::Removed { handle: HANDLE },
        Entry::Closed {
            handle: HANDLE,
            note: 0,
        },
    ],
    behind: &[],
};

#[test]
fn refusals_leave_the_journal(rt: HostRuntime) -> Result<(), Fail> {
    let core = quiet(rt.alloc(), 1)?;
    take(&rt, core, REFUSALS);
    Ok(())
}

// A reactor over a net that reports handle 0 at each wait.
type Failing = Rows<RoundRobinNet, DropVolumes>;

// A reactor for so many handlers over a net that reports handle 0 at each wait, whose waits and
// attaches of these numbers fail.
fn failing(alloc: Global, most: u64, wait: u64, attach: u64) -> Result<Failing, Fail>
    requires least { 1 ≤ most }
    requires greatest { most ≤ 4097 }
    ensures { IfOk result (λ core. IsIdle round_robin_rows core) }
{
    let net = RoundRobinNet::new(alloc, 1, 1).failing(wait, attach);
    let timers = SortedTimers::new(alloc);
    match Core::new(alloc, most, 64, net, timers, NoWatch, DropVolumes) {
        Ok(core) => Ok(core),
        Err(_) => Err("no memory".into()),
    }
}

// Whether such a reactor holds these entries in the end.
fn is_left(core: Failing, entries: &[Entry<u64>]) -> bool
    requires { IsIdle round_robin_rows core }
{
    let Left {
        journal,
        first: _,
        net: _,
        timers: _,
        watch: _,
        volumes: _,
    } = close(core);
    journal.as_slice() == entries
}

// Whether the first attach fails, and gives the handler back, which is attached then.
fn is_attached_again(core: &mut Failing) -> bool
    requires { IsIdle round_robin_rows core.old }
    ensures { IsIdle round_robin_rows core.new }
{
    match register(core, Steady::answering(Answer::Again), Mask::READ) {
        Err((back, RegisterRefused::NetFailed)) => {
            let is_same = back.to_input() == Answer::Again;
            let is_registered = matches!(register(core, back, Mask::READ), Ok(Handle(0)));
            is_same && is_registered
        }
        _ => false,
    }
}

// Whether the first wait fails, and the second does not.
fn is_polled_again(core: &mut Failing) -> bool
    requires { IsIdle round_robin_rows core.old }
    ensures { IsIdle round_robin_rows core.new }
{
    let first = poll(core);
    let second = poll(core);
    first == Err(PollRefused::NetFailed) && second == Ok(Polled::Events)
}

static FAILED: &[Entry<u64>] = &[
    Entry::Opened {
        handle: HANDLE,
        mask: Mask::READ,
    },
    Entry::Polled { now: 0 },
    Entry::Ready {
        handle: HANDLE,
        kind: Kind::Read,
    },
    Entry::Ended,
    Entry::Removed { handle: HANDLE },
    Entry::Closed {
        handle: HANDLE,
        note: 0,
    },
];

#[test]
fn a_net_that_fails_leaves_the_journal(rt: HostRuntime) -> Result<(), Fail> {
    let mut core = failing(rt.alloc(), 2, 0, 0)?;
    let is_attached = is_attached_again(&mut core);
    let is_polled = is_polled_again(&mut core);
    let is_left = is_left(core, FAILED);
    assert!(rt; is_attached && is_polled && is_left);
    Ok(())
}

// What stands before the offer of the first handler.
static BEFORE_THE_OFFER: &[Entry<u64>] = &[
    Entry::Opened {
        handle: HANDLE,
        mask: Mask::READ,
    },
    Entry::Polled { now: 0 },
    Entry::Ready {
        handle: HANDLE,
        kind: Kind::Read,
    },
    Entry::Started { event: 2 },
    Entry::Returned {
        event: 2,
        answer: Answer::Keep,
        note: 0,
    },
];

// Registers a handler that offers another at its input, serves its one report, and tells whether
// each call went well.
fn is_served(core: &mut Failing) -> bool
    requires { IsIdle round_robin_rows core.old }
    ensures { IsIdle round_robin_rows core.new }
{
    let is_registered = matches!(
        register(core, Steady::offering(), Mask::READ),
        Ok(Handle(0))
    );
    let polled = poll(core);
    let turned = turn(core);
    is_registered && polled == Ok(Polled::Events) && turned == Ok(Some(2))
}

// Whether this became of the offer of a handler.
fn becomes(entries: &[Entry<u64>], offered: Entry<u64>) -> bool {
    match entries.split_last() {
        Some((last, before)) => *last == offered && before == BEFORE_THE_OFFER,
        None => false,
    }
}

// Whether a handler that is offered is registered or refused so.
fn is_offered(core: Failing, offered: Entry<u64>) -> bool
    requires { IsIdle round_robin_rows core }
{
    let mut core = core;
    let is_served = is_served(&mut core);
    let becomes = becomes(core.journal().as_slice(), offered);
    drop(close(core));
    is_served && becomes
}

#[test]
fn an_offered_handler_is_registered_or_refused(rt: HostRuntime) -> Result<(), Fail> {
    let alloc = rt.alloc();
    let opened = Entry::Opened {
        handle: Handle(1),
        mask: Mask::READ,
    };
    assert!(rt; is_offered(failing(alloc, 2, 9, 9)?, opened));
    let full = Entry::Refused {
        live: 1,
        fault: false,
        note: 0,
    };
    assert!(rt; is_offered(failing(alloc, 1, 9, 9)?, full));
    let failed = Entry::Refused {
        live: 1,
        fault: true,
        note: 0,
    };
    assert!(rt; is_offered(failing(alloc, 2, 9, 1)?, failed));
    Ok(())
}

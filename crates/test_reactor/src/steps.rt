//! Runs of a reactor that are laid down: what is called, what each call is to answer, and which
//! entries are to stand in the end.
ghost use Rattle.std.specs.Prelude.{◌≡◌, ◌≤◌, IfOk, length, true};
ghost use Rattle.demux.specs.PlayNet.{do_not_fall, are_bounded};
ghost use Rattle.core_loop.specs.Idle.{IsIdle, IsOut};
ghost use Rattle.test_nets.specs.Play.{play_rows};

use crate::asserts::assert_in;
use demux::PlayNet;
use ev_base::{Answer, Handle, Kind, Mask, Report};
use reactor_core::{
    CancelRefused, Core, Done, HandOverRefused, LiveRefused, NotLive, PollRefused, Polled,
    PostRefused, RegisterRefused, Settled, StartRefused, StateRefused,
};
use reactor_model::{Entry, MemVolumes, NoWatch};
use std::alloc::Global;
use std::process::Abort;
use std::test::Fail;
use test_nets::*;
use timer_queue::SortedTimers;

/// The first delay of a timer that a step sets, and its period, in milliseconds.
const STEP_TIMER: (u64, u64) = (10, 10);

// A reactor over a net that plays what was laid down, whose volumes stay in memory.
pub(crate) type PlayRows = Rows<PlayNet, MemVolumes<u64>>;

/// A call, or calls one after another, and what it is to answer.
#[derive(Clone, Copy)]
pub(crate) enum Step {
    /// Registers a handler for reading that answers each input so.
    Register(Answer, Result<Handle, RegisterRefused>),
    /// Registers a handler for reading whose turn at each input is this.
    RegisterActing(Acting, Result<Handle, RegisterRefused>),
    /// Posts a notification of this kind with the poster's number and its own.
    Post(Handle, Kind, (u64, u64), Result<(), PostRefused>),
    /// Removes a handler.
    Remove(Handle, Result<(), NotLive>),
    /// Suspends a handler.
    Suspend(Handle, Result<(), StateRefused>),
    /// Resumes a handler.
    Resume(Handle, Result<(), StateRefused>),
    /// Changes the mask of a handler.
    Masks(Handle, Mask, Result<(), LiveRefused>),
    /// Sets a timer, and gives its number.
    Schedule(Handle, Result<u64, LiveRefused>),
    /// Takes a timer away.
    Cancel(u64, Result<(), CancelRefused>),
    /// Stops the reactor.
    Stop,
    /// Waits once.
    Poll(Result<Polled, PollRefused>),
    /// Starts the next upcall, makes it and settles it, and gives the number of its event.
    Turn(Result<Option<u64>, StartRefused>),
    /// The same; while it is out, no second one is to be started.
    TurnAlone(u64),
    /// Starts two upcalls, then settles the first and the second, and gives what the journal came
    /// to after each.
    TwoTurns(Settled, Settled),
    /// Makes one upcall; while it is out, its handler is removed, which it can be once.
    TurnRemoving(Handle, u64),
    /// The same; while it is out, a timer is taken away, which it can be once.
    TurnCancelling(u64, u64),
    /// Hands a volume over.
    HandOver(Result<u64, HandOverRefused>),
    /// The number of the first entry that it holds.
    First(u64),
    /// The number of the last wait that was over.
    Over(u64),
}

/// What a handler asks for at each input.
#[derive(Clone, Copy)]
pub(crate) enum Acting {
    Stops,
    Offers,
    Masks(Mask),
}

/// Which steps are taken, and which entries the reactor has handed over and holds in the end.
#[derive(Clone, Copy)]
pub(crate) struct Run {
    pub(crate) steps: &'static [Step],
    pub(crate) taken: &'static [Entry<u64>],
    pub(crate) entries: &'static [Entry<u64>],
    /// The entries after those.
    pub(crate) behind: &'static [Entry<u64>],
}

// A reactor for so many handlers, whose volumes have at least so many entries.
pub(crate) fn reactor(
    alloc: Global,
    most: u64,
    volume: u64,
    moments: Vec<u64>,
    reports: Vec<(usize, Report)>,
    fails: Vec<u64>,
) -> Result<PlayRows, Fail>
    requires least { 1 ≤ most }
    requires greatest { most ≤ 4097 }
    requires volume { 1 ≤ volume }
    requires rising { do_not_fall 0 moments.items ≡ true }
    requires bounded { are_bounded moments.items ≡ true }
    requires few { length reports.items ≤ 256 }
    ensures { IfOk result (λ core. IsIdle play_rows core) }
{
    let net = PlayNet::new(alloc, moments, reports);
    let made = Core::new(
        alloc,
        most,
        volume,
        net,
        SortedTimers::new(alloc),
        NoWatch,
        MemVolumes::new(alloc, fails),
    );
    match made {
        Ok(core) => Ok(core),
        Err(_) => Err("no memory".into()),
    }
}

// A reactor for so many handlers, to whose net nothing is laid down.
pub(crate) fn quiet(alloc: Global, most: u64) -> Result<PlayRows, Fail>
    requires least { 1 ≤ most }
    requires greatest { most ≤ 4097 }
    ensures { IfOk result (λ core. IsIdle play_rows core) }
{
    let nothing = Vec::new(alloc);
    reactor(alloc, most, 64, nothing, Vec::new(alloc), Vec::new(alloc))
}

// What became of a registration, without the handler that comes back.
fn registered(
    answered: Result<Handle, (Steady, RegisterRefused)>,
) -> Result<Handle, RegisterRefused> {
    match answered {
        Ok(handle) => Ok(handle),
        Err((_, refused)) => Err(refused),
    }
}

// A handler whose turn at each input is this.
fn handler_of(acting: Acting) -> Steady {
    match acting {
        Acting::Stops => Steady::stopping(),
        Acting::Offers => Steady::offering(),
        Acting::Masks(mask) => Steady::masking(mask),
    }
}

/// What became of upcalls that were started before the first of them was settled.
#[derive(Clone, Copy, PartialEq, Eq)]
enum Turned {
    /// None was started, or there was no memory.
    None,
    /// One alone, of this event.
    One(u64),
    /// Two, and what the journal came to after each.
    Two(Settled, Settled),
}

// Starts one more upcall, if there is one, and settles this one and then that.
fn turn_behind(core: &mut PlayRows, first: Done<Steady>) -> Turned
    requires { IsOut play_rows core.old first }
    ensures { IsIdle play_rows core.new }
{
    let event = first.event();
    match start_meanwhile(core, &first) {
        Ok(Some(second)) => {
            let behind_first = settle_one(core, first, &second);
            Turned::Two(behind_first, settle(core, second))
        }
        Ok(None) => {
            settle(core, first);
            Turned::One(event)
        }
        Err(_) => {
            settle(core, first);
            Turned::None
        }
    }
}

// Starts up to two upcalls, and settles them.
fn turn_two(core: &mut PlayRows) -> Turned
    requires { IsIdle play_rows core.old }
    ensures { IsIdle play_rows core.new }
{
    match start(core) {
        Ok(Some(first)) => turn_behind(core, first),
        Ok(None) | Err(_) => Turned::None,
    }
}

// Starts the next upcall, takes its handler away while it is out, and settles it. It gives the
// number of its event, if the handler was taken away once.
fn turn_removing(core: &mut PlayRows, handle: Handle) -> Option<u64>
    requires { IsIdle play_rows core.old }
    ensures { IsIdle play_rows core.new }
{
    match start(core) {
        Ok(Some(done)) => {
            let event = done.event();
            let removed = remove_meanwhile(core, &done, handle);
            let again = remove_meanwhile(core, &done, handle);
            settle(core, done);
            if removed == Ok(()) && again == Err(NotLive) {
                Some(event)
            } else {
                None
            }
        }
        Ok(None) | Err(_) => None,
    }
}

// Starts the next upcall, takes a timer away while it is out, and settles it. It gives the number
// of its event, if the timer was taken away once.
fn turn_cancelling(core: &mut PlayRows, timer: u64) -> Option<u64>
    requires { IsIdle play_rows core.old }
    ensures { IsIdle play_rows core.new }
{
    match start(core) {
        Ok(Some(done)) => {
            let event = done.event();
            let cancelled = cancel_meanwhile(core, &done, timer);
            let again = cancel_meanwhile(core, &done, timer);
            settle(core, done);
            if cancelled == Ok(()) && again == Err(CancelRefused::NotArmed) {
                Some(event)
            } else {
                None
            }
        }
        Ok(None) | Err(_) => None,
    }
}

// Makes a call of a user, and tells whether it answered so.
fn ask(core: &mut PlayRows, step: Step) -> bool
    requires { IsIdle play_rows core.old }
    ensures { IsIdle play_rows core.new }
{
    match step {
        Step::Register(answer, wanted) => {
            registered(register(core, Steady::answering(answer), Mask::READ)) == wanted
        }
        Step::RegisterActing(acting, wanted) => {
            registered(register(core, handler_of(acting), Mask::READ)) == wanted
        }
        Step::Post(handle, kind, (from, seq), wanted) => {
            post(core, handle, kind, from, seq) == wanted
        }
        Step::Remove(handle, wanted) => remove(core, handle) == wanted,
        Step::Suspend(handle, wanted) => suspend(core, handle) == wanted,
        Step::Resume(handle, wanted) => resume(core, handle) == wanted,
        Step::Masks(handle, mask, wanted) => set_mask(core, handle, mask) == wanted,
        Step::Schedule(handle, wanted) => {
            let (first, every) = STEP_TIMER;
            schedule(core, handle, first, every) == wanted
        }
        Step::Cancel(timer, wanted) => cancel(core, timer) == wanted,
        _ => serve(core, step),
    }
}

// Makes a call of the thread that serves the reactor, and tells whether it answered so.
fn serve(core: &mut PlayRows, step: Step) -> bool
    requires { IsIdle play_rows core.old }
    ensures { IsIdle play_rows core.new }
{
    match step {
        Step::Stop => {
            stop(core);
            true
        }
        Step::Poll(wanted) => poll(core) == wanted,
        Step::Turn(wanted) => turn(core) == wanted,
        Step::TurnAlone(event) => turn_two(core) == Turned::One(event),
        Step::TwoTurns(first, second) => turn_two(core) == Turned::Two(first, second),
        Step::TurnRemoving(handle, event) => turn_removing(core, handle) == Some(event),
        Step::TurnCancelling(timer, event) => turn_cancelling(core, timer) == Some(event),
        Step::HandOver(wanted) => hand_over(core) == wanted,
        Step::First(wanted) => core.first() == wanted,
        Step::Over(wanted) => core.over() == wanted,
        _ => false,
    }
}

// Makes these calls one after another, up to one that does not answer so, and tells how many did.
fn play(core: &mut PlayRows, steps: &[Step]) -> usize
    requires { IsIdle play_rows core.old }
    ensures { IsIdle play_rows core.new }
{
    for (at, step) in steps.iter().enumerate() {
        if !ask(core, *step) {
            return at;
        }
    }
    steps.len()
}

// Whether the first of these entries are those, and the others the rest.
fn are_entries(entries: &[Entry<u64>], first: &[Entry<u64>], rest: &[Entry<u64>]) -> bool {
    match entries.split_at_checked(first.len()) {
        Some((before, behind)) => before == first && behind == rest,
        None => false,
    }
}

// Whether a reactor has handed over and holds the entries of a run in the end.
fn is_the_end(core: PlayRows, run: &Run) -> bool
    requires { IsIdle play_rows core }
{
    let Left {
        journal,
        first: _,
        net: _,
        timers: _,
        watch: _,
        volumes,
    } = close(core);
    volumes.entries() == run.taken && are_entries(journal.as_slice(), run.entries, run.behind)
}

// How many steps of a run a reactor takes, and whether it has the run's entries in the end.
fn taken(core: PlayRows, run: &Run) -> (usize, bool)
    requires { IsIdle play_rows core }
{
    let mut core = core;
    let count = play(&mut core, run.steps);
    (count, is_the_end(core, run))
}

// Takes the steps of a run.
pub(crate) fn take(rt: &impl Abort, core: PlayRows, run: &Run)
    requires { IsIdle play_rows core }
{
    let (at, is_the_end) = taken(core, run);
    assert_in(rt, at, at == run.steps.len());
    assert!(rt; is_the_end, "other entries");
}

//! Runs of a pool with two callers that are laid down: who calls what, what each call is to answer,
//! and which entries are to stand in the end.
ghost use Rattle.std.specs.Prelude.{◌≡◌, ◌≤◌, IfOk, length, true, false};
ghost use Rattle.demux.specs.PlayNet.{do_not_fall, are_bounded};
ghost use Rattle.test_pool.specs.tp_reactor.specs.Words.{known_by};
ghost use Rattle.test_pool.specs.Callers.{IsFree, IsOutOrFree, IsRoot, SameRank};

use demux::PlayNet;
use ev_base::{Answer, Handle, Kind, Mask, Report};
use reactor_core::{CancelRefused, Done, LiveRefused, NotLive, RegisterRefused, StateRefused};
use reactor_model::{Entry, Journal, MemVolumes, check};
use std::alloc::Global;
use std::process::Abort;
use std::sync::Wait;
use std::test::Fail;
use test_pool::*;

/// The first delay of a timer that a step sets, and its period, in milliseconds.
const STEP_TIMER: (u64, u64) = (10, 10);

/// A pool over a net that plays what was laid down.
pub(crate) type PlayPool = Pool<PlayNet, MemVolumes<u64>, Still>;

/// A worker of it.
pub(crate) type PlayWorker = PoolWorker<PlayNet, MemVolumes<u64>>;

/// What a member that a step registers does at its input.
#[derive(Clone, Copy)]
pub(crate) enum Role {
    Answers(Answer),
    Stops,
    Masks,
    Offers,
}

/// Who calls.
#[derive(Clone, Copy)]
pub(crate) enum Who {
    /// The root.
    Root,
    /// The worker that it hired.
    Hired,
}

/// A call, and what it is to answer.
#[derive(Clone, Copy)]
pub(crate) enum Step {
    /// Registers a member for reading.
    Register(Role, Result<Handle, RegisterRefused>),
    /// Removes a member.
    Remove(Handle, Result<(), NotLive>),
    /// Suspends a handle.
    Suspend(Handle, Result<(), StateRefused>),
    /// Resumes a handle.
    Resume(Handle, Result<(), StateRefused>),
    /// Sets a timer, and gives its number.
    Schedule(Handle, Result<u64, LiveRefused>),
    /// Takes a timer away.
    Cancel(u64, Result<(), CancelRefused>),
    /// Posts a notification, whose number is told.
    Post(Handle, Kind, u64),
    /// Stops the pool.
    Stop,
    /// Leads, and gets no job.
    Lead(Answered),
    /// Leads, and gets the job of this event of this handle, which is run.
    Serve(u64, Handle),
    /// Settles the upcall, and tells how many handlers were closed or refused by then.
    Settle(u64),
}

/// Which steps are taken, and which entries stand in the end, first and rest, if that is said.
#[derive(Clone, Copy)]
pub(crate) struct Run {
    pub(crate) name: &'static str,
    pub(crate) steps: &'static [(Who, Step)],
    pub(crate) entries: Option<(&'static [Entry<u64>], &'static [Entry<u64>])>,
}

// A pool for at most so many members over a net with these moments and reports, its root, and a
// worker that it hired.
pub(crate) fn two(
    alloc: Global,
    most: u64,
    moments: &[u64],
    reports: &[(usize, Report)],
) -> Result<(PlayPool, PlayWorker, PlayWorker), Fail>
    requires least { 1 ≤ most }
    requires greatest { most ≤ 4097 }
    requires rising { do_not_fall 0 moments.now ≡ true }
    requires bounded { are_bounded moments.now ≡ true }
    requires few { length reports.now ≤ 256 }
    ensures free { IfOk result (λ made. IsFree made.0 made.1 × IsFree made.0 made.2) }
    ensures root { IfOk result (λ made. IsRoot made.1 1 2) }
    ensures child { IfOk result (λ made. (known_by made.2).root ≡ false) }
{
    let (pool, mut root) = one(alloc, most, moments, reports)?;
    let hired = hire(&pool, &mut root);
    Ok((pool, root, hired))
}

// A pool for at most so many members over a net with these moments and reports, and its root.
pub(crate) fn one(
    alloc: Global,
    most: u64,
    moments: &[u64],
    reports: &[(usize, Report)],
) -> Result<(PlayPool, PlayWorker), Fail>
    requires least { 1 ≤ most }
    requires greatest { most ≤ 4097 }
    requires rising { do_not_fall 0 moments.now ≡ true }
    requires bounded { are_bounded moments.now ≡ true }
    requires few { length reports.now ≤ 256 }
    ensures free { IfOk result (λ made. IsFree made.0 made.1) }
    ensures root { IfOk result (λ made. IsRoot made.1 0 1) }
{
    let moments = moments.to_vec(alloc)?;
    let reports = reports.to_vec(alloc)?;
    let net = PlayNet::new(alloc, moments, reports);
    let volumes = MemVolumes::new(alloc, Vec::new(alloc));
    match share(alloc, most, 1_000_000, net, volumes, Still) {
        Ok(made) => Ok(made),
        Err(NoPool) => Err("no memory".into()),
    }
}

// The member of a role.
fn member(role: Role) -> Member {
    match role {
        Role::Answers(answer) => Member::answering(answer),
        Role::Stops => Member::stopping(),
        Role::Masks => Member::masking(),
        Role::Offers => Member::offering(),
    }
}

// What became of a registration, without the member that comes back.
pub(crate) fn registered(
    answered: Result<Handle, (Member, RegisterRefused)>,
) -> Result<Handle, RegisterRefused> {
    match answered {
        Ok(handle) => Ok(handle),
        Err((_, refused)) => Err(refused),
    }
}

// Makes a call of a user, and tells whether it answered so.
fn ask<R: Wait>(rt: &R, pool: &PlayPool, worker: &mut PlayWorker, step: Step) -> bool
    requires { IsFree pool.now worker.old }
    ensures free { IsFree pool.now worker.new }
    ensures rank { SameRank worker.old worker.new }
{
    match step {
        Step::Register(role, wanted) => {
            registered(register(rt, pool, worker, member(role), Mask::READ)) == wanted
        }
        Step::Remove(handle, wanted) => remove(rt, pool, worker, handle) == wanted,
        Step::Suspend(handle, wanted) => suspend(rt, pool, worker, handle) == wanted,
        Step::Resume(handle, wanted) => resume(rt, pool, worker, handle) == wanted,
        Step::Schedule(handle, wanted) => {
            let (first, every) = STEP_TIMER;
            schedule(rt, pool, worker, handle, first, every) == wanted
        }
        Step::Cancel(timer, wanted) => cancel(rt, pool, worker, timer) == wanted,
        Step::Post(handle, kind, wanted) => post(pool, worker, handle, kind) == Some(Ok(wanted)),
        Step::Stop => {
            stop(rt, pool, worker);
            true
        }
        Step::Lead(_) | Step::Serve(_, _) | Step::Settle(_) => false,
    }
}

// Whether a lead answered as this step says.
fn is_led(led: &Result<Done<Member>, Answered>, step: Step) -> bool {
    match (led, step) {
        (Ok(done), Step::Serve(event, handle)) => (done.event(), done.handle()) == (event, handle),
        (Err(answered), Step::Lead(wanted)) => *answered == wanted,
        _ => false,
    }
}

// Leads, and tells whether the answer is the step's. It gives the upcall that the worker made, if
// it did.
fn lead_as(
    rt: &impl Wait,
    pool: &PlayPool,
    worker: &mut PlayWorker,
    step: Step,
) -> (Option<Done<Member>>, bool)
    requires { IsFree pool.now worker.old }
    ensures out { IsOutOrFree pool.now worker.new result.0 }
    ensures rank { SameRank worker.old worker.new }
{
    let led = lead(rt, pool, worker, None);
    let is_right = is_led(&led, step);
    match led {
        Ok(done) => (Some(done), is_right),
        Err(_) => (None, is_right),
    }
}

// Makes a call of a worker that has made this upcall, or none, and tells whether it answered so. It
// gives the upcall that the worker has made then, if it has.
fn call<R: Wait>(
    rt: &R,
    pool: &PlayPool,
    worker: &mut PlayWorker,
    out: Option<Done<Member>>,
    step: Step,
) -> (Option<Done<Member>>, bool)
    requires { IsOutOrFree pool.now worker.old out }
    ensures out { IsOutOrFree pool.now worker.new result.0 }
    ensures rank { SameRank worker.old worker.new }
{
    match (out, step) {
        (Some(done), step) => {
            let settled = settle(rt, pool, worker, done);
            (
                None,
                matches!(step, Step::Settle(closed) if closed == settled.closed),
            )
        }
        (None, Step::Lead(_) | Step::Serve(_, _)) => lead_as(rt, pool, worker, step),
        (None, step) => (None, ask(rt, pool, worker, step)),
    }
}

// Makes these calls one after another, up to one that does not answer so, and gives its place, or
// that after the last one if an upcall was not settled. In the end each was.
fn play<R: Wait>(
    rt: &R,
    pool: &PlayPool,
    root: &mut PlayWorker,
    hired: &mut PlayWorker,
    steps: &[(Who, Step)],
) -> Option<usize>
    requires { IsFree pool.now root.old × IsFree pool.now hired.old }
    ensures free { IsFree pool.now root.new × IsFree pool.now hired.new }
    ensures root { SameRank root.old root.new }
    ensures hired { SameRank hired.old hired.new }
{
    let mut first = None;
    let mut second = None;
    let mut wrong = None;
    for (at, (who, step)) in steps.iter().enumerate() {
        let is_right;
        match who {
            Who::Root => (first, is_right) = call(rt, pool, root, first, *step),
            Who::Hired => (second, is_right) = call(rt, pool, hired, second, *step),
        }
        if !is_right {
            wrong = Some(at);
            break;
        }
    }
    let is_first_settled = settle_rest(rt, pool, root, first);
    let is_second_settled = settle_rest(rt, pool, hired, second);
    match wrong {
        None if !(is_first_settled && is_second_settled) => Some(steps.len()),
        wrong => wrong,
    }
}

// Settles the upcall that a worker has made, if it has, and tells whether there was none.
fn settle_rest<R: Wait>(
    rt: &R,
    pool: &PlayPool,
    worker: &mut PlayWorker,
    out: Option<Done<Member>>,
) -> bool
    requires { IsOutOrFree pool.now worker.old out }
    ensures free { IsFree pool.now worker.new }
    ensures rank { SameRank worker.old worker.new }
{
    match out {
        Some(done) => {
            settle(rt, pool, worker, done);
            false
        }
        None => true,
    }
}

// Whether the first of these entries are those, and the others the rest.
fn are_entries(entries: &[Entry<u64>], first: &[Entry<u64>], rest: &[Entry<u64>]) -> bool {
    match entries.split_at_checked(first.len()) {
        Some((before, behind)) => before == first && behind == rest,
        None => false,
    }
}

// Whether a journal is legal for at most so many members.
pub(crate) fn is_legal(alloc: Global, most: u64, entries: &[Entry<u64>]) -> bool {
    check(alloc, entries, most) == Ok(())
}

// Whether the entries of a journal are as a run says.
fn is_wanted(entries: &[Entry<u64>], run: &Run) -> bool {
    match run.entries {
        Some((first, rest)) => are_entries(entries, first, rest),
        None => true,
    }
}

// Plays the steps of a run on a new pool. It gives the place of a step that answered otherwise, if
// one did, and tells whether the journal that stands in the end is legal, and whether it is the
// run's.
fn played<R: Wait>(
    rt: &R,
    alloc: Global,
    most: u64,
    moments: &[u64],
    reports: &[(usize, Report)],
    run: &Run,
) -> Result<(Option<usize>, bool, bool), Fail>
    requires least { 1 ≤ most }
    requires greatest { most ≤ 4097 }
    requires rising { do_not_fall 0 moments.now ≡ true }
    requires bounded { are_bounded moments.now ≡ true }
    requires few { length reports.now ≤ 256 }
{
    let (pool, mut root, mut hired) = two(alloc, most, moments, reports)?;
    let wrong = play(rt, &pool, &mut root, &mut hired, run.steps);
    dismiss(&pool, &mut root, hired);
    let journal = journal_of(pool, root);
    let is_legal = is_legal(alloc, most, journal.as_slice());
    Ok((wrong, is_legal, is_wanted(journal.as_slice(), run)))
}

// Plays the steps of a run on a new pool for at most so many members over a net with these moments
// and reports.
pub(crate) fn take<R: Abort + Wait>(
    rt: &R,
    alloc: Global,
    most: u64,
    moments: &[u64],
    reports: &[(usize, Report)],
    run: &Run,
) -> Result<(), Fail>
    requires least { 1 ≤ most }
    requires greatest { most ≤ 4097 }
    requires rising { do_not_fall 0 moments.now ≡ true }
    requires bounded { are_bounded moments.now ≡ true }
    requires few { length reports.now ≤ 256 }
{
    let (wrong, is_legal, is_wanted) = played(rt, alloc, most, moments, reports, run)?;
    if let Some(at) = wrong {
        panic!(rt; "{}: step {at}", run.name)
    }
    assert!(rt; is_legal, "{}: the journal is not legal", run.name);
    assert!(rt; is_wanted, "{}: other entries", run.name);
    Ok(())
}

// The journal of a pool that its root takes apart.
pub(crate) fn journal_of(pool: PlayPool, root: PlayWorker) -> Journal<u64>
    requires free { IsFree pool root }
    requires root { (known_by root).root ≡ true }
    requires alone { (known_by root).children ≡ 0 }
{
    let Left {
        journal,
        first: _,
        net: _,
        timers: _,
        watch: _,
        volumes: _,
    } = close(pool, root);
    journal
}

// A handle is ready for reading.
pub(crate) fn ready_at(wait: usize, handle: u64) -> (usize, Report) {
    let report = Report {
        handle: Handle(handle),
        kind: Kind::Read,
    };
    (wait, report)
}

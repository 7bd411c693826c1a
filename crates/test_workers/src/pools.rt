//! Runs of pools of several workers, whose journals are legal whatever the schedule.
ghost use Rattle.std.specs.Prelude.{◌≡◌, ◌≤◌, true, false};
ghost use Rattle.test_pool.specs.tp_reactor.specs.Words.{SameKin, known_by};
ghost use Rattle.test_pool.specs.Callers.{IsFree, IsRoot, SameRank};

use crate::asserts::{assert_in, assert_same, assert_same_in};
use crate::steps::{PlayPool, PlayWorker, is_legal, journal_of, one, ready_at, registered, two};
use ev_base::{Answer, Handle, Kind, Mask, Report};
use notify_ring::Full;
use reactor_model::Entry;
use std::alloc::Global;
use std::process::Abort;
use std::sync::Wait;
use std::test::Fail;
use std::thread::{Threads, join_mut};
use test_pool::*;

/// How many handles a large run has.
const HANDLES: usize = 64;

/// What is seen of a run.
#[derive(Clone, Copy)]
struct Seen {
    ran: Ran,
    /// Whether its journal is legal.
    is_legal: bool,
    /// How many upcalls were started in it.
    started: usize,
    /// How many notifications were posted in it.
    posted: usize,
    /// Whether the notice was.
    has_notice: bool,
}

// Registers so many members, each of which is called again so many times.
fn fill<R: Abort + Wait>(rt: &R, pool: &PlayPool, root: &mut PlayWorker, handles: u64, times: u32)
    requires { IsFree pool.now root.old }
    ensures free { IsFree pool.now root.new }
    ensures rank { SameRank root.old root.new }
{
    for _ in 0..handles {
        let answered = registered(register(rt, pool, root, Member::counting(times), Mask::READ));
        assert!(rt; answered.is_ok());
    }
}

// How many upcalls were started in a journal.
fn started_in(entries: &[Entry<u64>]) -> usize {
    entries
        .iter()
        .filter(|entry| matches!(entry, Entry::Started { .. }))
        .count()
}

// How many notifications were posted in a journal.
fn posted_in(entries: &[Entry<u64>]) -> usize {
    entries
        .iter()
        .filter(|entry| matches!(entry, Entry::Posted { .. }))
        .count()
}

// What is seen of a pool that ran so, and that its root takes apart.
fn seen_of(alloc: Global, most: u64, ran: Ran, pool: PlayPool, root: PlayWorker) -> Seen
    requires free { IsFree pool root }
    requires root { (known_by root).root ≡ true }
    requires alone { (known_by root).children ≡ 0 }
{
    let journal = journal_of(pool, root);
    let entries = journal.as_slice();
    Seen {
        ran,
        is_legal: is_legal(alloc, most, entries),
        started: started_in(entries),
        posted: posted_in(entries),
        has_notice: entries.contains(&NOTICE),
    }
}

// A report for each of the handles, at the first wait.
fn reports() -> [(usize, Report); HANDLES] {
    let mut reports = [ready_at(0, 0); HANDLES];
    for handle in 0..HANDLES {
        reports[handle] = ready_at(0, handle as u64);
    }
    reports
}

// Runs a pool of so many workers, each of whose members is called again so many times, until
// nothing is left to do.
fn run_many<R: Abort + Wait + Threads + Sync>(
    rt: &R,
    alloc: Global,
    workers: usize,
    times: u32,
) -> Result<Seen, Fail>
    requires many { 1 ≤ workers }
    requires few { workers ≤ 60 }
{
    let (pool, mut root) = one(alloc, HANDLES as u64, &[0], &reports())?;
    fill(rt, &pool, &mut root, HANDLES as u64, times);
    let ran = run_pool(rt, alloc, &pool, &mut root, workers, None);
    Ok(seen_of(alloc, HANDLES as u64, ran, pool, root))
}

// Finds that so many workers start each upcall once, if each member is called again so many
// times, and leave a legal journal.
fn see_many<R: Abort + Wait + Threads + Sync>(
    rt: &R,
    alloc: Global,
    workers: usize,
    times: u32,
) -> Result<(), Fail>
    requires many { 1 ≤ workers }
    requires few { workers ≤ 60 }
{
    let seen = run_many(rt, alloc, workers, times)?;
    let is_over = seen.ran == Ran::Over && seen.is_legal;
    assert_in(rt, workers, is_over);
    assert_same_in(
        rt,
        workers,
        seen.started as u64,
        HANDLES as u64 * (times as u64 + 1),
    );
    Ok(())
}

#[test]
fn each_event_is_started_once_by_pools_of_any_size(rt: HostRuntime) -> Result<(), Fail> {
    for workers in [1, 2, 4, 8] {
        see_many(&rt, rt.alloc(), workers, 9)?;
    }
    Ok(())
}

#[test]
fn a_long_run_of_eight_workers_leaves_a_legal_journal(rt: HostRuntime) -> Result<(), Fail> {
    see_many(&rt, rt.alloc(), 8, 1_562)
}

// Makes so many calls on members as the numbers after the seed say: suspensions and their ends,
// postings, and now and then a removal.
fn disturb<R: Wait>(rt: &R, pool: &PlayPool, worker: &mut PlayWorker, seed: u64, calls: u64)
    requires { IsFree pool.now worker.old }
    ensures free { IsFree pool.now worker.new }
    ensures rank { SameRank worker.old worker.new }
{
    let mut number = seed;
    for _ in 0..calls {
        number = next_number(number);
        disturb_once(rt, pool, worker, number);
    }
}

fn disturb_once<R: Wait>(rt: &R, pool: &PlayPool, worker: &mut PlayWorker, number: u64)
    requires { IsFree pool.now worker.old }
    ensures free { IsFree pool.now worker.new }
    ensures rank { SameRank worker.old worker.new }
{
    let handle = Handle(number % 65);
    match (number >> 32) % 32 {
        0 => {
            let _answer = remove(rt, pool, worker, handle);
        }
        1..=6 => {
            let _answer = suspend(rt, pool, worker, handle);
        }
        7..=16 => {
            let _answer = resume(rt, pool, worker, handle);
        }
        _ => {
            let _posted = post(pool, worker, handle, Kind::Read);
        }
    }
}

// Runs the pool with so many workers, while another worker makes its calls.
fn run_disturbed<R: Threads + Wait + Sync>(
    rt: &R,
    alloc: Global,
    pool: &PlayPool,
    root: &mut PlayWorker,
    outside: &mut PlayWorker,
    workers: usize,
) -> Ran
    requires many { 1 ≤ workers }
    requires few { workers ≤ 60 }
    requires free { IsFree pool.now root.old × IsFree pool.now outside.old }
    requires root { IsRoot root.old 1 2 }
    ensures free { IsFree pool.now root.new × IsFree pool.now outside.new }
    ensures kin { SameKin (known_by root.old) (known_by root.new) }
    ensures rank { SameRank outside.old outside.new }
{
    let mut theirs = ||
        requires { IsFree pool.now outside.now }
        ensures { IsFree pool.entry.now outside.exit.now
            × SameRank outside.entry.now outside.exit.now }
    { disturb(rt, pool, outside, 88_172_645_463_325_252, 4_000) };
    let mut mine = || -> Ran
        requires { (1 ≤ workers) × (workers ≤ 60) × IsFree pool.now root.now × IsRoot root.now 1 2 }
        ensures { IsFree pool.entry.now root.exit.now
            × SameKin (known_by root.entry.now) (known_by root.exit.now) }
    { run_pool(rt, alloc, pool, root, workers, None) };
    let (_, ran) = join_mut(rt, &mut theirs, &mut mine);
    ran
}

// What is seen of a pool of eight workers, which a worker outside disturbs.
fn disturbed<R: Abort + Wait + Threads + Sync>(rt: &R, alloc: Global) -> Result<Seen, Fail> {
    let (pool, mut root, mut outside) = two(alloc, HANDLES as u64, &[0], &reports())?;
    fill(rt, &pool, &mut root, HANDLES as u64, 400);
    let ran = run_disturbed(rt, alloc, &pool, &mut root, &mut outside, 8);
    dismiss(&pool, &mut root, outside);
    Ok(seen_of(alloc, HANDLES as u64, ran, pool, root))
}

#[test]
fn a_worker_outside_leaves_the_journal_legal(rt: HostRuntime) -> Result<(), Fail> {
    let seen = disturbed(&rt, rt.alloc())?;
    assert_same(&rt, seen.ran, Ran::Over);
    assert!(rt; seen.is_legal);
    assert!(rt; seen.started > 0);
    Ok(())
}

// Registers a member that closes itself at its input, and one that stays.
fn register_two<R: Abort + Wait>(rt: &R, pool: &PlayPool, root: &mut PlayWorker)
    requires { IsFree pool.now root.old }
    ensures free { IsFree pool.now root.new }
    ensures rank { SameRank root.old root.new }
{
    let closing = Member::answering(Answer::Close);
    let first = registered(register(rt, pool, root, closing, Mask::READ));
    let second = registered(register(rt, pool, root, Member::counting(0), Mask::READ));
    assert!(rt; first.is_ok() && second.is_ok());
}

/// What is posted once one handler was closed.
const NOTICE: Entry<u64> = Entry::Posted {
    handle: Handle(1),
    kind: Kind::Except,
    from: 0,
    seq: 0,
};

// What is seen of a pool that is to post a notice once one handler was closed.
fn noticed<R: Abort + Wait + Threads + Sync>(rt: &R, alloc: Global) -> Result<Seen, Fail> {
    let (pool, mut root) = one(alloc, 2, &[0], &[ready_at(0, 0)])?;
    register_two(rt, &pool, &mut root);
    let ran = run_pool(rt, alloc, &pool, &mut root, 1, Some((1, Handle(1))));
    Ok(seen_of(alloc, 2, ran, pool, root))
}

#[test]
fn a_notice_is_posted_once_as_many_were_closed_as_were_asked_for(
    rt: HostRuntime,
) -> Result<(), Fail> {
    let seen = noticed(&rt, rt.alloc())?;
    assert_same(&rt, seen.ran, Ran::Over);
    assert!(rt; seen.is_legal);
    assert_same(&rt, seen.posted, 1);
    assert!(rt; seen.has_notice);
    Ok(())
}

/// How many postings a ring holds.
const RING: u64 = 256;

// Posts until the ring is full, and tells whether each posting got its number.
fn are_posted(pool: &PlayPool, root: &mut PlayWorker) -> bool
    requires { IsFree pool.now root.old }
    ensures free { IsFree pool.now root.new }
    ensures rank { SameRank root.old root.new }
{
    let mut are_posted = true;
    for number in 0..RING {
        are_posted &= post(pool, root, Handle(0), Kind::Read) == Some(Ok(number));
    }
    are_posted
}

// Leads, and settles the upcall that was made, of which it gives the event and the handle.
fn serve<R: Wait>(rt: &R, pool: &PlayPool, root: &mut PlayWorker) -> Option<(u64, Handle)>
    requires { IsFree pool.now root.old }
    ensures free { IsFree pool.now root.new }
    ensures rank { SameRank root.old root.new }
{
    match lead(rt, pool, root, None) {
        Ok(done) => {
            let served = (done.event(), done.handle());
            settle(rt, pool, root, done);
            Some(served)
        }
        Err(_) => None,
    }
}

// Posts until the ring is full, and once more after a lead. It tells whether each call answered as
// it is to.
fn fill_ring<R: Wait>(rt: &R, pool: &PlayPool, root: &mut PlayWorker) -> bool
    requires { IsFree pool.now root.old }
    ensures free { IsFree pool.now root.new }
    ensures rank { SameRank root.old root.new }
{
    let are_posted = are_posted(pool, root);
    let refused = post(pool, root, Handle(0), Kind::Read);
    let served = serve(rt, pool, root);
    let again = post(pool, root, Handle(0), Kind::Read);
    are_posted
        && refused == Some(Err(Full { held: RING }))
        && served == Some((1, Handle(0)))
        && again == Some(Ok(RING))
}

// Whether a full ring refuses until a leader drains it, and leaves all postings in a legal journal
// but that which was not drained.
fn is_drained<R: Abort + Wait>(rt: &R, alloc: Global) -> Result<bool, Fail> {
    let (pool, mut root) = one(alloc, 1, &[], &[])?;
    fill(rt, &pool, &mut root, 1, 0);
    let is_filled = fill_ring(rt, &pool, &mut root);
    let seen = seen_of(alloc, 1, Ran::Over, pool, root);
    Ok(is_filled && seen.is_legal && seen.posted as u64 == RING)
}

#[test]
fn a_full_ring_refuses_until_a_leader_drains_it(rt: HostRuntime) -> Result<(), Fail> {
    assert!(rt; is_drained(&rt, rt.alloc())?);
    Ok(())
}

//! How long calls take beside a leader whose net waits long.
ghost use Rattle.test_pool.specs.Callers.{IsFree, SameRank};

use crate::pool::slow_net::{SlowNet, SlowWake};
use ev_base::{Answer, Handle, Kind, Mask};
use reactor_model::DropVolumes;
use std::alloc::Global;
use std::io;
use std::sync::Wait;
use std::thread::{Threads, join_mut};
use std::time::{Clock, Duration, Instant};
use test_pool::{
    Answered, Left, Member, NoPool, Pool, PoolWorker, close, dismiss, hire, lead, post, register,
    remove, settle, share, stop,
};

/// A pool over a net that waits long.
type SlowPool<R> = Pool<SlowNet<R>, DropVolumes, SlowWake>;

/// A worker of it.
type SlowWorker<R> = PoolWorker<SlowNet<R>, DropVolumes>;

/// The slowest call of each kind, in nanoseconds.
#[derive(Clone, Copy)]
pub struct Slowest {
    /// Of removals.
    pub remove: u128,
    /// Of settlings.
    pub settle: u128,
    /// How many settlings there were.
    pub settled: u64,
}

/// How many calls of each kind are made.
const CALLS: u64 = 10_000;

/// How many microseconds a caller rests between its calls, so that a leader waits meanwhile.
const REST: u64 = 50;

/// The slowest of the settlings of a worker, in nanoseconds, and how many there were.
#[derive(Clone, Copy)]
struct Settlings {
    slowest: u128,
    count: u64,
}

/// Leads, and settles each upcall, until the pool is stopped or fails. It keeps how long the
/// slowest settling took.
fn serve<R: Wait + Clock>(
    rt: &R,
    pool: &SlowPool<R>,
    worker: &mut SlowWorker<R>,
    settlings: &mut Settlings,
)
    requires { IsFree pool.now worker.old }
    ensures free { IsFree pool.now worker.new }
    ensures rank { SameRank worker.old worker.new }
{
    for _ in rt.forever() {
        match lead(rt, pool, worker, None) {
            Ok(done) => {
                let start = Instant::now(rt);
                settle(rt, pool, worker, done);
                settlings.count = settlings.count.saturating_add(1);
                settlings.slowest = settlings.slowest.max(since(rt, start));
            }
            Err(Answered::Quiet) => {}
            Err(_) => return,
        }
    }
}

/// The time since a moment, in nanoseconds: 0 if the clock could not be read.
fn since<R: Clock>(rt: &R, start: io::Result<Instant>) -> u128 {
    match start {
        Ok(start) => match start.elapsed(rt) {
            Ok(passed) => passed.as_nanos(),
            Err(_) => 0,
        },
        Err(_) => 0,
    }
}

/// Posts a notification and removes a handle that was never opened, again and again, and stops the
/// pool in the end. It tells how long the slowest removal took, in nanoseconds.
fn disturb<R: Wait + Clock>(rt: &R, pool: &SlowPool<R>, worker: &mut SlowWorker<R>) -> u128
    requires { IsFree pool.now worker.old }
    ensures free { IsFree pool.now worker.new }
    ensures rank { SameRank worker.old worker.new }
{
    let mut slowest = 0;
    for _ in 0..CALLS {
        let _posted = post(pool, worker, Handle(0), Kind::Read);
        rt.sleep(Duration::from_micros(REST));
        let start = Instant::now(rt);
        let _answer = remove(rt, pool, worker, Handle(7));
        slowest = since(rt, start).max(slowest);
        rt.sleep(Duration::from_micros(REST));
    }
    stop(rt, pool, worker);
    slowest
}

// Two workers lead and settle beside each other.
fn serve_both<R: Threads + Wait + Clock + Copy + Send + Sync>(
    rt: &R,
    pool: &SlowPool<R>,
    root: &mut SlowWorker<R>,
    first: &mut Settlings,
    hired: &mut SlowWorker<R>,
    second: &mut Settlings,
)
    requires { IsFree pool.now root.old × IsFree pool.now hired.old }
    ensures free { IsFree pool.now root.new × IsFree pool.now hired.new }
    ensures root { SameRank root.old root.new }
    ensures hired { SameRank hired.old hired.new }
{
    let mut one = ||
        requires { IsFree pool.now root.now }
        ensures { IsFree pool.entry.now root.exit.now × SameRank root.entry.now root.exit.now }
    { serve(rt, pool, root, first) };
    let mut other = ||
        requires { IsFree pool.now hired.now }
        ensures { IsFree pool.entry.now hired.exit.now × SameRank hired.entry.now hired.exit.now }
    { serve(rt, pool, hired, second) };
    join_mut(rt, &mut one, &mut other);
}

// Two workers lead and settle, while a third makes its calls.
fn serve_disturbed<R: Threads + Wait + Clock + Copy + Send + Sync>(
    rt: &R,
    pool: &SlowPool<R>,
    root: &mut SlowWorker<R>,
    first: &mut Settlings,
    hired: &mut SlowWorker<R>,
    second: &mut Settlings,
    outside: &mut SlowWorker<R>,
) -> u128
    requires { IsFree pool.now root.old × IsFree pool.now hired.old × IsFree pool.now outside.old }
    ensures free { IsFree pool.now root.new × IsFree pool.now hired.new
        × IsFree pool.now outside.new }
    ensures root { SameRank root.old root.new }
    ensures hired { SameRank hired.old hired.new }
    ensures outside { SameRank outside.old outside.new }
{
    let mut leaders = ||
        requires { IsFree pool.now root.now × IsFree pool.now hired.now }
        ensures { IsFree pool.entry.now root.exit.now × IsFree pool.entry.now hired.exit.now
            × SameRank root.entry.now root.exit.now × SameRank hired.entry.now hired.exit.now }
    { serve_both(rt, pool, root, first, hired, second) };
    let mut third = || -> u128
        requires { IsFree pool.now outside.now }
        ensures { IsFree pool.entry.now outside.exit.now
            × SameRank outside.entry.now outside.exit.now }
    { disturb(rt, pool, outside) };
    let (_, slowest) = join_mut(rt, &mut leaders, &mut third);
    slowest
}

/// How long the slowest calls took beside a leader whose net waits up to 10 seconds.
pub fn slowest_calls<R: Threads + Wait + Clock + Copy + Send + Sync>(
    rt: &R,
    alloc: Global,
) -> Result<Slowest, NoPool> {
    let Ok((net, waker)) = SlowNet::new(alloc, rt) else {
        return Err(NoPool);
    };
    let (pool, mut root) = share(alloc, 1, 65_536, net, DropVolumes, waker)?;
    let _handle = register(
        rt,
        &pool,
        &mut root,
        Member::answering(Answer::Keep),
        Mask::READ,
    );
    let mut hired = hire(&pool, &mut root);
    let mut outside = hire(&pool, &mut root);
    let mut first = Settlings {
        slowest: 0,
        count: 0,
    };
    let mut second = first;
    let slowest = serve_disturbed(
        rt,
        &pool,
        &mut root,
        &mut first,
        &mut hired,
        &mut second,
        &mut outside,
    );
    dismiss(&pool, &mut root, outside);
    dismiss(&pool, &mut root, hired);
    let Left {
        journal: _,
        first: _,
        net: _,
        timers: _,
        watch: _,
        volumes: _,
    } = close(pool, root);
    Ok(Slowest {
        remove: slowest,
        settle: first.slowest.max(second.slowest),
        settled: first.count.saturating_add(second.count),
    })
}

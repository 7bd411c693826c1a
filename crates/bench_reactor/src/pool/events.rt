//! Runs of pools with so many workers and handles.
ghost use Rattle.std.specs.Prelude.{◌≤◌};
ghost use Rattle.test_pool.specs.Callers.{IsFree, SameRank};

use ev_base::Mask;
use reactor_model::DropVolumes;
use std::alloc::Global;
use std::io;
use std::sync::Wait;
use std::thread::Threads;
use std::time::{Clock, Instant};
use test_nets::RoundRobinNet;
use test_pool::{
    Left, Member, NoPool, Pool, PoolWorker, Ran, Still, close, register, run_pool, share,
};

/// How many reports a wait gives.
pub const EVENTS_OF_WAIT: usize = 256;

/// How many entries a volume has at least.
pub const VOLUME: u64 = 65_536;

/// A pool over a net that reports its handles in turn, whose volumes are let go.
type EventPool = Pool<RoundRobinNet, DropVolumes, Still>;

/// Its root.
type EventRoot = PoolWorker<RoundRobinNet, DropVolumes>;

/// How a run ended, and how many nanoseconds it took.
#[derive(Clone, Copy)]
pub struct Run {
    /// Its answer.
    pub ran: Ran,
    /// Nanoseconds.
    pub nanos: u128,
    /// How many entries were handed over or held in the end.
    pub entries: u64,
}

/// A count as a number of 32 bits, the greatest of them if it is larger.
pub fn narrow(count: u64) -> u32 {
    u32::try_from(count).unwrap_or(u32::MAX)
}

/// Registers so many members, of which each takes so many turns at each of so many inputs, and then
/// stops the pool.
fn fill<R: Wait>(
    rt: &R,
    pool: &EventPool,
    root: &mut EventRoot,
    handles: u64,
    turns: u32,
    inputs: u32,
)
    requires { IsFree pool.now root.old }
    ensures free { IsFree pool.now root.new }
    ensures rank { SameRank root.old root.new }
{
    for _ in 0..handles {
        let _answer = register(rt, pool, root, Member::working(turns, inputs), Mask::READ);
    }
}

/// Serves about so many events by a pool of so many workers.
pub fn serve_pool<R: Threads + Wait + Clock + Sync>(
    rt: &R,
    alloc: Global,
    handles: u64,
    workers: usize,
    turns: u32,
    events: u64,
) -> io::Result<Result<Run, NoPool>>
    requires least { 1 ≤ handles }
    requires greatest { handles ≤ 4097 }
    requires many { 1 ≤ workers }
    requires few { workers ≤ 60 }
{
    let start = Instant::now(rt)?;
    let net = RoundRobinNet::new(alloc, handles, EVENTS_OF_WAIT);
    let (pool, mut root) = match share(alloc, handles, VOLUME, net, DropVolumes, Still) {
        Ok(made) => made,
        Err(refused) => return Ok(Err(refused)),
    };
    fill(
        rt,
        &pool,
        &mut root,
        handles,
        turns,
        narrow(events / handles),
    );
    let before = start.elapsed(rt);
    let ran = run_pool(rt, alloc, &pool, &mut root, workers, None);
    let after = start.elapsed(rt);
    let Left {
        journal,
        first,
        net: _,
        timers: _,
        watch: _,
        volumes: _,
    } = close(pool, root);
    let nanos = after?.as_nanos().saturating_sub(before?.as_nanos());
    let entries = first.saturating_add(journal.len());
    Ok(Ok(Run {
        ran,
        nanos,
        entries,
    }))
}

//! Callers of a pool of members, and their calls.
ghost use Rattle.std.specs.Prelude.{◌≡◌, ◌≤◌, ◌<◌, [], IfOk, OnErr, true, false};
ghost use Rattle.ev_base.specs.Terms.{open_terms};
ghost use Rattle.notify_ring.specs.Words.{poster_view};
ghost use Rattle.reactor_core.specs.Beginning.{CanBegin};
ghost use Rattle.reactor_model.specs.Turns.{IsTimer};
ghost use Rattle.tp_reactor.specs.Words.{SameKin, known_by, poster_of};
ghost use Rattle.test_pool.specs.Callers.{HasDismissed, HasHired, HasNoUpcalls, IsFree, IsOut};
ghost use Rattle.test_pool.specs.Callers.{IsRoot};
ghost use Rattle.test_pool.specs.Callers.{SameRank};

use crate::Member;
use demux::PlayEnd;
use ev_base::{Handle, Kind, Mask, Net, Wake};
use notify_ring::Full;
use reactor_core::{
    CancelRefused, Core, Done, LiveRefused, Means, NotLive, Parts, RegisterRefused, Settled,
    StateRefused,
};
use reactor_model::{NoWatch, Volumes};
use std::alloc::Global;
use std::sync::Wait;
use std::thread::Threads;
use timer_queue::SortedTimers;
use tp_reactor::{Led, Ran, Reactor, Worker};

/// A pool of members over a net and volumes.
pub type Pool<M, V, K> = Reactor<Member, M, SortedTimers, NoWatch, V, K>;

/// A worker of such a pool.
pub type PoolWorker<M, V> = Worker<Member, M, SortedTimers, NoWatch, V>;

/// What such a pool leaves.
pub type Left<M, V> = Parts<u64, M, SortedTimers, NoWatch, V>;

/// A waker for a net that does not wait.
#[derive(Drop)]
pub struct Still;

impl Wake for Still {
    fn wake(&self) {}
}

/// What a lead answered that gave no job.
#[derive(Clone, Copy, PartialEq, Eq, Debug)]
pub enum Answered {
    /// The wait brought nothing that can be started.
    Quiet,
    /// Nothing can be reported any more, and nothing can be started.
    Over,
    /// The pool was stopped.
    Stopped,
    /// Its watch failed.
    Broken,
    /// Its volumes failed.
    VolumeFault,
    /// The wait failed.
    NetFault,
    /// There was no memory.
    NoMemory,
}

/// There was no memory for a pool.
#[derive(Clone, Copy, PartialEq, Eq, Debug)]
pub struct NoPool;

/// A pool for at most so many members, and its root.
pub fn share<M: Net<End = PlayEnd> + Drop, V: Volumes<u64> + Drop, K: Wake + Drop>(
    alloc: Global,
    most: u64,
    volume: u64,
    net: M,
    volumes: V,
    waker: K,
) -> Result<(Pool<M, V, K>, PoolWorker<M, V>), NoPool>
    requires least { 1 ≤ most }
    requires greatest { most ≤ 4097 }
    requires volume { 1 ≤ volume }
    requires begins { CanBegin (M.facts net) (M.keeps (open_terms most) net) [] (Unit {0})
        (V.facts volumes) (open_terms most) most }
    ensures free { IfOk result (λ made. IsFree made.0 made.1) }
    ensures root { IfOk result (λ made. IsRoot made.1 0 1) }
{
    let core = match Core::new(
        alloc,
        most,
        volume,
        net,
        SortedTimers::new(alloc),
        NoWatch,
        volumes,
    ) {
        Ok(core) => core,
        Err(_) => return Err(NoPool),
    };
    match Reactor::new(alloc, core, waker) {
        Ok(made) => Ok(made),
        Err((core, _, _)) => {
            end(core);
            Err(NoPool)
        }
    }
}

// Takes a reactor apart, stopped first if it was not.
fn end<M: Net<End = PlayEnd>, V: Volumes<u64>>(
    core: Core<Member, M, SortedTimers, NoWatch, V>,
) -> Left<M, V>
    requires { HasNoUpcalls ⟦<Core<Member, M, SortedTimers, NoWatch, V> as Means>⟧.m core }
{
    let mut core = core;
    core.stop();
    core.into_parts()
}

/// Hires a worker. Fewer than 64 may have been made.
pub fn hire<M: Net<End = PlayEnd>, V: Volumes<u64>, K: Wake>(
    pool: &Pool<M, V, K>,
    root: &mut PoolWorker<M, V>,
) -> PoolWorker<M, V>
    requires free { IsFree pool.now root.old }
    requires root { (known_by root.old).root ≡ true }
    requires few { (poster_view (poster_of root.old)).posters < 64 }
    ensures free { IsFree pool.now root.new × IsFree pool.now result }
    ensures root { HasHired root.old root.new }
    ensures child { (known_by result).root ≡ false }
{
    pool.hire(root)
}

/// Dismisses a hired worker.
pub fn dismiss<M: Net<End = PlayEnd>, V: Volumes<u64>, K: Wake>(
    pool: &Pool<M, V, K>,
    root: &mut PoolWorker<M, V>,
    other: PoolWorker<M, V>,
)
    requires free { IsFree pool.now root.old × IsFree pool.now other }
    requires root { (known_by root.old).root ≡ true }
    requires child { (known_by other).root ≡ false }
    ensures free { IsFree pool.now root.new }
    ensures root { HasDismissed root.old root.new }
{
    pool.dismiss(root, other);
}

/// Takes a pool apart that the root alone calls any more, stopped first if it was not.
pub fn close<M: Net<End = PlayEnd>, V: Volumes<u64>, K: Wake + Drop>(
    pool: Pool<M, V, K>,
    root: PoolWorker<M, V>,
) -> Left<M, V>
    requires free { IsFree pool root }
    requires root { (known_by root).root ≡ true }
    requires alone { (known_by root).children ≡ 0 }
{
    end(pool.close(root))
}

/// Leads once, and runs the job if there is one. It is to be settled.
pub fn lead<R: Wait, M: Net<End = PlayEnd>, V: Volumes<u64>, K: Wake>(
    rt: &R,
    pool: &Pool<M, V, K>,
    worker: &mut PoolWorker<M, V>,
    most_ms: Option<u64>,
) -> Result<Done<Member>, Answered>
    requires { IsFree pool.now worker.old }
    ensures ok { IfOk result (λ done. IsOut pool.now worker.new done) }
    ensures err { OnErr result (IsFree pool.now worker.new) }
    ensures rank { SameRank worker.old worker.new }
{
    match pool.lead(rt, worker, most_ms) {
        Led::Job(job) => Ok(job.run()),
        Led::Quiet => Err(Answered::Quiet),
        Led::Over => Err(Answered::Over),
        Led::Stopped => Err(Answered::Stopped),
        Led::Broken => Err(Answered::Broken),
        Led::VolumeFault => Err(Answered::VolumeFault),
        Led::NetFault => Err(Answered::NetFault),
        Led::NoMemory => Err(Answered::NoMemory),
    }
}

/// Settles the upcall that the worker has made.
pub fn settle<R: Wait, M: Net<End = PlayEnd>, V: Volumes<u64>, K: Wake>(
    rt: &R,
    pool: &Pool<M, V, K>,
    worker: &mut PoolWorker<M, V>,
    done: Done<Member>,
) -> Settled
    requires { IsOut pool.now worker.old done }
    ensures free { IsFree pool.now worker.new }
    ensures rank { SameRank worker.old worker.new }
{
    pool.settle(rt, worker, done)
}

/// Registers a member for reading, with a timer or with none.
pub fn register<R: Wait, M: Net<End = PlayEnd>, V: Volumes<u64>, K: Wake>(
    rt: &R,
    pool: &Pool<M, V, K>,
    worker: &mut PoolWorker<M, V>,
    member: Member,
    mask: Mask,
) -> Result<Handle, (Member, RegisterRefused)>
    requires { IsFree pool.now worker.old }
    ensures free { IsFree pool.now worker.new }
    ensures rank { SameRank worker.old worker.new }
{
    pool.register(rt, worker, member, mask, None)
}

/// Removes a member.
pub fn remove<R: Wait, M: Net<End = PlayEnd>, V: Volumes<u64>, K: Wake>(
    rt: &R,
    pool: &Pool<M, V, K>,
    worker: &mut PoolWorker<M, V>,
    handle: Handle,
) -> Result<(), NotLive>
    requires { IsFree pool.now worker.old }
    ensures free { IsFree pool.now worker.new }
    ensures rank { SameRank worker.old worker.new }
{
    pool.remove(rt, worker, handle)
}

/// Suspends a handle.
pub fn suspend<R: Wait, M: Net<End = PlayEnd>, V: Volumes<u64>, K: Wake>(
    rt: &R,
    pool: &Pool<M, V, K>,
    worker: &mut PoolWorker<M, V>,
    handle: Handle,
) -> Result<(), StateRefused>
    requires { IsFree pool.now worker.old }
    ensures free { IsFree pool.now worker.new }
    ensures rank { SameRank worker.old worker.new }
{
    pool.suspend(rt, worker, handle)
}

/// Resumes a handle.
pub fn resume<R: Wait, M: Net<End = PlayEnd>, V: Volumes<u64>, K: Wake>(
    rt: &R,
    pool: &Pool<M, V, K>,
    worker: &mut PoolWorker<M, V>,
    handle: Handle,
) -> Result<(), StateRefused>
    requires { IsFree pool.now worker.old }
    ensures free { IsFree pool.now worker.new }
    ensures rank { SameRank worker.old worker.new }
{
    pool.resume(rt, worker, handle)
}

/// Sets a timer.
pub fn schedule<R: Wait, M: Net<End = PlayEnd>, V: Volumes<u64>, K: Wake>(
    rt: &R,
    pool: &Pool<M, V, K>,
    worker: &mut PoolWorker<M, V>,
    handle: Handle,
    delay: u64,
    every: u64,
) -> Result<u64, LiveRefused>
    requires free { IsFree pool.now worker.old }
    requires some { 1 ≤ delay }
    requires within { delay ≤ 4294967295 }
    requires period { every ≤ 4294967295 }
    ensures free { IsFree pool.now worker.new }
    ensures rank { SameRank worker.old worker.new }
{
    pool.schedule(rt, worker, handle, delay, every)
}

/// Takes a timer away.
pub fn cancel<R: Wait, M: Net<End = PlayEnd>, V: Volumes<u64>, K: Wake>(
    rt: &R,
    pool: &Pool<M, V, K>,
    worker: &mut PoolWorker<M, V>,
    timer: u64,
) -> Result<(), CancelRefused>
    requires { IsFree pool.now worker.old }
    ensures free { IsFree pool.now worker.new }
    ensures rank { SameRank worker.old worker.new }
{
    pool.cancel(rt, worker, timer)
}

/// Stops the pool.
pub fn stop<R: Wait, M: Net<End = PlayEnd>, V: Volumes<u64>, K: Wake>(
    rt: &R,
    pool: &Pool<M, V, K>,
    worker: &mut PoolWorker<M, V>,
)
    requires { IsFree pool.now worker.old }
    ensures free { IsFree pool.now worker.new }
    ensures rank { SameRank worker.old worker.new }
{
    pool.stop(rt, worker);
}

/// How many postings a worker may make here.
const MOST_POSTINGS: u64 = 1_000_000;

/// Posts a notification, or tells that the worker has made too many. It needs no worker that is
/// free.
pub fn post<M: Net<End = PlayEnd>, V: Volumes<u64>, K: Wake>(
    pool: &Pool<M, V, K>,
    worker: &mut PoolWorker<M, V>,
    handle: Handle,
    kind: Kind,
) -> Option<Result<u64, Full>>
    requires { IsFree pool.now worker.old }
    ensures free { IsFree pool.now worker.new }
    ensures rank { SameRank worker.old worker.new }
{
    if worker.posted() >= MOST_POSTINGS {
        return None;
    }
    Some(pool.post(worker, handle, kind))
}

/// Runs the pool with so many workers, without a limit of waits.
pub fn run_pool<
    R: Threads + Wait + Sync,
    M: Net<End = PlayEnd> + Send,
    V: Volumes<u64> + Send,
    K: Wake + Sync,
>(
    rt: &R,
    alloc: Global,
    pool: &Pool<M, V, K>,
    root: &mut PoolWorker<M, V>,
    workers: usize,
    until: Option<(u64, Handle)>,
) -> Ran
    requires many { 1 ≤ workers }
    requires few { workers ≤ 60 }
    requires free { IsFree pool.now root.old }
    requires root { (known_by root.old).root ≡ true }
    requires made { (poster_view (poster_of root.old)).posters ≤ 4 }
    ensures free { IsFree pool.now root.new }
    ensures kin { SameKin (known_by root.old) (known_by root.new) }
{
    let until = if root.posted() < MOST_POSTINGS {
        until
    } else {
        None
    };
    pool.run_workers(rt, alloc, root, workers, None, until)
}

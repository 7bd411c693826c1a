//! A run by a pool of workers.
ghost use Rattle.std.specs.Prelude.{◌≤◌, ℕ};
ghost use Rattle.reactor.specs.core_loop.specs.Idle.{IsIdle};
ghost use Rattle.echo_server.specs.Runs.{IsOpened, IsUnposted, PoolEnds};

use crate::opening::EchoCore;
use reactor::{Means, Net, PeerEnd, Ran, Reactor, Wake};
use std::alloc::Global;
use std::sync::Wait;
use std::thread::Threads;

/// Runs a reactor that was opened, with 1 to 64 workers, each on a thread of its own if one can
/// be started (POSA2, Leader/Followers), until nothing can be reported any more and there is no
/// upcall to make. It posts no notification. Gives the reactor back.
pub fn run_pool<
    R: Threads + Wait + Sync,
    E: PeerEnd + Send,
    M: Net<End = E> + Send,
    K: Wake + Drop + Sync,
>(rt: &R, alloc: Global, core: EchoCore<E, M>, waker: K, workers: usize) -> (Ran, EchoCore<E, M>)
    ghost idle: { ℕ }
    requires some { 1 ≤ workers }
    requires few { workers ≤ 64 }
    requires opened { IsOpened ⟦<EchoCore<E, M> as Means>⟧.m idle core }
    ensures idle { IsIdle ⟦<EchoCore<E, M> as Means>⟧.m result.1 }
    ensures unposted { IsUnposted ⟦<EchoCore<E, M> as Means>⟧.m result.1 }
    ensures ends { PoolEnds ⟦<EchoCore<E, M> as Means>⟧.m core result.0 result.1 }
{
    match Reactor::new(alloc, core, waker) {
        Ok((reactor, root)) => {
            let mut root = root;
            let ran = reactor.run_workers(rt, alloc, &mut root, workers, None, None);
            (ran, reactor.close(root))
        }
        Err((core, _waker, _)) => (Ran::NoMemory, core),
    }
}

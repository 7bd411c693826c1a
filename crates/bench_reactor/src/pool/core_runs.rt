//! The one-thread reactor of the same handlers over the same net, for comparison.
ghost use Rattle.std.specs.Prelude.{◌≤◌, IfOk};
ghost use Rattle.core_loop.specs.Idle.{IsIdle};
ghost use Rattle.bench_reactor.specs.CoreRuns.{member_core};

use crate::pool::events::{EVENTS_OF_WAIT, VOLUME, narrow};
use core_loop::{close, register, run};
use ev_base::Mask;
use reactor_core::{Core, Parts};
use reactor_model::{DropVolumes, NoWatch};
use std::alloc::Global;
use std::io;
use std::sync::Wait;
use std::time::{Clock, Instant};
use test_nets::RoundRobinNet;
use test_pool::{Member, NoPool};
use timer_queue::SortedTimers;

/// A reactor of members over a net that reports its handles in turn, whose volumes are let go.
type EventCore = Core<Member, RoundRobinNet, SortedTimers, NoWatch, DropVolumes>;

/// A reactor for so many handlers.
fn made(alloc: Global, handles: u64) -> Result<EventCore, NoPool>
    requires least { 1 ≤ handles }
    requires greatest { handles ≤ 4097 }
    ensures { IfOk result (λ core. IsIdle member_core core) }
{
    let net = RoundRobinNet::new(alloc, handles, EVENTS_OF_WAIT);
    let timers = SortedTimers::new(alloc);
    match Core::new(alloc, handles, VOLUME, net, timers, NoWatch, DropVolumes) {
        Ok(core) => Ok(core),
        Err(_) => Err(NoPool),
    }
}

/// Registers so many members, of which each stops the reactor after so many inputs.
fn fill(core: &mut EventCore, handles: u64, inputs: u32)
    requires { IsIdle member_core core.old }
    ensures { IsIdle member_core core.new }
{
    for _ in 0..handles {
        let _answer = register(core, Member::working(0, inputs), Mask::READ);
    }
}

/// Serves about so many events by one thread, and tells how many nanoseconds that took.
pub fn serve_core<R: Clock + Wait>(
    rt: &R,
    alloc: Global,
    handles: u64,
    events: u64,
) -> io::Result<Result<u128, NoPool>>
    requires least { 1 ≤ handles }
    requires greatest { handles ≤ 4097 }
{
    let start = Instant::now(rt)?;
    let mut core = match made(alloc, handles) {
        Ok(core) => core,
        Err(refused) => return Ok(Err(refused)),
    };
    fill(&mut core, handles, narrow(events / handles));
    let before = start.elapsed(rt);
    let _ended = run(rt, &mut core, None, None);
    let after = start.elapsed(rt);
    let Parts {
        journal: _,
        first: _,
        net: _,
        timers: _,
        watch: _,
        volumes: _,
    } = close(core);
    Ok(Ok(after?.as_nanos().saturating_sub(before?.as_nanos())))
}

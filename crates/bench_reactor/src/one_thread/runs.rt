//! Runs of a reactor with so many handles, by what was reported and by what was posted.
ghost use Rattle.std.specs.Prelude.{◌≤◌, IfOk};
ghost use Rattle.core_loop.specs.Idle.{IsIdle};
ghost use Rattle.test_nets.specs.RoundRobin.{round_robin_rows};

use crate::one_thread::gaps::{Gaps, next_random};
use ev_base::{Handle, Kind, Mask};
use reactor_core::Core;
use reactor_model::{DropVolumes, NoWatch};
use std::alloc::Global;
use test_nets::{
    Left, RoundRobinNet, Rows, Steady, close, hand_over, poll, post, register, remove, turn,
};
use timer_queue::SortedTimers;

/// A reactor over a net that reports its handles in turn, whose volumes are let go.
pub type BenchRows = Rows<RoundRobinNet, DropVolumes>;

/// A call was refused: there was no memory.
#[derive(Clone, Copy, PartialEq, Eq, Debug)]
pub struct Refused;

/// How many entries a volume has at least.
pub const VOLUME: u64 = 65_536;

/// How many events there are for each wait.
pub const EVENTS_OF_WAIT: usize = 256;

/// A reactor with no handler for at most so many, whose net gives so many reports for each wait.
fn made(alloc: Global, handles: u64, each: usize) -> Result<BenchRows, Refused>
    requires least { 1 ≤ handles }
    requires greatest { handles ≤ 4097 }
    ensures { IfOk result (λ core. IsIdle round_robin_rows core) }
{
    let net = RoundRobinNet::new(alloc, handles, each);
    let timers = SortedTimers::new(alloc);
    match Core::new(alloc, handles, VOLUME, net, timers, NoWatch, DropVolumes) {
        Ok(core) => Ok(core),
        Err(_) => Err(Refused),
    }
}

/// The same. If there is no memory it is asked for once more.
pub fn reactor(alloc: Global, handles: u64, each: usize) -> Result<BenchRows, Refused>
    requires least { 1 ≤ handles }
    requires greatest { handles ≤ 4097 }
    ensures { IfOk result (λ core. IsIdle round_robin_rows core) }
{
    match made(alloc, handles, each) {
        Ok(core) => Ok(core),
        Err(Refused) => made(alloc, handles, each),
    }
}

/// Registers a handler, and tells its handle.
fn register_one(core: &mut BenchRows) -> Result<Handle, Refused>
    requires { IsIdle round_robin_rows core.old }
    ensures { IsIdle round_robin_rows core.new }
{
    match register(core, Steady::new(), Mask::READ) {
        Ok(handle) => Ok(handle),
        Err(_) => Err(Refused),
    }
}

/// Registers a handler, and tells its handle. If it is refused it is asked for once more.
fn register_one_or_again(core: &mut BenchRows) -> Result<Handle, Refused>
    requires { IsIdle round_robin_rows core.old }
    ensures { IsIdle round_robin_rows core.new }
{
    match register_one(core) {
        Ok(handle) => Ok(handle),
        Err(Refused) => register_one(core),
    }
}

/// Registers so many handlers one after the other, each removed before the next.
fn register_and_remove(core: &mut BenchRows, count: u32) -> Result<(), Refused>
    requires { IsIdle round_robin_rows core.old }
    ensures { IsIdle round_robin_rows core.new }
{
    for _ in 0..count {
        let handle = register_one_or_again(core)?;
        match remove(core, handle) {
            Ok(()) => {}
            Err(_) => return Err(Refused),
        }
    }
    Ok(())
}

/// Appends a handle. If there is no memory it is asked for once more.
fn append_or_again(live: &mut Vec<Handle>, handle: Handle) -> Result<(), Refused> {
    match live.push(handle) {
        Ok(()) => Ok(()),
        Err(_) => match live.push(handle) {
            Ok(()) => Ok(()),
            Err(_) => Err(Refused),
        },
    }
}

/// Registers so many handlers that stay, with such gaps between them, and tells their handles.
pub fn register_all(
    core: &mut BenchRows,
    alloc: Global,
    handles: u64,
    gaps: Gaps,
) -> Result<Vec<Handle>, Refused>
    requires { IsIdle round_robin_rows core.old }
    ensures { IsIdle round_robin_rows core.new }
{
    let mut live = Vec::new(alloc);
    let mut random = 0;
    for at in 0..handles {
        random = next_random(random);
        register_and_remove(core, gaps.closed_before(at, random))?;
        let handle = register_one_or_again(core)?;
        append_or_again(&mut live, handle)?;
    }
    Ok(live)
}

/// Waits once, a volume handed over before if one is due.
fn wait(core: &mut BenchRows) -> Result<(), Refused>
    requires { IsIdle round_robin_rows core.old }
    ensures { IsIdle round_robin_rows core.new }
{
    match hand_over(core) {
        Ok(_) => {}
        Err(_) => return Err(Refused),
    }
    match poll(core) {
        Ok(_) => Ok(()),
        Err(_) => Err(Refused),
    }
}

/// Waits once. If it is refused it is asked for once more.
fn wait_or_again(core: &mut BenchRows) -> Result<(), Refused>
    requires { IsIdle round_robin_rows core.old }
    ensures { IsIdle round_robin_rows core.new }
{
    match wait(core) {
        Ok(done) => Ok(done),
        Err(Refused) => wait(core),
    }
}

/// Makes the next upcall, a volume handed over before if one is due, and tells whether there was
/// one.
fn serve(core: &mut BenchRows) -> Result<bool, Refused>
    requires { IsIdle round_robin_rows core.old }
    ensures { IsIdle round_robin_rows core.new }
{
    match hand_over(core) {
        Ok(_) => {}
        Err(_) => return Err(Refused),
    }
    match turn(core) {
        Ok(event) => Ok(event.is_some()),
        Err(_) => Err(Refused),
    }
}

/// Makes the next upcall, and tells whether there was one. If it is refused it is asked for once
/// more.
fn serve_or_again(core: &mut BenchRows) -> Result<bool, Refused>
    requires { IsIdle round_robin_rows core.old }
    ensures { IsIdle round_robin_rows core.new }
{
    match serve(core) {
        Ok(done) => Ok(done),
        Err(Refused) => serve(core),
    }
}

/// Serves all that waits, at most as many as there are for a wait, and tells how many there were.
fn serve_all(core: &mut BenchRows) -> Result<u64, Refused>
    requires { IsIdle round_robin_rows core.old }
    ensures { IsIdle round_robin_rows core.new }
{
    let mut served: u64 = 0;
    for _ in 0..EVENTS_OF_WAIT {
        if !serve_or_again(core)? {
            return Ok(served);
        }
        served = served.saturating_add(1);
    }
    Ok(served)
}

/// Waits so many times, each time for as many reports as a wait has, and serves them. It tells how
/// many there were.
pub fn serve_reports(core: &mut BenchRows, waits: u64) -> Result<u64, Refused>
    requires { IsIdle round_robin_rows core.old }
    ensures { IsIdle round_robin_rows core.new }
{
    let mut served: u64 = 0;
    for _ in 0..waits {
        wait_or_again(core)?;
        served = served.saturating_add(serve_all(core)?);
    }
    Ok(served)
}

/// Posts a notification.
fn post_one(core: &mut BenchRows, handle: Handle, seq: u64) -> Result<(), Refused>
    requires { IsIdle round_robin_rows core.old }
    ensures { IsIdle round_robin_rows core.new }
{
    match post(core, handle, Kind::Read, 0, seq) {
        Ok(()) => Ok(()),
        Err(_) => Err(Refused),
    }
}

/// Posts a notification. If it is refused it is asked for once more.
fn post_one_or_again(core: &mut BenchRows, handle: Handle, seq: u64) -> Result<(), Refused>
    requires { IsIdle round_robin_rows core.old }
    ensures { IsIdle round_robin_rows core.new }
{
    match post_one(core, handle, seq) {
        Ok(done) => Ok(done),
        Err(Refused) => post_one(core, handle, seq),
    }
}

/// The handle whose turn it is at this number.
fn in_turn(live: &[Handle], seq: u64) -> Option<Handle> {
    let place = seq.checked_rem(live.len() as u64)?;
    live.get(place as usize).copied()
}

/// Posts as many notifications as a wait may have reports, from this number on, to the handles in
/// turn.
fn post_all(core: &mut BenchRows, live: &[Handle], from: u64) -> Result<(), Refused>
    requires { IsIdle round_robin_rows core.old }
    ensures { IsIdle round_robin_rows core.new }
{
    for at in 0..EVENTS_OF_WAIT {
        let seq = from.saturating_add(at as u64);
        match in_turn(live, seq) {
            Some(handle) => post_one_or_again(core, handle, seq)?,
            None => return Ok(()),
        }
    }
    Ok(())
}

/// Waits so many times, each time with as many notifications as a wait may have reports, and serves
/// them. It tells how many there were.
pub fn serve_posts(core: &mut BenchRows, live: &[Handle], waits: u64) -> Result<u64, Refused>
    requires { IsIdle round_robin_rows core.old }
    ensures { IsIdle round_robin_rows core.new }
{
    let mut served: u64 = 0;
    for _ in 0..waits {
        post_all(core, live, served)?;
        wait_or_again(core)?;
        served = served.saturating_add(serve_all(core)?);
    }
    Ok(served)
}

/// Stops a reactor and takes it apart, and tells how many entries it had handed over and how many
/// it held.
pub fn entries_of(core: BenchRows) -> (u64, u64)
    requires { IsIdle round_robin_rows core }
{
    let Left {
        journal,
        first,
        net: _,
        timers: _,
        watch: _,
        volumes: _,
    } = close(core);
    (first, journal.len())
}

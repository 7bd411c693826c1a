//! Reactors of steady handlers, and their calls.
ghost use Rattle.std.specs.Prelude.{◌≤◌, IfOk, OnErr, Some};
ghost use Rattle.reactor_model.specs.Turns.{IsTimer};
ghost use Rattle.core_loop.specs.Idle.{IsIdle, IsOut, IsOutOrIdle, WasStopped};
ghost use Rattle.test_nets.specs.Idle.{AreOut, AreOutOrOne};

use crate::Steady;
use demux::PlayEnd;
use ev_base::{Handle, Kind, Mask, Net, NoMemory};
use reactor_core::laws::settled_later;
use reactor_core::{
    CancelRefused, Core, Done, HandOverRefused, LiveRefused, Means, NotLive, Parts, PollRefused,
    Polled, PostRefused, RegisterRefused, Settled, StartRefused, StateRefused,
};
use reactor_model::{NoWatch, Volumes};
use timer_queue::SortedTimers;

/// A reactor of steady handlers over a net and volumes.
pub type Rows<M, V> = Core<Steady, M, SortedTimers, NoWatch, V>;

/// What such a reactor leaves.
pub type Left<M, V> = Parts<u64, M, SortedTimers, NoWatch, V>;

/// Registers a handler with no timer.
pub fn register<M: Net<End = PlayEnd>, V: Volumes<u64>>(
    core: &mut Rows<M, V>,
    handler: Steady,
    mask: Mask,
) -> Result<Handle, (Steady, RegisterRefused)>
    requires { IsIdle ⟦<Rows<M, V> as Means>⟧.m core.old }
    ensures { IsIdle ⟦<Rows<M, V> as Means>⟧.m core.new }
{
    core.register(handler, mask, None)
}

/// Registers a handler with a timer: its first delay and its period.
pub fn register_timed<M: Net<End = PlayEnd>, V: Volumes<u64>>(
    core: &mut Rows<M, V>,
    handler: Steady,
    mask: Mask,
    timer: (u64, u64),
) -> Result<Handle, (Steady, RegisterRefused)>
    requires idle { IsIdle ⟦<Rows<M, V> as Means>⟧.m core.old }
    requires timer { IsTimer (Some timer) }
    ensures { IsIdle ⟦<Rows<M, V> as Means>⟧.m core.new }
{
    core.register(handler, mask, Some(timer))
}

/// Posts a notification.
pub fn post<M: Net<End = PlayEnd>, V: Volumes<u64>>(
    core: &mut Rows<M, V>,
    handle: Handle,
    kind: Kind,
    from: u64,
    seq: u64,
) -> Result<(), PostRefused>
    requires { IsIdle ⟦<Rows<M, V> as Means>⟧.m core.old }
    ensures { IsIdle ⟦<Rows<M, V> as Means>⟧.m core.new }
{
    core.post(handle, kind, from, seq)
}

/// Posts a notification, for which room is made before; a reactor that was stopped takes none.
pub fn post_in_room<M: Net<End = PlayEnd>, V: Volumes<u64>>(
    core: &mut Rows<M, V>,
    handle: Handle,
    kind: Kind,
    from: u64,
    seq: u64,
) -> Result<(), PostRefused>
    requires { IsIdle ⟦<Rows<M, V> as Means>⟧.m core.old }
    ensures { IsIdle ⟦<Rows<M, V> as Means>⟧.m core.new }
{
    if core.is_ended() {
        return Err(PostRefused::Stopped);
    }
    match core.reserve_post() {
        Ok(()) => {
            core.post_reserved(handle, kind, from, seq);
            Ok(())
        }
        Err(NoMemory) => Err(PostRefused::NoMemory),
    }
}

/// Starts the next upcall and makes it. It is to be settled.
pub fn start<M: Net<End = PlayEnd>, V: Volumes<u64>>(
    core: &mut Rows<M, V>,
) -> Result<Option<Done<Steady>>, StartRefused>
    requires { IsIdle ⟦<Rows<M, V> as Means>⟧.m core.old }
    ensures ok { IfOk result (λ done. IsOutOrIdle ⟦<Rows<M, V> as Means>⟧.m core.new done) }
    ensures err { OnErr result (IsIdle ⟦<Rows<M, V> as Means>⟧.m core.new) }
{
    match core.start() {
        Ok(Some(job)) => Ok(Some(job.run())),
        Ok(None) => Ok(None),
        Err(refused) => Err(refused),
    }
}

/// Settles the upcall that is on its way.
pub fn settle<M: Net<End = PlayEnd>, V: Volumes<u64>>(
    core: &mut Rows<M, V>,
    done: Done<Steady>,
) -> Settled
    requires { IsOut ⟦<Rows<M, V> as Means>⟧.m core.old done }
    ensures { IsIdle ⟦<Rows<M, V> as Means>⟧.m core.new }
{
    core.settle(done)
}

/// Starts the next upcall while one is on its way, and makes it.
pub fn start_meanwhile<M: Net<End = PlayEnd>, V: Volumes<u64>>(
    core: &mut Rows<M, V>,
    done: &Done<Steady>,
) -> Result<Option<Done<Steady>>, StartRefused>
    requires { IsOut ⟦<Rows<M, V> as Means>⟧.m core.old done.now }
    ensures ok { IfOk result
        (λ other. AreOutOrOne ⟦<Rows<M, V> as Means>⟧.m core.new done.entry.now other) }
    ensures err { OnErr result (IsOut ⟦<Rows<M, V> as Means>⟧.m core.new done.entry.now) }
{
    settled_later::<Steady>();
    match core.start() {
        Ok(Some(job)) => Ok(Some(job.run())),
        Ok(None) => Ok(None),
        Err(refused) => Err(refused),
    }
}

/// Settles one of two upcalls that are on their way.
pub fn settle_one<M: Net<End = PlayEnd>, V: Volumes<u64>>(
    core: &mut Rows<M, V>,
    done: Done<Steady>,
    other: &Done<Steady>,
) -> Settled
    requires { AreOut ⟦<Rows<M, V> as Means>⟧.m core.old done other.now }
    ensures { IsOut ⟦<Rows<M, V> as Means>⟧.m core.new other.entry.now }
{
    settled_later::<Steady>();
    core.settle(done)
}

/// Starts the next upcall, makes it and settles it, and gives the number of its event.
pub fn turn<M: Net<End = PlayEnd>, V: Volumes<u64>>(
    core: &mut Rows<M, V>,
) -> Result<Option<u64>, StartRefused>
    requires { IsIdle ⟦<Rows<M, V> as Means>⟧.m core.old }
    ensures { IsIdle ⟦<Rows<M, V> as Means>⟧.m core.new }
{
    match start(core) {
        Ok(Some(done)) => {
            let event = done.event();
            settle(core, done);
            Ok(Some(event))
        }
        Ok(None) => Ok(None),
        Err(refused) => Err(refused),
    }
}

/// Removes a handler while an upcall is on its way.
pub fn remove_meanwhile<M: Net<End = PlayEnd>, V: Volumes<u64>>(
    core: &mut Rows<M, V>,
    done: &Done<Steady>,
    handle: Handle,
) -> Result<(), NotLive>
    requires { IsOut ⟦<Rows<M, V> as Means>⟧.m core.old done.now }
    ensures { IsOut ⟦<Rows<M, V> as Means>⟧.m core.new done.entry.now }
{
    settled_later::<Steady>();
    core.remove(handle)
}

/// Takes a timer away while an upcall is on its way.
pub fn cancel_meanwhile<M: Net<End = PlayEnd>, V: Volumes<u64>>(
    core: &mut Rows<M, V>,
    done: &Done<Steady>,
    timer: u64,
) -> Result<(), CancelRefused>
    requires { IsOut ⟦<Rows<M, V> as Means>⟧.m core.old done.now }
    ensures { IsOut ⟦<Rows<M, V> as Means>⟧.m core.new done.entry.now }
{
    settled_later::<Steady>();
    core.cancel(timer)
}

/// Removes a handler.
pub fn remove<M: Net<End = PlayEnd>, V: Volumes<u64>>(
    core: &mut Rows<M, V>,
    handle: Handle,
) -> Result<(), NotLive>
    requires { IsIdle ⟦<Rows<M, V> as Means>⟧.m core.old }
    ensures { IsIdle ⟦<Rows<M, V> as Means>⟧.m core.new }
{
    core.remove(handle)
}

/// Stops the reactor.
pub fn stop<M: Net<End = PlayEnd>, V: Volumes<u64>>(core: &mut Rows<M, V>)
    requires { IsIdle ⟦<Rows<M, V> as Means>⟧.m core.old }
    ensures idle { IsIdle ⟦<Rows<M, V> as Means>⟧.m core.new }
    ensures over { WasStopped ⟦<Rows<M, V> as Means>⟧.m core.new }
{
    core.stop();
}

/// Takes a reactor apart, stopped first if it was not.
pub fn close<M: Net<End = PlayEnd>, V: Volumes<u64>>(core: Rows<M, V>) -> Left<M, V>
    requires { IsIdle ⟦<Rows<M, V> as Means>⟧.m core }
{
    let mut core = core;
    stop(&mut core);
    core.into_parts()
}

/// Waits once.
pub fn poll<M: Net<End = PlayEnd>, V: Volumes<u64>>(
    core: &mut Rows<M, V>,
) -> Result<Polled, PollRefused>
    requires { IsIdle ⟦<Rows<M, V> as Means>⟧.m core.old }
    ensures { IsIdle ⟦<Rows<M, V> as Means>⟧.m core.new }
{
    core.poll(None)
}

/// Sets a timer.
pub fn schedule<M: Net<End = PlayEnd>, V: Volumes<u64>>(
    core: &mut Rows<M, V>,
    handle: Handle,
    delay: u64,
    every: u64,
) -> Result<u64, LiveRefused>
    requires idle { IsIdle ⟦<Rows<M, V> as Means>⟧.m core.old }
    requires some { 1 ≤ delay }
    requires within { delay ≤ 4294967295 }
    requires period { every ≤ 4294967295 }
    ensures { IsIdle ⟦<Rows<M, V> as Means>⟧.m core.new }
{
    core.schedule(handle, delay, every)
}

/// Takes a timer away.
pub fn cancel<M: Net<End = PlayEnd>, V: Volumes<u64>>(
    core: &mut Rows<M, V>,
    timer: u64,
) -> Result<(), CancelRefused>
    requires { IsIdle ⟦<Rows<M, V> as Means>⟧.m core.old }
    ensures { IsIdle ⟦<Rows<M, V> as Means>⟧.m core.new }
{
    core.cancel(timer)
}

/// Suspends a handle.
pub fn suspend<M: Net<End = PlayEnd>, V: Volumes<u64>>(
    core: &mut Rows<M, V>,
    handle: Handle,
) -> Result<(), StateRefused>
    requires { IsIdle ⟦<Rows<M, V> as Means>⟧.m core.old }
    ensures { IsIdle ⟦<Rows<M, V> as Means>⟧.m core.new }
{
    core.suspend(handle)
}

/// Resumes a handle.
pub fn resume<M: Net<End = PlayEnd>, V: Volumes<u64>>(
    core: &mut Rows<M, V>,
    handle: Handle,
) -> Result<(), StateRefused>
    requires { IsIdle ⟦<Rows<M, V> as Means>⟧.m core.old }
    ensures { IsIdle ⟦<Rows<M, V> as Means>⟧.m core.new }
{
    core.resume(handle)
}

/// Changes the mask of a handle.
pub fn set_mask<M: Net<End = PlayEnd>, V: Volumes<u64>>(
    core: &mut Rows<M, V>,
    handle: Handle,
    mask: Mask,
) -> Result<(), LiveRefused>
    requires { IsIdle ⟦<Rows<M, V> as Means>⟧.m core.old }
    ensures { IsIdle ⟦<Rows<M, V> as Means>⟧.m core.new }
{
    core.set_mask(handle, mask)
}

/// Hands a volume over, if one is due.
pub fn hand_over<M: Net<End = PlayEnd>, V: Volumes<u64>>(
    core: &mut Rows<M, V>,
) -> Result<u64, HandOverRefused>
    requires { IsIdle ⟦<Rows<M, V> as Means>⟧.m core.old }
    ensures { IsIdle ⟦<Rows<M, V> as Means>⟧.m core.new }
{
    core.hand_over()
}

//! What ends a wait, and what fails.

use crate::asserts::assert_same;
use crate::courses::Course;
use crate::stand::Stand;
use crate::steps::{Step, take};
use demux_mio::{MioHost, MioWake};
use ev_base::{Kind, Mask, Wake};
use std::alloc::Global;
use std::sync::Arc;
use std::sync::atomic::{AtomicU64, Ordering};
use std::test::Fail;
use std::thread;
use std::thread::{Threads, yield_now};
use std::time::Duration;

// What a net and its ends may be handed to another thread, and a waker shared.
fn is_sent<T: Send>(_value: &T) {}

fn is_shared<T: Sync>(_value: &T) {}

/// How many milliseconds a wait without a report lasted.
fn lasted(stand: &mut Stand, most_ms: u64) -> Option<u64> {
    let before = stand.wait(Some(0))?;
    let now = stand.wait(Some(most_ms))?;
    if stand.reports().is_empty() {
        now.checked_sub(before)
    } else {
        None
    }
}

fn is_within(lasted: Option<u64>, least: u64, most: u64) -> bool {
    match lasted {
        Some(ms) => least <= ms && ms <= most,
        None => false,
    }
}

/// Woken before it begins, a wait ends at once. Both calls are spent with that.
fn is_woken_before(stand: &mut Stand, waker: &MioWake) -> bool {
    let is_quiet = stand.is_quiet(0);
    waker.wake();
    waker.wake();
    is_quiet && stand.ends_quietly(None) && is_within(lasted(stand, 60), 60, 9_000)
}

/// Woken meanwhile, a wait ends too.
fn is_woken_meanwhile(
    rt: &impl Threads,
    host: HostRuntime,
    stand: &mut Stand,
    waker: MioWake,
) -> Result<bool, Fail> {
    let child = thread::spawn(rt, move || wake_later(host, waker))?;
    let is_woken = is_within(lasted(stand, 50_000), 0, 40_000);
    child.join(rt);
    Ok(is_woken)
}

#[test]
fn a_wait_ends_with_its_limit_or_by_the_waker(rt: HostRuntime) -> Result<(), Fail> {
    let (mut stand, waker) = Stand::open(rt, rt.alloc())?;
    is_sent(&stand);
    is_shared(&waker);
    let is_watched = stand.watch();
    let lasts = is_within(lasted(&mut stand, 60), 60, 9_000);
    let is_woken_before = is_woken_before(&mut stand, &waker);
    let is_woken = is_woken_meanwhile(&rt, rt, &mut stand, waker);
    drop(stand);
    assert!(rt; is_watched && lasts && is_woken_before);
    assert!(rt; is_woken?);
    Ok(())
}

/// What was retired is closed by the closer or by the next wait.
#[test]
fn a_closer_closes_what_is_retired(rt: HostRuntime) -> Result<(), Fail> {
    let alloc = rt.alloc();
    let (mut stand, _) = Stand::listen(rt, alloc, MioHost::with_closer(rt, alloc))?;
    let mut room = [0; 100];
    let joined = stand.watch()
        && stand.join(Mask::READ)
        && stand.join(Mask::READ)
        && stand.join(Mask::READ);
    let retired = joined && stand.join(Mask::READ) && stand.retire(0) && stand.retire(1);
    let both = retired && stand.is_quiet(0);
    let both_closed = stand.receive(0, &mut room) == Some(0)
        && stand.receive(1, &mut room) == Some(0);
    let looked = stand.retire(2) && stand.is_quiet(0);
    let third_closed = stand.receive(2, &mut room) == Some(0);
    let waited = stand.retire(3) && stand.is_quiet(20);
    let last_closed = stand.receive(3, &mut room) == Some(0);
    drop(stand);
    assert!(rt; both && both_closed);
    assert!(rt; looked && third_closed);
    assert!(rt; waited && last_closed);
    Ok(())
}

/// Wakes after 40 milliseconds.
fn wake_later(rt: HostRuntime, waker: MioWake) {
    thread::sleep(&rt, Duration::from_millis(40));
    waker.wake();
}

#[test]
fn a_port_that_is_taken_fails(rt: HostRuntime) -> Result<(), Fail> {
    take(&rt, rt, &mut [], &[Step::Watch, Step::All(Course::Refuse)])
}

/// How many waits are woken about when they begin.
const WAKES: u64 = 300;

/// Wakes once for each wait that the other thread counts.
fn wake_at_each(begun: &AtomicU64, waker: &MioWake) -> u64 {
    let mut woken = 0;
    for _ in 0..100_000_000 {
        if woken == WAKES {
            break;
        }
        if begun.load(Ordering::SeqCst) > woken {
            waker.wake();
            woken += 1;
        } else {
            yield_now();
        }
    }
    woken
}

/// Makes one wait that is to be woken, and tells when it ended, if that was not by its limit of
/// 20 seconds.
fn woken(stand: &mut Stand, before: u64) -> Option<u64> {
    let now = stand.wait(Some(20_000))?;
    if now.saturating_sub(before) < 15_000 {
        Some(now)
    } else {
        None
    }
}

/// Makes the waits that are to be woken, each counted when it begins, and tells whether each was.
fn are_woken(stand: &mut Stand, begun: &AtomicU64) -> bool {
    let mut now = Some(0);
    for at in 0..WAKES {
        begun.store(at + 1, Ordering::SeqCst);
        now = match now {
            Some(before) => woken(stand, before),
            None => None,
        };
    }
    now.is_some()
}

/// How many wakes were called by another thread, and whether each wait was woken.
fn wakes(
    rt: &impl Threads,
    alloc: Global,
    stand: &mut Stand,
    waker: MioWake,
) -> Result<(u64, bool), Fail> {
    let begun = Arc::new(alloc, AtomicU64::new(0))?;
    let theirs = Arc::try_clone(&begun)?;
    let child = thread::spawn(rt, move || wake_at_each(&theirs, &waker))?;
    let are_woken = are_woken(stand, &begun);
    Ok((child.join(rt), are_woken))
}

#[test]
fn no_wake_is_lost(rt: HostRuntime) -> Result<(), Fail> {
    let (mut stand, waker) = Stand::open(rt, rt.alloc())?;
    let is_watched = stand.watch();
    let wakes = wakes(&rt, rt.alloc(), &mut stand, waker);
    drop(stand);
    assert!(rt; is_watched);
    assert_same(&rt, wakes?, (WAKES, true));
    Ok(())
}

/// The last steps are taken once descriptors are left again.
static OWED: &[Step] = &[
    Step::Watch,
    Step::Connect,
    Step::All(Course::Owe),
    Step::Sees(0, Kind::Read),
    Step::AcceptOne,
    Step::AcceptPauses,
    Step::Quiet(150),
];

#[test]
fn an_accept_without_a_descriptor_is_owed_again(rt: HostRuntime) -> Result<(), Fail> {
    take(&rt, rt, &mut [], OWED)
}

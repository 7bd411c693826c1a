//! Two writers that wait for each other: a body that lets one writer do all the work runs out of
//! turns.
ghost use Rattle.std.specs.Prelude.{◌≡◌};
ghost use Rattle.task_server.specs.Calls.{pool_id, putter_pool, taker_pool};

use crate::queue::item;
use pool_writers::{GivenItems, Seat, Service, Shared, Writer};
use std::alloc::Global;
use std::sync::atomic::{AtomicU64, Ordering};
use std::sync::{Arc, Wait};
use std::test::Fail;
use std::thread::{Threads, yield_now};
use task_server::{Item, Pool, Putter, Taker};

/// How many turns a writer waits for the other at most.
const TURNS: u64 = 100_000_000;

/// A flag of a writer.
type Flag = Arc<AtomicU64, Global>;

/// It raises its flag, and waits for the other's.
#[derive(Drop)]
struct Meeting {
    mine: Flag,
    other: Flag,
    met: bool,
    given: GivenItems,
}

impl Service for Meeting {
    ghost served = { λ meeting. meeting.given };

    fn serve<R: Wait>(&mut self, _rt: &R, item: Item) {
        self.given.add(&item);
        if meets(&self.mine, &self.other) {
            self.met = true;
        }
    }
}

// Raises a flag, and tells whether the other was raised before the turns ended.
fn meets(mine: &Flag, other: &Flag) -> bool {
    mine.store(1, Ordering::SeqCst);
    for _ in 0..TURNS {
        if other.load(Ordering::SeqCst) == 1 {
            return true;
        }
        yield_now();
    }
    false
}

// One that waits for the other flag.
fn service_of(mine: &Flag, other: &Flag) -> Result<Meeting, Fail> {
    Ok(Meeting {
        mine: Arc::try_clone(mine)?,
        other: Arc::try_clone(other)?,
        met: false,
        given: GivenItems::none(),
    })
}

// A writer on a thread of its own.
fn seat<R: Threads + Wait + Copy + Send + 'static>(
    rt: &R,
    shared: &Arc<Shared, Global>,
    taker: Taker<Item>,
    number: usize,
    service: Meeting,
) -> Result<Seat<Meeting>, Fail>
    requires { taker_pool taker ≡ pool_id shared.now.value.pool }
{
    let shared = Arc::try_clone(shared)?;
    let mut seat = Seat::Ready(Writer::new(shared, taker, number, service));
    seat.start(rt);
    Ok(seat)
}

// Puts the items of two events.
fn put_two<R: Wait>(
    rt: &R,
    alloc: Global,
    shared: &Shared,
    putter: &mut Putter<Item>,
) -> Result<(), Fail>
    requires { putter_pool putter.old ≡ pool_id shared.now.pool }
    ensures { putter_pool putter.new ≡ putter_pool putter.old }
{
    shared.put(rt, putter, item(alloc, 0)?);
    shared.ring();
    shared.put(rt, putter, item(alloc, 1)?);
    shared.ring();
    Ok(())
}

// Whether two writers of a pool that is given two items met.
fn meet<R: Threads + Wait + Copy + Send + 'static>(rt: &R, alloc: Global) -> Result<bool, Fail> {
    let one = Arc::new(alloc, AtomicU64::new(0))?;
    let other = Arc::new(alloc, AtomicU64::new(0))?;
    let (pool, mut putter, mut taker) = Pool::new(alloc)?;
    let shared = Arc::new(alloc, Shared::new(alloc, pool, 2)?)?;
    let second = shared.pool.split_taker(&mut taker)?;
    let first = seat(rt, &shared, taker, 0, service_of(&one, &other)?)?;
    let second = seat(rt, &shared, second, 1, service_of(&other, &one)?)?;
    put_two(rt, alloc, &shared, &mut putter)?;
    shared.end();
    let first = first.finish(rt);
    let second = second.finish(rt);
    Ok(first.is_some_and(|one| one.service.met) && second.is_some_and(|one| one.service.met))
}

#[test]
fn two_writers_meet(rt: HostRuntime) -> Result<(), Fail> {
    assert!(rt; meet(&rt, rt.alloc())?);
    Ok(())
}

//! The queue of a pool by itself: it is filled, and what is left of it comes in order.
ghost use Rattle.std.specs.Prelude.{◌≡◌};
ghost use Rattle.task_server.specs.Calls.{pool_id, put_log, putter_pool};

use cdr_record::{Bytes, LogRecord};
use std::alloc::Global;
use std::process::Abort;
use std::sync::Wait;
use std::test::Fail;
use task_server::{Found, Full, Item, Left, PLACES, Pool, Putter};

// The item of a record of a connection: the first of so many events.
pub(crate) fn item(alloc: Global, event: u64) -> Result<Item, Fail> {
    let mut text = Vec::new(alloc);
    text.extend_from_slice(b"hi")?;
    Ok(Item {
        conn: 0,
        event,
        index: 0,
        rec: LogRecord {
            kind: 4,
            pid: 7,
            sec: 1,
            usec: 2,
            text: Bytes::new(text),
        },
    })
}

// Puts so many items, and tells whether there was a place for each.
fn fill<R: Wait>(
    rt: &R,
    alloc: Global,
    pool: &Pool<Item>,
    putter: &mut Putter<Item>,
    count: u64,
) -> Result<bool, Fail>
    requires { putter_pool putter.old ≡ pool_id pool.now }
    ensures pool { putter_pool putter.new ≡ putter_pool putter.old }
    ensures shares { (put_log putter.new).shares ≡ (put_log putter.old).shares }
{
    let mut all = true;
    for event in 0..count {
        let put = pool.put(rt, putter, item(alloc, event)?);
        all = all && put.is_ok();
    }
    Ok(all)
}

// Whether the items of these events are left, in order.
fn are_left<R: Wait>(rt: &R, left: &mut Left<Item>, first: u64, end: u64) -> bool {
    let mut all = true;
    for event in first..end {
        let next = left.next(rt);
        all = all && next.is_some_and(|item| item.event == event);
    }
    all
}

// Whether a put found no place, and gave this event's item back.
fn is_refused(put: Result<(), (Item, Full)>, event: u64) -> bool {
    match put {
        Ok(()) => false,
        Err((item, Full)) => item.event == event && item.rec.text.as_slice() == b"hi".as_slice(),
    }
}

#[test]
fn what_a_full_pool_keeps_comes_in_order(rt: HostRuntime) -> Result<(), Fail> {
    let places = PLACES as u64;
    let (pool, mut putter, mut taker) = Pool::new(rt.alloc())?;
    assert!(rt; pool.take(&rt, &mut taker).is_none());
    assert!(rt; taker.tries == 1 && taker.found == Found::Refused);
    assert!(rt; fill(&rt, rt.alloc(), &pool, &mut putter, places)?);
    assert!(rt; putter.tries == places && putter.found == Found::Moved);
    let more = item(rt.alloc(), places)?;
    assert!(rt; is_refused(pool.put(&rt, &mut putter, more), places));
    assert!(rt; putter.tries == places + 1 && putter.found == Found::Refused);
    let first = pool.take(&rt, &mut taker);
    assert!(rt; first.is_some_and(|item| item.event == 0));
    let mut left = pool.close(putter, taker);
    assert!(rt; are_left(&rt, &mut left, 1, places));
    assert!(rt; left.next(&rt).is_none());
    Ok(())
}

use super::*;
use crate::asserts::assert_same_in;
use std::alloc::{AllocError, Global};
use std::process::Abort;
use std::test::Fail;
use timer_heap::HeapTimers;
use timer_queue::SortedTimers;
use timer_wheel::WheelTimers;

// Timers in any order, each call of which looks at all of them.
#[derive(Drop)]
struct PlainTimers {
    timers: Vec<Timer>,
}

impl PlainTimers {
    fn take(&mut self, number: u64) -> bool {
        let held = self.timers.len();
        self.timers.retain(|t| t.timer != number);
        self.timers.len() < held
    }

    fn first(&self) -> Option<(u64, u64)> {
        let mut first = None;
        for t in &self.timers {
            let key = (t.deadline, t.timer);
            first = match first {
                Some(least) if least <= key => Some(least),
                _ => Some(key),
            };
        }
        first
    }

    fn find(&self, number: u64) -> Option<Timer> {
        for t in &self.timers {
            if t.timer == number {
                return Some(*t);
            }
        }
        None
    }

    fn reply_to(&mut self, call: Call) -> Result<Reply, AllocError> {
        match call {
            Call::Schedule(t) => {
                let was_there = self.take(t.timer);
                self.timers.push(t)?;
                Ok(Reply::WasThere(was_there))
            }
            Call::Cancel(timer) => Ok(Reply::WasThere(self.take(timer))),
            Call::CancelAll(handle) => {
                self.timers.retain(|t| t.handle != handle);
                Ok(Reply::Done)
            }
            Call::Earliest => Ok(Reply::Deadline(self.first().map(|key| key.0))),
            Call::PopDue(now) => {
                let Some((deadline, number)) = self.first() else {
                    return Ok(Reply::Due(None));
                };
                if deadline > now {
                    return Ok(Reply::Due(None));
                }
                let due = self.find(number);
                self.take(number);
                Ok(Reply::Due(due))
            }
        }
    }
}

// The next of a sequence of numbers that look random (the linear congruence of Knuth's MMIX).
fn next(seed: &mut u64) -> u64 {
    *seed = seed
        .wrapping_mul(6_364_136_223_846_793_005)
        .wrapping_add(1_442_695_040_888_963_407);
    *seed >> 33
}

fn call_of(seed: &mut u64) -> Call {
    let kind = next(seed) % 16;
    let number = next(seed) % 48;
    let moment = next(seed) % 300;
    let handle = Handle(next(seed) % 12);
    match kind {
        0..=7 => Call::Schedule(Timer {
            deadline: moment,
            timer: number,
            handle,
            every: 0,
        }),
        8..=9 => Call::Cancel(number),
        10 => Call::CancelAll(handle),
        11..=12 => Call::Earliest,
        _ => Call::PopDue(moment / 2),
    }
}

// The turn of so many calls that is not answered as plain timers answer it, if one is not.
fn differing_turn<Q: TimerQueue>(
    plain: &mut PlainTimers,
    queue: &mut Q,
) -> Result<Option<u32>, Fail> {
    let mut seed = 7;
    for turn in 0..4000 {
        let call = call_of(&mut seed);
        let want = plain.reply_to(call)?;
        if reply_to(queue, call)? != want {
            return Ok(Some(turn));
        }
    }
    Ok(None)
}

// The same of a queue that is let go.
fn differs<Q: TimerQueue + Drop>(alloc: Global, queue: Q) -> Result<Option<u32>, Fail> {
    let mut plain = PlainTimers {
        timers: Vec::new(alloc),
    };
    let mut queue = queue;
    differing_turn(&mut plain, &mut queue)
}

// A queue of this name is answered as plain timers are.
fn agrees(rt: &impl Abort, name: &str, differs: Result<Option<u32>, Fail>) -> Result<(), Fail> {
    assert_same_in(rt, name, differs?, None);
    Ok(())
}

#[test]
fn queues_answer_as_plain_timers(rt: HostRuntime) -> Result<(), Fail> {
    let alloc = rt.alloc();
    agrees(&rt, "list", differs(alloc, SortedTimers::new(alloc)))?;
    agrees(&rt, "heap", differs(alloc, HeapTimers::new(alloc)))?;
    let eight = WheelTimers::<8>::new(alloc, 5)?;
    agrees(&rt, "wheel of eight spokes", differs(alloc, eight))?;
    let one = WheelTimers::<1>::new(alloc, 1)?;
    agrees(&rt, "wheel of one spoke", differs(alloc, one))
}

ghost use Rattle.std.specs.Prelude.{◌≡◌, []};

use chosen_timers::ChosenTimers;
use cmd_line::Timers;
use ev_base::{Handle, NoMemory};
use std::alloc::Global;
use std::test::Fail;
use timer_heap::HeapTimers;
use timer_queue::{SortedTimers, Timer, TimerQueue};
use timer_wheel::WheelTimers;

fn timer(deadline: u64, timer: u64, handle: u64) -> Timer
    ensures { result.timer ≡ timer }
{
    Timer {
        deadline,
        timer,
        handle: Handle(handle),
        every: 0,
    }
}

// Three timers, of which two have one deadline.
fn schedule_three<Q: TimerQueue>(queue: &mut Q) -> Result<(), NoMemory>
    requires { Q.timers queue.old ≡ [] }
{
    queue.reserve(3)?;
    queue.schedule(timer(5, 0, 7));
    queue.schedule(timer(3, 1, 8));
    queue.schedule(timer(5, 2, 7));
    Ok(())
}

// Whether they leave in order, and leave nothing behind.
fn leave_in_order<Q: TimerQueue>(queue: &mut Q) -> bool {
    let mut is_right = queue.pop_due(4) == Some(timer(3, 1, 8));
    is_right &= queue.pop_due(4) == None;
    is_right &= queue.earliest() == Some(5);
    is_right &= queue.pop_due(5) == Some(timer(5, 0, 7));
    is_right &= queue.pop_due(5) == Some(timer(5, 2, 7));
    is_right &= queue.pop_due(5) == None;
    is_right & (queue.earliest() == None)
}

// Whether three timers leave a queue in order. It may move to another thread.
fn is_in_order<Q: TimerQueue + Send + Drop>(queue: Q) -> Result<bool, NoMemory>
    requires { Q.timers queue ≡ [] }
{
    let mut queue = queue;
    schedule_three(&mut queue)?;
    Ok(leave_in_order(&mut queue))
}

#[test]
fn timers_of_one_deadline_leave_by_number(rt: HostRuntime) -> Result<(), Fail> {
    let alloc = rt.alloc();
    assert!(rt; is_in_order(SortedTimers::new(alloc))?, "sorted");
    assert!(rt; is_in_order(HeapTimers::new(alloc))?, "heap");
    assert!(rt;
        is_in_order(WheelTimers::<4>::new(alloc, 2)?)?,
        "four spokes"
    );
    assert!(rt; is_in_order(WheelTimers::<1>::new(alloc, 1)?)?, "one spoke");
    for kind in [Timers::List, Timers::Heap, Timers::Wheel] {
        assert!(rt; is_in_order(ChosenTimers::new(alloc, kind)?)?, "chosen");
    }
    Ok(())
}

// Whether three timers leave a queue when they are cancelled.
fn is_cancelled(queue: &mut SortedTimers) -> bool {
    let first = queue.cancel(1);
    let again = queue.cancel(1);
    queue.cancel_all(Handle(7));
    first && !again && queue.earliest() == None
}

// The same of a list of its own.
fn are_cancelled(alloc: Global) -> Result<bool, NoMemory> {
    let mut queue = SortedTimers::new(alloc);
    schedule_three(&mut queue)?;
    Ok(is_cancelled(&mut queue))
}

#[test]
fn cancelled_timers_do_not_leave(rt: HostRuntime) -> Result<(), Fail> {
    assert!(rt; are_cancelled(rt.alloc())?);
    Ok(())
}
// Puts four timers into a heap.
fn insert_four(queue: &mut HeapTimers) -> Result<(), NoMemory>
    requires { ⟦<HeapTimers as TimerQueue>⟧.timers queue.old ≡ [] }
{
    queue.reserve(4)?;
    queue.insert(timer(2, 0, 7));
    queue.insert(timer(3, 1, 7));
    queue.insert(timer(4, 2, 7));
    queue.insert(timer(1, 3, 7));
    Ok(())
}

// Whether the earliest of them stands in the first slot.
fn is_risen(queue: &HeapTimers) -> bool {
    let slots = [
        timer(1, 3, 7),
        timer(2, 0, 7),
        timer(4, 2, 7),
        timer(3, 1, 7),
    ];
    queue.slots() == slots.as_slice()
}

// Whether they leave the heap when they are cancelled.
fn leave_slots(queue: &mut HeapTimers) -> bool {
    let first = queue.cancel(0);
    let again = queue.cancel(0);
    let earliest = queue.earliest();
    queue.cancel_all(Handle(7));
    first && !again && earliest == Some(1) && queue.earliest() == None
}

// Whether four timers rise in a heap, and leave it.
fn are_in_slots(alloc: Global) -> Result<(bool, bool), NoMemory> {
    let mut queue = HeapTimers::new(alloc);
    insert_four(&mut queue)?;
    let is_risen = is_risen(&queue);
    Ok((is_risen, leave_slots(&mut queue)))
}

#[test]
fn the_earliest_rises_to_the_first_slot(rt: HostRuntime) -> Result<(), Fail> {
    let (is_risen, leave) = are_in_slots(rt.alloc())?;
    assert!(rt; is_risen, "the earliest is not in the first slot");
    assert!(rt; leave, "they do not leave their slots");
    Ok(())
}

// The numbers of the timers of a chain.
fn chain<const SPOKES: usize>(wheel: &WheelTimers<SPOKES>, spoke: usize) -> (u64, u64, u64) {
    let mut numbers = [99, 99, 99];
    let mut at = wheel.heads().get(spoke).copied().flatten();
    for number in numbers.iter_mut() {
        let Some(place) = at.and_then(|k| wheel.places().get(k).copied()) else {
            break;
        };
        *number = place.timer.timer;
        at = place.next;
    }
    (numbers[0], numbers[1], numbers[2])
}

// Whether three timers stand in the spokes of their ticks.
fn stand_in_spokes(wheel: &WheelTimers<4>) -> bool {
    wheel.heads().len() == 4
        && chain(wheel, 0) == (99, 99, 99)
        && chain(wheel, 1) == (1, 99, 99)
        && chain(wheel, 2) == (0, 2, 99)
        && chain(wheel, 3) == (99, 99, 99)
}

// Whether they leave their spokes when they are cancelled.
fn leave_spokes(wheel: &mut WheelTimers<4>) -> bool {
    let first = wheel.cancel(0);
    let again = wheel.cancel(0);
    let left = chain(wheel, 2);
    wheel.cancel_all(Handle(7));
    first && !again && left == (2, 99, 99) && wheel.earliest() == Some(3)
}

// Whether three timers stand in the spokes of a wheel, and leave them.
fn are_in_spokes(alloc: Global) -> Result<(bool, bool), NoMemory> {
    let mut wheel = WheelTimers::<4>::new(alloc, 2)?;
    schedule_three(&mut wheel)?;
    let stand = stand_in_spokes(&wheel);
    Ok((stand, leave_spokes(&mut wheel)))
}

#[test]
fn a_timer_stands_in_the_spoke_of_its_tick(rt: HostRuntime) -> Result<(), Fail> {
    let (stand, leave) = are_in_spokes(rt.alloc())?;
    assert!(rt; stand, "they do not stand in their spokes");
    assert!(rt; leave, "they do not leave their spokes");
    Ok(())
}

//! The queue that keeps the timers of a reactor, chosen as it runs.
#![tactic(auto)]

ghost use Rattle.std.specs.Prelude.{◌≡◌, [], Some, IfOk};
ghost use Rattle.chosen_timers.specs.Chosen.{kind_of, resolution_of, timers_of};

use cmd_line::Timers;
use ev_types::{Handle, NoMemory};
use std::alloc::Global;
use timer_heap::HeapTimers;
use timer_queue::{SortedTimers, Timer, TimerQueue};
use timer_wheel::WheelTimers;

/// The milliseconds of a tick of the wheel.
const RESOLUTION: u64 = 100;

/// A timer queue of one of the three kinds. What it answers depends on its timers alone, whichever
/// it is.
#[derive(Drop)]
pub enum ChosenTimers {
    /// A sorted list.
    List(SortedTimers),
    /// A binary heap.
    Heap(HeapTimers),
    /// A wheel of 256 spokes.
    Wheel(WheelTimers<256>),
}

impl ChosenTimers {
    /// An empty timer queue of this kind. A tick of the wheel is 100 milliseconds.
    pub fn new(alloc: Global, kind: Timers) -> Result<ChosenTimers, NoMemory>
        ensures kind { IfOk result (λ queue. kind_of queue ≡ kind) }
        ensures timers { IfOk result (λ queue. timers_of queue ≡ []) }
        ensures resolution { IfOk result (λ queue. kind ≡ Timers.Wheel
            → resolution_of queue ≡ Some 100) }
    {
        match kind {
            Timers::List => Ok(ChosenTimers::List(SortedTimers::new(alloc))),
            Timers::Heap => Ok(ChosenTimers::Heap(HeapTimers::new(alloc))),
            Timers::Wheel => Ok(ChosenTimers::Wheel(WheelTimers::new(alloc, RESOLUTION)?)),
        }
    }
}

impl TimerQueue for ChosenTimers {
    ghost use Rattle.chosen_timers.specs.Chosen.{timers_of, spare_of};

    ghost timers = { λ q. timers_of q };

    ghost spare = { λ q. spare_of q };

    fn reserve(&mut self, n: usize) -> Result<(), NoMemory> {
        match self {
            ChosenTimers::List(queue) => queue.reserve(n),
            ChosenTimers::Heap(queue) => queue.reserve(n),
            ChosenTimers::Wheel(queue) => queue.reserve(n),
        }
    }

    fn schedule(&mut self, t: Timer) {
        match self {
            ChosenTimers::List(queue) => queue.schedule(t),
            ChosenTimers::Heap(queue) => queue.schedule(t),
            ChosenTimers::Wheel(queue) => queue.schedule(t),
        }
    }

    fn cancel(&mut self, timer: u64) -> bool {
        match self {
            ChosenTimers::List(queue) => queue.cancel(timer),
            ChosenTimers::Heap(queue) => queue.cancel(timer),
            ChosenTimers::Wheel(queue) => queue.cancel(timer),
        }
    }

    fn cancel_all(&mut self, handle: Handle) {
        match self {
            ChosenTimers::List(queue) => queue.cancel_all(handle),
            ChosenTimers::Heap(queue) => queue.cancel_all(handle),
            ChosenTimers::Wheel(queue) => queue.cancel_all(handle),
        }
    }

    fn earliest(&self) -> Option<u64> {
        match self {
            ChosenTimers::List(queue) => queue.earliest(),
            ChosenTimers::Heap(queue) => queue.earliest(),
            ChosenTimers::Wheel(queue) => queue.earliest(),
        }
    }

    fn pop_due(&mut self, now: u64) -> Option<Timer> {
        match self {
            ChosenTimers::List(queue) => queue.pop_due(now),
            ChosenTimers::Heap(queue) => queue.pop_due(now),
            ChosenTimers::Wheel(queue) => queue.pop_due(now),
        }
    }
}

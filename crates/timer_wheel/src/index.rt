//! The index of a wheel: the deadlines of its timers by their numbers. A deadline leads to the
//! chain that its timer stands in, and stays right wherever the timer moves.
ghost use Rattle.std.specs.Prelude.{◌≡◌, ◌≤◌, ◌<◌, false, length, vec_len, vec_capacity, Contains};
ghost use Rattle.timer_queue.specs.Timers.{is_scheduled, AreApart};
ghost use Rattle.timer_index.specs.Index.{IsRising};
ghost use Rattle.timer_wheel.specs.Spokes.{timers_of};
ghost use Rattle.timer_wheel.specs.Index.{entry_of_timer, Covers};

use crate::Place;
use timer_index::{Numbered, put, sort};
use timer_queue::Timer;

// The entry of a timer.
fn entry_of_timer(t: &Timer) -> Numbered
    ensures { result ≡ entry_of_timer t.now }
{
    Numbered {
        timer: t.timer,
        key: t.deadline,
    }
}

// Makes the index anew, of the timers that are there.
fn renew(index: &mut Vec<Numbered>, places: &[Place])
    requires apart { AreApart (timers_of places.now) }
    requires room { length places.now ≤ vec_capacity index.old }
    ensures rising { IsRising index.new.items }
    ensures covers { Covers index.new.items (timers_of places.now) }
    ensures len { vec_len index.new ≡ length places.now }
    ensures capacity { vec_capacity index.new ≡ vec_capacity index.old }
{
    index.clear();
    for place in places {
        index.push_reserved(entry_of_timer(&place.timer));
    }
    sort(index);
}

// Enters one timer more. If there is no room, the entries of timers that left are forgotten.
pub fn enter(index: &mut Vec<Numbered>, places: &[Place], t: &Timer)
    requires rising { IsRising index.old.items }
    requires covers { Covers index.old.items (timers_of places.now) }
    requires apart { AreApart (timers_of places.now) }
    requires fresh { is_scheduled t.now.timer (timers_of places.now) ≡ false }
    requires room { length places.now < vec_capacity index.old }
    ensures rising { IsRising index.new.items }
    ensures covers { Covers index.new.items (timers_of places.now) }
    ensures there { Contains index.new.items (entry_of_timer t.now) }
    ensures capacity { vec_capacity index.old ≤ vec_capacity index.new }
{
    if index.len() >= index.capacity() {
        renew(index, places);
    }
    put(index, entry_of_timer(t));
}

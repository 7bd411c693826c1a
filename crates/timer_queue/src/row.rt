//! A sorted row of timers.
ghost use Rattle.std.specs.Prelude.{◌≡◌, ◌+◌, ◌-◌, ◌<◌, ◌≤◌, [], true, false, length, ◌∷◌, ◌++◌};
ghost use Rattle.std.specs.Prelude.{IfSome, IfNone, OnSome, drop, insert, remove, slice_get};
ghost use Rattle.std.specs.Prelude.{vec_len, vec_capacity};
ghost use Rattle.std.specs.List.{AllWithin, list_all};
ghost use Rattle.timer_queue.specs.Timers.{comes_before, is_rising, with_timer, IsSchedule};
ghost use Rattle.timer_queue.specs.Sorted.{Found};

use crate::{Timer, TimerQueue};
use ev_types::{Handle, NoMemory};
use std::alloc::Global;
use std::marker::Model;

/// A timer queue that is one sorted row: a place is found by bisection, and what stands after it
/// moves. A timer that comes due last is put in, and the first taken out, without moving any other.
#[derive(Drop)]
pub struct Row {
    // From `head` on in rising order of (deadline, timer). Those before it have been taken out.
    timers: Vec<Timer>,
    head: usize,
    // How many timers fit. There are places for twice as many, so that those of timers taken out
    // are seldom closed up.
    room: usize,
}

impl Model for Row {
    ghost use Rattle.std.specs.Prelude.{◌≡◌, ◌-◌, drop, length, vec_capacity};
    ghost use Rattle.timer_queue.specs.Sorted.{IsSorted};
    ghost use Rattle.timer_queue.specs.Content.{Content};

    ghost Value = { Content };

    ghost view = { λ q. record {
      timers = drop q.head q.timers.items;
      spare = q.room - (length q.timers.items - q.head);
    } };

    ghost invariant = { λ q. IsSorted q.timers.items q.head q.room (vec_capacity q.timers) };
}

impl Row {
    /// An empty row, which holds no memory.
    pub fn new(alloc: Global) -> Row
        ensures timers { result.timers ≡ [] }
        ensures spare { result.spare ≡ 0 }
    {
        Row {
            timers: Vec::new(alloc),
            head: 0,
            room: 0,
        }
    }

    /// Takes the first timer out.
    pub fn take_first(&mut self) -> Option<Timer>
        ensures taken { IfSome result (λ t. self.old.timers ≡ t ∷ self.new.timers) }
        ensures spare { OnSome result (self.new.spare ≡ self.old.spare + 1) }
        ensures none { IfNone result (self.old.timers ≡ []) }
        ensures unchanged { IfNone result (self.new ≡ self.old) }
    {
        let first = *self.timers.get(self.head)?;
        self.head += 1;
        Some(first)
    }

    /// How many timers there are.
    pub fn len(&self) -> usize
        ensures { result ≡ length self.now.timers }
    {
        self.timers.len() - self.head
    }

    /// How many more fit.
    pub fn spare(&self) -> usize
        ensures { result ≡ self.now.spare }
    {
        self.room - (self.timers.len() - self.head)
    }

    /// The first timer.
    pub fn first(&self) -> Option<Timer>
        ensures { result ≡ slice_get self.now.timers 0 }
    {
        self.timers.get(self.head).copied()
    }

    /// Takes those out that this timer does not come before, and puts them after the timers of
    /// another row.
    pub fn pass_before(&mut self, t: &Timer, to: &mut Row)
        requires order { IsSchedule (to.old.timers ++ self.old.timers) }
        requires room { length self.old.timers ≤ to.old.spare }
        ensures timers { to.new.timers ++ self.new.timers ≡ to.old.timers ++ self.old.timers }
        ensures behind { list_all (λ u. comes_before t.now u) self.new.timers ≡ true }
        ensures spare { self.new.spare + length self.new.timers
            ≡ self.old.spare + length self.old.timers }
        ensures spare_there { to.new.spare + length to.new.timers
            ≡ to.old.spare + length to.old.timers }
    {
        let end = self.head + count_before(&self.timers[self.head..], t);
        to.append(&self.timers[self.head..end]);
        self.head = end;
    }

    /// Takes all timers out, and puts them after the timers of another row.
    pub fn pass_all(&mut self, to: &mut Row)
        requires order { IsSchedule (to.old.timers ++ self.old.timers) }
        requires room { length self.old.timers ≤ to.old.spare }
        ensures timers { to.new.timers ≡ to.old.timers ++ self.old.timers }
        ensures empty { self.new.timers ≡ [] }
        ensures spare { self.new.spare ≡ self.old.spare + length self.old.timers }
        ensures spare_there { to.new.spare + length to.new.timers
            ≡ to.old.spare + length to.old.timers }
    {
        to.append(&self.timers[self.head..]);
        self.timers.clear();
        self.head = 0;
    }

    // Puts these after its timers.
    fn append(&mut self, run: &[Timer])
        requires order { IsSchedule (self.old.timers ++ run.now) }
        requires room { length run.now ≤ self.old.spare }
        ensures timers { self.new.timers ≡ self.old.timers ++ run.now }
        ensures spare { self.new.spare + length run.now ≡ self.old.spare }
    {
        self.head = make_places(&mut self.timers, self.head, run.len());
        match self.timers.extend_from_slice(run) {
            Ok(()) => {}
            Err(_) => unreachable!(),
        }
    }
}

impl TimerQueue for Row {
    ghost timers = { λ q. q.timers };

    ghost spare = { λ q. q.spare };

    fn reserve(&mut self, n: usize) -> Result<(), NoMemory> {
        let held = self.timers.len() - self.head;
        if n <= self.room - held {
            return Ok(());
        }
        let Some(end) = held.checked_add(n) else {
            return Err(NoMemory);
        };
        let Some(places) = end.checked_mul(2) else {
            return Err(NoMemory);
        };
        close_up(&mut self.timers, self.head);
        self.head = 0;
        self.timers.reserve(places - held)?;
        self.room = self.timers.capacity() / 2;
        Ok(())
    }

    fn schedule(&mut self, t: Timer) {
        if self.timers.len() >= self.timers.capacity() {
            close_up(&mut self.timers, self.head);
            self.head = 0;
        }
        put_in(&mut self.timers, self.head, t);
    }

    fn cancel(&mut self, timer: u64) -> bool {
        let Some(place) = position_of(&self.timers[self.head..], timer) else {
            return false;
        };
        self.head = take_at(&mut self.timers, self.head, place);
        true
    }

    fn cancel_all(&mut self, handle: Handle) {
        close_up(&mut self.timers, self.head);
        self.head = 0;
        self.timers.retain(|t| t.handle.0 != handle.0);
    }

    fn earliest(&self) -> Option<u64> {
        self.timers.get(self.head).map(|t| t.deadline)
    }

    fn pop_due(&mut self, now: u64) -> Option<Timer> {
        let t = *self.timers.get(self.head)?;
        if now < t.deadline {
            return None;
        }
        self.head += 1;
        Some(t)
    }
}

// Takes the first places away.
fn close_up(timers: &mut Vec<Timer>, head: usize)
    requires { head ≤ length timers.old.items }
    ensures items { timers.new.items ≡ drop head timers.old.items }
    ensures capacity { vec_capacity timers.new ≡ vec_capacity timers.old }
{
    let held = timers.len() - head;
    timers.rotate_left(head);
    timers.truncate(held);
}

// Makes so many places after the timers from `head` on. The answer is where these begin.
fn make_places(timers: &mut Vec<Timer>, head: usize, count: usize) -> usize
    requires within { head ≤ length timers.old.items }
    requires room { length timers.old.items - head + count ≤ vec_capacity timers.old }
    ensures items { drop result timers.new.items ≡ drop head timers.old.items }
    ensures within { result ≤ length timers.new.items }
    ensures places { length timers.new.items + count ≤ vec_capacity timers.new }
    ensures capacity { vec_capacity timers.new ≡ vec_capacity timers.old }
{
    if count <= timers.capacity() - timers.len() {
        return head;
    }
    close_up(timers, head);
    0
}

// How many of these a timer does not come before.
fn count_before(timers: &[Timer], t: &Timer) -> usize
    requires { is_rising timers.now ≡ true }
    ensures within { result ≤ length timers.now }
    ensures front { AllWithin (λ u. comes_before t.now u ≡ false) timers.now 0 result }
    ensures back { AllWithin (λ u. comes_before t.now u ≡ true) timers.now result
        (length timers.now) }
{
    timers.partition_point(|u| !t.comes_before(u))
}

// Where a timer stands among these.
fn place_for(timers: &[Timer], t: &Timer) -> usize
    requires { is_rising timers.now ≡ true }
    ensures within { result ≤ length timers.now }
    ensures place { insert timers.now result t.now ≡ with_timer t.now timers.now }
{
    let Some(last) = timers.last() else {
        return 0;
    };
    if t.comes_before(last) {
        return count_before(timers, t);
    }
    timers.len()
}

// Puts a timer in among those from `head` on.
fn put_in(timers: &mut Vec<Timer>, head: usize, t: Timer)
    requires room { vec_len timers.old < vec_capacity timers.old }
    requires within { head ≤ length timers.old.items }
    requires rising { is_rising (drop head timers.old.items) ≡ true }
    ensures items { drop head timers.new.items ≡ with_timer t (drop head timers.old.items) }
    ensures len { length timers.new.items ≡ length timers.old.items + 1 }
    ensures capacity { vec_capacity timers.new ≡ vec_capacity timers.old }
{
    let place = place_for(&timers[head..], &t);
    match timers.insert(head + place, t) {
        Ok(()) => {}
        Err(_) => unreachable!(),
    }
}

// The place of the timer of this number.
fn position_of(timers: &[Timer], timer: u64) -> Option<usize>
    ensures { Found timer timers.now result }
{
    timers.iter().position(|t| t.timer == timer)
}

// Moves those before a place back by one, over the timer that stands there.
fn pull_back(timers: &mut [Timer], head: usize, place: usize)
    requires { head + place < length timers.old }
    ensures { drop (head + 1) timers.new ≡ remove (drop head timers.old) place }
{
    timers[head..head + place + 1].rotate_right(1);
}

// Takes the timer at a place from `head` on out, and moves the fewer of those before it and those
// after it. The answer is where the rest begins.
fn take_at(timers: &mut Vec<Timer>, head: usize, place: usize) -> usize
    requires { head + place < length timers.old.items }
    ensures items { drop result timers.new.items ≡ remove (drop head timers.old.items) place }
    ensures within { result ≤ length timers.new.items }
    ensures len { length timers.new.items - result + 1 ≡ length timers.old.items - head }
    ensures capacity { vec_capacity timers.new ≡ vec_capacity timers.old }
{
    if place < (timers.len() - head) / 2 {
        pull_back(timers, head, place);
        return head + 1;
    }
    timers.remove(head + place);
    head
}

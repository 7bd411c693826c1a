//! The armed timers: a timer queue, and beside it the handle of each timer by its number.

ghost use Rattle.std.specs.Prelude.{◌≡◌, ◌≤◌, ◌<◌, ◌+◌, ◌-◌, ◌==◌, ◌^◌, ℕ, Bool, not, true, false};
ghost use Rattle.std.specs.Prelude.{[], length, map, filter, vec_capacity, OnOk, IsOk, Some};
ghost use Rattle.std.specs.Prelude.{IfSome, IfNone, MatchOption, if◌then◌else◌};
ghost use Rattle.std.specs.List.{list_any, find, HoldsAt, AllWithin};
ghost use Rattle.std.specs.Option.{option_map};
ghost use Rattle.timer_queue.specs.Timers.{is_scheduled};
ghost use Rattle.reactor_summary.specs.reactor_journal.specs.Past.{count, next_deadline};
ghost use Rattle.reactor_summary.specs.Summary as S;
ghost use Rattle.reactor_state.specs.Rises.{RisesIn};
ghost use Rattle.reactor_state.specs.Sound.{IsReached, is_due_of};
ghost use Rattle.reactor_state.specs.Tables.{timer_of, armed_of, first_armed_deadline, IsOnce};
ghost use Rattle.reactor_state.specs.Tables.{HasArmed};
ghost use Rattle.reactor_state.specs.Tables.{TellsArmed, TakesArmedTo, HasTimerRoom};
ghost use Rattle.reactor_state.specs.Tables.{KeepsTimerRoom};

use ev_types::{Handle, NoMemory};
use reactor_summary::DueTimer;
use std::alloc::Global;
use timer_queue::{Timer, TimerQueue};

/// An armed timer's number, and the handle whose event handler is called.
#[derive(Clone, Copy)]
pub struct Owner {
    pub timer: u64,
    pub handle: Handle,
}

/// The armed timers.
#[derive(Drop)]
pub struct Armed<Q> {
    pub timers: Q,
    // In rising order of the timers' numbers.
    pub owners: Vec<Owner>,
}

/// The place of the first owner whose timer is not below this one.
fn owner_from(owners: &[Owner], timer: u64) -> usize
    ensures bound { result ≤ length owners.now }
    ensures below { (hi : ℕ) → RisesIn timer_of 0 hi owners.now
        → AllWithin (λ o. o.timer < timer) owners.now 0 result }
    ensures above { (hi : ℕ) → RisesIn timer_of 0 hi owners.now
        → AllWithin (λ o. timer ≤ o.timer) owners.now result (length owners.now) }
{
    owners.partition_point(|o| o.timer < timer)
}

/// The place of the timer's owner.
fn owner_of(owners: &[Owner], timer: u64) -> Option<usize>
    ensures { MatchOption result ((hi : ℕ) → RisesIn timer_of 0 hi owners.now
        → list_any (λ o. o.timer == timer) owners.now ≡ false)
        (λ place. (place < length owners.now) × HoldsAt (λ o. o.timer ≡ timer) owners.now place) }
{
    let place = owner_from(owners, timer);
    if place < owners.len() && owners[place].timer == timer {
        Some(place)
    } else {
        None
    }
}

/// Adds an owner at its place.
fn put(owners: &mut Vec<Owner>, owner: Owner)
    requires { length owners.old.items < vec_capacity owners.old }
    ensures rising { (hi : ℕ) → RisesIn timer_of 0 hi owners.old.items → owner.timer < hi
        → list_any (λ o. o.timer == owner.timer) owners.old.items ≡ false
        → RisesIn timer_of 0 hi owners.new.items }
    ensures counts { (p : ℕ → ℕ → Bool) → count (λ o. p o.timer o.handle.0) owners.new.items
        ≡ count (λ o. p o.timer o.handle.0) owners.old.items
        + (if p owner.timer owner.handle.0 then 1 else 0) }
    ensures len { length owners.new.items ≡ length owners.old.items + 1 }
    ensures capacity { vec_capacity owners.new ≡ vec_capacity owners.old }
{
    let place = owner_from(owners, owner.timer);
    match owners.insert(place, owner) {
        Ok(()) => {}
        Err(_) => unreachable!(),
    }
}

/// Takes the timer's owner out.
fn take_out(owners: &mut Vec<Owner>, timer: u64)
    ensures items { (hi : ℕ) → RisesIn timer_of 0 hi owners.old.items
        → owners.new.items ≡ filter (λ o. not (timer == o.timer)) owners.old.items }
    ensures len { length owners.new.items ≤ length owners.old.items }
    ensures capacity { vec_capacity owners.new ≡ vec_capacity owners.old }
{
    if let Some(place) = owner_of(owners, timer) {
        owners.remove(place);
    }
}

/// Takes the owners of a handle out.
fn take_all(owners: &mut Vec<Owner>, handle: Handle)
    ensures items { owners.new.items ≡ filter (λ o. not (o.handle.0 == handle.0)) owners.old.items }
    ensures len { length owners.new.items ≤ length owners.old.items }
    ensures capacity { vec_capacity owners.new ≡ vec_capacity owners.old }
{
    owners.retain(|o| o.handle.0 != handle.0);
}

/// The least of deadline + every, deadline + 2 * every and so on that is above the moment.
#[tactic(auto, using(crate::proofs::Soundness::next_within))]
fn next_deadline(deadline: u64, every: u64, moment: u64) -> u64
    requires periodic { 0 < every }
    requires short { every ≤ 4294967295 }
    requires reached { deadline ≤ moment }
    requires moment { moment ≤ 2 ^ 62 }
    ensures { result ≡ next_deadline deadline every moment }
{
    let steps = (moment - deadline) / every;
    deadline + (steps + 1) * every
}

impl<Q: TimerQueue> Armed<Q> {
    /// Those of a timer queue that has none. It takes no memory.
    pub fn new(alloc: Global, timers: Q) -> Armed<Q>
        requires { Q.timers timers ≡ [] }
        ensures { HasArmed Q.timers result [] }
    {
        Armed {
            timers,
            owners: Vec::new(alloc),
        }
    }

    /// Makes room for so many more.
    pub fn reserve(&mut self, more: usize) -> Result<(), NoMemory>
        ensures same { TakesArmedTo Q.timers self.old (λ armed. armed) self.new }
        ensures room { OnOk result (HasTimerRoom Q.spare more self.new) }
        ensures kept { KeepsTimerRoom Q.spare self.old self.new }
        ensures at_once { HasTimerRoom Q.spare more self.old → IsOk result }
    {
        self.timers.reserve(more)?;
        self.owners.reserve(more)?;
        Ok(())
    }

    /// Arms a timer that is not armed.
    pub fn arm(&mut self, t: Timer)
        requires fresh { is_scheduled t.timer (Q.timers self.old.timers) ≡ false }
        requires room { HasTimerRoom Q.spare 1 self.old }
        ensures armed { TakesArmedTo Q.timers self.old (λ armed. S.with_timer (armed_of t) armed)
            self.new }
        ensures room { (n : ℕ) → HasTimerRoom Q.spare n self.old
            → HasTimerRoom Q.spare (n - 1) self.new }
    {
        self.timers.schedule(t);
        put(
            &mut self.owners,
            Owner {
                timer: t.timer,
                handle: t.handle,
            },
        );
    }

    /// Arms a periodic timer that came due again, at the deadline of its row after the one that was
    /// reached.
    pub fn arm_again(&mut self, moment: u64, handle: Handle, due: Option<DueTimer>)
        requires moment { moment ≤ 2 ^ 62 }
        requires reached { IsReached moment due }
        requires fresh { (t : ℕ) → is_due_of t due ≡ true → is_scheduled t
            (Q.timers self.old.timers) ≡ false }
        requires room { HasTimerRoom Q.spare 1 self.old }
        ensures armed { TakesArmedTo Q.timers self.old (λ armed.
            S.with_next moment handle due armed) self.new }
        ensures room { (n : ℕ) → HasTimerRoom Q.spare n self.old
            → HasTimerRoom Q.spare (n - 1) self.new }
    {
        match due {
            None => {}
            Some(due) => {
                if due.every != 0 {
                    let deadline = next_deadline(due.deadline, due.every, moment);
                    self.arm(Timer {
                        deadline,
                        timer: due.timer,
                        handle,
                        every: due.every,
                    });
                }
            }
        }
    }

    /// Takes a timer away.
    pub fn disarm(&mut self, timer: u64)
        ensures armed { TakesArmedTo Q.timers self.old (λ armed. S.without_timer timer armed)
            self.new }
        ensures room { KeepsTimerRoom Q.spare self.old self.new }
    {
        self.timers.cancel(timer);
        take_out(&mut self.owners, timer);
    }

    /// Takes the timers of a handle away.
    pub fn disarm_all(&mut self, handle: Handle)
        ensures armed { TakesArmedTo Q.timers self.old (λ armed.
            filter (λ a. not (a.handle.0 == handle.0)) armed) self.new }
        ensures room { KeepsTimerRoom Q.spare self.old self.new }
    {
        self.timers.cancel_all(handle);
        take_all(&mut self.owners, handle);
    }

    /// Takes out the first timer, if its deadline is reached.
    pub fn pop_due(&mut self, now: u64) -> Option<Timer>
        ensures due { IfSome result (λ t. TellsArmed Q.timers self.old
            (λ armed. IsOnce armed → HasArmed Q.timers self.new (S.without_timer t.timer armed))) }
        ensures first { IfSome result (λ t. TellsArmed Q.timers self.old
            (λ armed. (S.is_first now t.timer armed ≡ true)
            × (find (λ a. a.timer == t.timer) armed ≡ Some (armed_of t)))) }
        ensures none { IfNone result (TellsArmed Q.timers self.old
            (λ armed. S.is_reached now armed ≡ false)) }
        ensures unchanged { IfNone result (TakesArmedTo Q.timers self.old (λ armed. armed)
            self.new) }
        ensures room { KeepsTimerRoom Q.spare self.old self.new }
    {
        match self.timers.pop_due(now) {
            None => None,
            Some(t) => {
                take_out(&mut self.owners, t.timer);
                Some(t)
            }
        }
    }

    /// How many timers are armed.
    pub fn len(&self) -> usize
        ensures { TellsArmed Q.timers self.now (λ armed. result ≡ length armed) }
    {
        self.owners.len()
    }

    /// The handle of the timer, if it is armed.
    pub fn handle_of(&self, timer: u64) -> Option<Handle>
        ensures { TellsArmed Q.timers self.now (λ armed. IsOnce armed
            → result ≡ option_map (λ a. a.handle) (find (λ a. a.timer == timer) armed)) }
    {
        match owner_of(&self.owners, timer) {
            Some(place) => Some(self.owners[place].handle),
            None => None,
        }
    }

    /// The first deadline.
    pub fn earliest(&self) -> Option<u64>
        ensures { TellsArmed Q.timers self.now (λ armed. result ≡ first_armed_deadline armed) }
    {
        self.timers.earliest()
    }
}

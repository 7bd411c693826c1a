//! The timer of a wheel that comes due first.
ghost use Rattle.std.specs.Prelude.{◌≡◌, ◌<◌, ◌≤◌, All};
ghost use Rattle.timer_queue.specs.declared.timer.Timer.{Timer};
ghost use Rattle.timer_queue.specs.Timers.{AreApart};
ghost use Rattle.timer_wheel.specs.Spokes.{timers_of};
ghost use Rattle.timer_wheel.specs.Chains.{earlier_at, earlier_of, IsEarliest, head_timer};
ghost use Rattle.timer_wheel.specs.Chains.{in_tick, is_behind};
ghost use Rattle.timer_wheel.specs.Linked.{AreChains, timers_in};

use crate::Place;
use crate::chain::{Chains, spoke};
use timer_queue::Timer;

// The one that comes first.
pub fn earlier(first: Option<Timer>, t: Timer) -> Option<Timer>
    ensures { result ≡ earlier_of first t }
{
    match first {
        Some(f) if !t.comes_before(&f) => Some(f),
        _ => Some(t),
    }
}

// Whether this timer is not the first.
pub fn is_behind(first: &Option<Timer>, t: &Timer) -> bool
    ensures { result ≡ is_behind first.now t.now }
{
    match first {
        Some(f) => f.timer != t.timer,
        None => true,
    }
}

// The first of the timers, by their places.
fn first_of_places(places: &[Place]) -> Option<Timer>
    requires { AreApart (timers_of places.now) }
    ensures { IsEarliest places.now result }
{
    let mut first = &places.first()?.timer;
    for at in 1..places.len() {
        let timer = &places[at].timer;
        if timer.comes_before(first) {
            first = timer;
        }
    }
    Some(*first)
}

// The one that comes first, if the timer at a head is looked at too.
fn earlier_at(places: &[Place], first: Option<Timer>, head: Option<usize>) -> Option<Timer>
    ensures { result ≡ earlier_at first (head_timer places.now head) }
{
    let Some(k) = head else {
        return first;
    };
    let Some(place) = places.get(k) else {
        return first;
    };
    earlier(first, place.timer)
}

// The timer at a head, if its tick is this many after another.
fn head_of_tick(
    places: &[Place],
    head: Option<usize>,
    resolution: u64,
    tick: u64,
    turn: usize,
) -> Option<Timer>
    requires { 0 < resolution }
    ensures { result ≡ in_tick resolution tick turn (head_timer places.now head) }
{
    let place = places.get(head?)?;
    if (place.timer.deadline / resolution).saturating_sub(tick) == turn as u64 {
        Some(place.timer)
    } else {
        None
    }
}

// How many ticks are tried before all timers are looked at: none if there are few timers, and no
// more than a turn of the wheel.
fn ticks_to_try(spokes: usize, timers: usize) -> usize {
    if timers < spokes / 2 {
        return 0;
    }
    spokes.min(timers / 4)
}

impl Chains {
    // The first of the timers, by the heads of the spokes.
    fn first_of_heads(&self) -> Option<Timer>
        requires { AreChains self.now }
        ensures { IsEarliest self.now.places.items result }
    {
        let mut first = None;
        for head in &self.heads {
            first = earlier_at(&self.places, first, *head);
        }
        first
    }

    // The first of the timers. It looks at no more of them than there are, and at no more than
    // there are spokes.
    fn find_first(&self) -> Option<Timer>
        requires { AreChains self.now }
        ensures { IsEarliest self.now.places.items result }
    {
        if self.places.len() <= self.heads.len() {
            first_of_places(&self.places)
        } else {
            self.first_of_heads()
        }
    }

    // The first of the timers, if none comes due before `from`. It is sought tick by tick from
    // that moment on, and after a turn of the wheel, or sooner if there are few timers, among
    // all.
    pub fn next_from(&self, from: u64) -> Option<Timer>
        requires from { All (λ (t : Timer). from ≤ t.deadline) (timers_in self.now) }
        requires chains { AreChains self.now }
        ensures { IsEarliest self.now.places.items result }
    {
        let spokes = self.heads.len();
        let tick = from / self.resolution;
        let mut at = spoke(spokes, self.resolution, from);
        for turn in 0..ticks_to_try(spokes, self.places.len()) {
            let found = head_of_tick(&self.places, self.heads[at], self.resolution, tick, turn);
            if found.is_some() {
                return found;
            }
            at += 1;
            if at == spokes {
                at = 0;
            }
        }
        self.find_first()
    }
}

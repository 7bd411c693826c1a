//! The armed timers, in the order in which they come due.

ghost use Rattle.std.specs.Prelude.{◌≡◌, ◌<◌, ◌≤◌, ◌==◌, ◌&&◌, not, filter, true, false, [], OnOk};
ghost use Rattle.std.specs.Prelude.{ℕ, List, Some, None, IfSome, Bool, slice_get, option_map};
ghost use Rattle.std.specs.List.{list_any, find};
ghost use Rattle.std.specs.BTreeSet.{contains};
ghost use Rattle.std.specs.Map.{values_of};
ghost use Rattle.number_map.specs.Content.{found};
ghost use Rattle.reactor_journal.specs.Past as P;
ghost use Rattle.reactor_summary.specs.Summary as S;
ghost use Rattle.reactor_summary.specs.declared.parts.ArmedTimer.{ArmedTimer};
ghost use Rattle.journal_check.specs.Fronts as K;
ghost use Rattle.journal_check.specs.Index.{pair_cmp, IsIndexed, is_idle};

use ev_types::{Handle, NoMemory};
use number_map::NumberMap;
use reactor_summary::{ArmedTimer, DueTimer};
use std::alloc::Global;
use std::collections::{BTreeMap, BTreeSet};
use std::marker::Model;

/// The armed timers by deadline and number. A number leads to the timer that was armed last under
/// it, and each handle to the numbers of its timers; either may lead to a timer that is no longer
/// armed.
#[derive(Drop)]
pub struct Timers {
    order: BTreeMap<(u128, u64), ArmedTimer>,
    numbered: NumberMap<ArmedTimer>,
    owned: BTreeSet<(u64, u64)>,
}

impl Model for Timers {
    ghost Value = { List ArmedTimer };

    ghost view = { λ t. values_of t.order.entries };

    ghost invariant = { λ t. IsIndexed t.order.entries (found t.numbered)
        (contains pair_cmp t.owned) };
}

/// The least of deadline + k * every, from k = 1 on, that is above the moment. It may be beyond 64
/// bits.
#[tactic(auto, using(crate::proofs::Clock::steps_below))]
pub fn next_deadline(deadline: u64, every: u64, moment: u64) -> u128
    requires { 0 < every }
    ensures { result ≡ P.next_deadline deadline every moment }
{
    let steps = moment.saturating_sub(deadline) / every;
    deadline as u128 + (steps as u128 + 1) * every as u128
}

/// A timer of the handle, if it has some.
fn first_owned(owned: &BTreeSet<(u64, u64)>, handle: Handle) -> Option<u64>
    ensures found { IfSome result (λ t. contains pair_cmp owned.now (handle.0, t) ≡ true) }
    ensures none { result ≡ None → (t : ℕ) → contains pair_cmp owned.now (handle.0, t) ≡ false }
{
    match owned.range((handle.0, 0)..).next() {
        Some(&(other, timer)) if other == handle.0 => Some(timer),
        _ => None,
    }
}

/// Takes a timer away that leads to one of the handle.
fn disarm_of(
    order: &mut BTreeMap<(u128, u64), ArmedTimer>,
    numbered: &NumberMap<ArmedTimer>,
    handle: Handle,
    timer: u64,
)
    requires { (owns : ℕ × ℕ → Bool) × IsIndexed order.old.entries (found numbered.now) owns }
    ensures gone { values_of order.new.entries ≡ filter
        (λ a. not (a.handle.0 == handle.0 && a.timer == timer)) (values_of order.old.entries) }
    ensures left { (owns : ℕ × ℕ → Bool) → IsIndexed order.old.entries (found numbered.now) owns
        → IsIndexed order.new.entries (found numbered.now) owns }
{
    if let Some(a) = numbered.get(timer) {
        if a.handle.0 == handle.0 {
            let _ = order.remove(&(a.deadline, timer));
        }
    }
}

impl Timers {
    /// None.
    pub fn new(alloc: Global) -> Timers
        ensures { result ≡ [] }
    {
        Timers {
            order: BTreeMap::new(alloc),
            numbered: NumberMap::new(alloc),
            owned: BTreeSet::new(alloc),
        }
    }

    /// Whether the timer is armed.
    pub fn is_armed(&self, timer: u64) -> bool
        ensures { result ≡ list_any (λ a. a.timer == timer) self.now }
    {
        match self.numbered.get(timer) {
            None => false,
            Some(a) => self.order.contains_key(&(a.deadline, timer)),
        }
    }

    /// The timer that comes due first.
    fn first(&self) -> Option<ArmedTimer>
        ensures { result ≡ slice_get self.now 0 }
    {
        match self.order.first_key_value() {
            None => None,
            Some((_, a)) => Some(*a),
        }
    }

    /// Whether the first deadline is reached.
    pub fn is_reached(&self, moment: u64) -> bool
        ensures { result ≡ S.is_reached moment self.now }
    {
        match self.first() {
            None => false,
            Some(a) => a.deadline <= moment as u128,
        }
    }

    /// Whether the first deadline is reached and is that of the timer.
    pub fn is_first(&self, moment: u64, timer: u64) -> bool
        ensures { result ≡ S.is_first moment timer self.now }
    {
        match self.first() {
            None => false,
            Some(a) => a.timer == timer && a.deadline <= moment as u128,
        }
    }

    fn insert(&mut self, a: ArmedTimer) -> Result<(), NoMemory>
        requires { list_any (λ b. b.timer == a.timer) self.old ≡ false }
        ensures { OnOk result (self.new ≡ S.with_timer a self.old) }
    {
        self.owned.insert((a.handle.0, a.timer))?;
        self.numbered.insert(a.timer, a)?;
        self.order.insert((a.deadline, a.timer), a)?;
        Ok(())
    }

    /// Takes a timer away.
    pub fn disarm(&mut self, timer: u64)
        ensures { self.new ≡ S.without_timer timer self.old }
    {
        if let Some(a) = self.numbered.get(timer) {
            let _ = self.order.remove(&(a.deadline, timer));
        }
    }

    /// Arms a timer, in place of an earlier time at which it was armed.
    pub fn arm(&mut self, a: ArmedTimer) -> Result<(), NoMemory>
        ensures { OnOk result (self.new ≡ S.with_timer a (S.without_timer a.timer self.old)) }
    {
        self.disarm(a.timer);
        self.insert(a)
    }

    /// Arms a periodic timer again.
    pub fn arm_again(
        &mut self,
        moment: u64,
        handle: Handle,
        due: Option<DueTimer>,
    ) -> Result<(), NoMemory>
        ensures { is_idle due self.old ≡ true → OnOk result
            (self.new ≡ S.with_next moment handle due self.old) }
    {
        match due {
            None => Ok(()),
            Some(due) => {
                if due.every == 0 {
                    Ok(())
                } else {
                    let deadline = next_deadline(due.deadline, due.every, moment);
                    self.arm(ArmedTimer {
                        deadline,
                        timer: due.timer,
                        handle,
                        every: due.every,
                    })
                }
            }
        }
    }

    /// The timer that comes due, if it is the first and its deadline is reached.
    pub fn first_due(&self, moment: u64, timer: u64) -> Option<ArmedTimer>
        ensures found { S.is_first moment timer self.now ≡ true
            → result ≡ find (λ a. a.timer == timer) self.now }
        ensures reached { IfSome result (λ a. a.deadline ≤ moment) }
        ensures number { IfSome result (λ a. a.timer ≡ timer) }
    {
        match self.first() {
            None => None,
            Some(a) => {
                if a.timer == timer && a.deadline <= moment as u128 {
                    Some(a)
                } else {
                    None
                }
            }
        }
    }

    /// The handle of an armed timer.
    pub fn handle_of(&self, timer: u64) -> Option<Handle>
        ensures { result ≡ option_map K.timer_handle (find (λ a. a.timer == timer) self.now) }
    {
        match self.numbered.get(timer) {
            None => None,
            Some(a) => match self.order.get(&(a.deadline, timer)) {
                None => None,
                Some(b) => Some(b.handle),
            },
        }
    }

    /// Takes the timers of a handle away.
    pub fn disarm_all(&mut self, handle: Handle)
        ensures { self.new ≡ filter (λ a. not (a.handle.0 == handle.0)) self.old }
    {
        while let Some(timer) = first_owned(&self.owned, handle) {
            disarm_of(&mut self.order, &self.numbered, handle, timer);
            let _ = self.owned.remove(&(handle.0, timer));
        }
    }
}

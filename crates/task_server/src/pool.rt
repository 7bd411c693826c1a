//! A pool and its calls.
ghost use Rattle.std.specs.Prelude.{◌≡◌, ◌<◌, ◌^◌, List, [], IfOk, OnOk, IfErr, OnErr, MatchOption};
ghost use Rattle.crossbeam_queue.specs.Fifo.{Held};
ghost use Rattle.task_server.specs.Calls.{after, found_by, got_by, pool_id, putter_pool};
ghost use Rattle.task_server.specs.Calls.{put_log, take_log, taker_pool, HasPut, HasTaken};
ghost use Rattle.task_server.specs.Calls.{IsNewPutter, IsNewTaker, KeepsTries, Remain, Balances};
ghost use Rattle.task_server.specs.Logs.{log, shared, joined, PutsStand, TakesStand};
ghost use Rattle.task_server.specs.Rule.{IsSettled};

use crate::rule::{Puts, PutterShare, Queue, Sides, TakerShare, Takes, Whole};
use crate::sides::{Found, Left, Pool, Putter, Taker};
use ev_types::NoMemory;
use std::alloc::Global;
use std::sync::Wait;

/// How many items the queue of a pool holds at most.
pub const PLACES: usize = 1024;

/// The queue had no place for an item.
#[derive(Clone, Copy, PartialEq, Eq, Debug, Drop)]
pub struct Full;

impl<T> Pool<T> {
    /// An empty pool, with its first putter and its first taker.
    pub fn new(alloc: Global) -> Result<(Pool<T>, Putter<T>, Taker<T>), NoMemory>
        ensures putter { IfOk result (λ r. (putter_pool r.1 ≡ pool_id r.0)
            × IsNewPutter (2 ^ 32) r.1) }
        ensures taker { IfOk result (λ r. (taker_pool r.2 ≡ pool_id r.0)
            × IsNewTaker (2 ^ 32) r.2) }
    {
        let (queue, mut pass) = Queue::ruled(alloc, PLACES)?;
        let other = queue.another::<Sides>(&mut pass);
        let putter = Putter {
            pass,
            tries: 0,
            found: Found::NoTry,
        };
        let taker = Taker {
            pass: other,
            tries: 0,
            found: Found::NoTry,
        };
        Ok((Pool { queue }, putter, taker))
    }

    /// Puts an item after the others. It makes one try. `Full` gives the item back: the queue had
    /// 1,024 items at a moment of this call.
    pub fn put<R: Wait>(&self, rt: &R, p: &mut Putter<T>, item: T) -> Result<(), (T, Full)>
        requires pool { putter_pool p.old ≡ pool_id self.now }
        ensures pool { putter_pool p.new ≡ putter_pool p.old }
        ensures tries { p.new.tries ≡ after p.old.tries }
        ensures found { p.new.found ≡ found_by result }
        ensures put { OnOk result (HasPut (put_log p.old) item (put_log p.new)) }
        ensures back { IfErr result (λ back. (back.0 ≡ item) × (put_log p.new ≡ put_log p.old)) }
        ensures full { OnErr result (Held 1024 (PutsStand (put_log p.old))) }
    {
        p.tries = p.tries.saturating_add(1);
        match self.queue.push_as::<Puts, R>(rt, &mut p.pass, item) {
            Ok(()) => {
                p.found = Found::Moved;
                Ok(())
            }
            Err(back) => {
                p.found = Found::Refused;
                Err((back, Full))
            }
        }
    }

    /// Takes the first item. It makes one try. None comes if the queue had no item at a moment
    /// of this call.
    pub fn take<R: Wait>(&self, rt: &R, t: &mut Taker<T>) -> Option<T>
        requires pool { taker_pool t.old ≡ pool_id self.now }
        ensures pool { taker_pool t.new ≡ taker_pool t.old }
        ensures tries { t.new.tries ≡ after t.old.tries }
        ensures found { t.new.found ≡ got_by result }
        ensures taken { MatchOption result
            ((take_log t.new ≡ take_log t.old) × Held 0 (TakesStand (take_log t.old)))
            (λ item. HasTaken (take_log t.old) item (take_log t.new)) }
    {
        t.tries = t.tries.saturating_add(1);
        match self.queue.pop_as::<Takes, R>(rt, &mut t.pass) {
            Some(item) => {
                t.found = Found::Moved;
                Some(item)
            }
            None => {
                t.found = Found::Refused;
                None
            }
        }
    }

    /// Makes a putter, which gets one of the root's shares. It takes no memory.
    pub fn split_putter(&self, root: &mut Putter<T>) -> Result<Putter<T>, NoMemory>
        requires pool { putter_pool root.old ≡ pool_id self.now }
        requires shares { 1 < (put_log root.old).shares }
        ensures pool { putter_pool root.new ≡ putter_pool root.old }
        ensures tries { KeepsTries (root.old.tries, root.old.found)
            (root.new.tries, root.new.found) }
        ensures root { OnOk result (put_log root.new ≡ shared (put_log root.old)) }
        ensures child { IfOk result (λ p. (putter_pool p ≡ putter_pool root.old)
            × IsNewPutter 1 p) }
        ensures kept { OnErr result (put_log root.new ≡ put_log root.old) }
    {
        let pass = self.queue.another::<PutterShare>(&mut root.pass);
        Ok(Putter {
            pass,
            tries: 0,
            found: Found::NoTry,
        })
    }

    /// Makes a taker, which gets one of the root's shares. It takes no memory.
    pub fn split_taker(&self, root: &mut Taker<T>) -> Result<Taker<T>, NoMemory>
        requires pool { taker_pool root.old ≡ pool_id self.now }
        requires shares { 1 < (take_log root.old).shares }
        ensures pool { taker_pool root.new ≡ taker_pool root.old }
        ensures tries { KeepsTries (root.old.tries, root.old.found)
            (root.new.tries, root.new.found) }
        ensures root { OnOk result (take_log root.new ≡ shared (take_log root.old)) }
        ensures child { IfOk result (λ t. (taker_pool t ≡ taker_pool root.old)
            × IsNewTaker 1 t) }
        ensures kept { OnErr result (take_log root.new ≡ take_log root.old) }
    {
        let pass = self.queue.another::<TakerShare>(&mut root.pass);
        Ok(Taker {
            pass,
            tries: 0,
            found: Found::NoTry,
        })
    }

    /// Takes a putter in. The root keeps the list of what it put. It takes no memory.
    pub fn join_putter(&self, root: &mut Putter<T>, other: Putter<T>)
        requires pool { (putter_pool root.old ≡ pool_id self.now)
            × (putter_pool other ≡ pool_id self.now) }
        ensures pool { putter_pool root.new ≡ putter_pool root.old }
        ensures tries { KeepsTries (root.old.tries, root.old.found)
            (root.new.tries, root.new.found) }
        ensures root { put_log root.new ≡ joined (put_log root.old) (put_log other) }
    {
        let Putter {
            pass,
            tries: _,
            found: _,
        } = other;
        self.queue.absorb::<PutterShare>(&mut root.pass, pass);
    }

    /// Takes a taker in. The root keeps the list of what it took. It takes no memory.
    pub fn join_taker(&self, root: &mut Taker<T>, other: Taker<T>)
        requires pool { (taker_pool root.old ≡ pool_id self.now)
            × (taker_pool other ≡ pool_id self.now) }
        ensures pool { taker_pool root.new ≡ taker_pool root.old }
        ensures tries { KeepsTries (root.old.tries, root.old.found)
            (root.new.tries, root.new.found) }
        ensures root { take_log root.new ≡ joined (take_log root.old) (take_log other) }
    {
        let Taker {
            pass,
            tries: _,
            found: _,
        } = other;
        self.queue.absorb::<TakerShare>(&mut root.pass, pass);
    }

    /// Closes the pool, once every other putter and taker was joined, and gives the items that are
    /// left. Each item was put as often as it was taken or is left; and what was put is what was
    /// taken and then what is left, in order. It takes no memory.
    pub fn close(self, p: Putter<T>, t: Taker<T>) -> Left<T>
        requires pool { (putter_pool p ≡ pool_id self) × (taker_pool t ≡ pool_id self) }
        requires all { ((put_log p).shares ≡ 2 ^ 32) × ((take_log t).shares ≡ 2 ^ 32) }
        ensures left { (items : List T) × Remain result items }
        ensures settled { (items : List T) → Remain result items
            → IsSettled (put_log p) (take_log t) items }
        ensures balance { (items : List T) → Remain result items
            → Balances (put_log p) (take_log t) items }
    {
        let Pool { queue } = self;
        let Putter {
            mut pass,
            tries: _,
            found: _,
        } = p;
        let Taker {
            pass: other,
            tries: _,
            found: _,
        } = t;
        queue.absorb::<Sides>(&mut pass, other);
        queue.learn_as::<Whole>(&mut pass);
        Left { queue, pass }
    }
}

//! What the workers and the writers of a pool share.
ghost use Rattle.std.specs.Prelude.{◌≡◌, true, false, IfOk, MatchOption};
ghost use Rattle.task_server.specs.Calls.{HasPut, HasTaken, pool_id, put_log, putter_pool};
ghost use Rattle.task_server.specs.Calls.{take_log, taker_pool};

use doorbell::Doorbell;
use ev_types::NoMemory;
use std::alloc::Global;
use std::sync::Wait;
use std::sync::atomic::{AtomicBool, Ordering};
use task_server::{Item, Pool, Putter, Taker};

/// How often a writer looks whether an item came before it sleeps.
const LOOKS: u32 = 64;

/// A pool of items, and what its writers sleep on: a doorbell for each. What the doorbells do no
/// contract speaks of.
#[derive(Drop)]
pub struct Shared {
    pub pool: Pool<Item>,
    bells: Vec<Doorbell>,
    /// Whether the workers are back.
    back: AtomicBool,
}

impl Shared {
    /// A pool for so many writers.
    pub fn new(alloc: Global, pool: Pool<Item>, writers: usize) -> Result<Shared, NoMemory>
        ensures { IfOk result (λ shared. pool_id shared.pool ≡ pool_id pool) }
    {
        let mut bells = Vec::new(alloc);
        for _ in 0..writers {
            bells.push(Doorbell::new())?;
        }
        Ok(Shared {
            pool,
            bells,
            back: AtomicBool::new(false),
        })
    }

    /// Puts an item, and tells whether it did: if the queue is full the item is dropped. The
    /// writers are told by `ring`.
    pub fn put<R: Wait>(&self, rt: &R, putter: &mut Putter<Item>, item: Item) -> bool
        requires { putter_pool putter.old ≡ pool_id self.now.pool }
        ensures pool { putter_pool putter.new ≡ putter_pool putter.old }
        ensures put { result ≡ true → HasPut (put_log putter.old) item (put_log putter.new) }
        ensures full { result ≡ false → put_log putter.new ≡ put_log putter.old }
    {
        self.pool.put(rt, putter, item).is_ok()
    }

    /// Takes the first item, if there is one.
    pub fn take<R: Wait>(&self, rt: &R, taker: &mut Taker<Item>) -> Option<Item>
        requires { taker_pool taker.old ≡ pool_id self.now.pool }
        ensures pool { taker_pool taker.new ≡ taker_pool taker.old }
        ensures taken { MatchOption result (take_log taker.new ≡ take_log taker.old)
            (λ item. HasTaken (take_log taker.old) item (take_log taker.new)) }
    {
        self.pool.take(rt, taker)
    }

    /// Tells the writers that the workers are back.
    pub fn end(&self) {
        self.back.store(true, Ordering::SeqCst);
        for bell in &self.bells {
            bell.ring();
            bell.wake();
        }
    }

    /// Whether the workers are back.
    pub(crate) fn is_ended(&self) -> bool {
        self.back.load(Ordering::SeqCst)
    }

    /// How often this writer's doorbell was rung.
    pub(crate) fn count(&self, writer: usize) -> u64 {
        match self.bells.get(writer) {
            Some(bell) => bell.count(),
            None => 0,
        }
    }

    /// Waits until this writer's doorbell was rung again since it was so often.
    pub(crate) fn rest<R: Wait>(&self, rt: &R, writer: usize, count: u64) {
        if let Some(bell) = self.bells.get(writer) {
            bell.rest(rt, count, LOOKS);
        }
    }

    /// Tells the writers that items were put: rings all doorbells, so that no writer falls asleep
    /// before it has looked again, and wakes one that sleeps.
    pub fn ring(&self) {
        for bell in &self.bells {
            bell.ring();
        }
        for bell in &self.bells {
            if bell.is_asleep() {
                bell.wake();
                return;
            }
        }
    }
}

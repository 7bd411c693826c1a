//! A pool, its putters and takers, and what is left of it.
ghost use Rattle.std.specs.Prelude.{◌≡◌, ◌<◌, ◌^◌, []};
ghost use Rattle.crossbeam_queue.specs.Passes.{view, IsPassOf};
ghost use Rattle.task_server.specs.Logs.{no_log};

use crate::rule::{Knowing, Queue};

/// What the last try of a putter or a taker found.
#[derive(Clone, Copy, PartialEq, Eq, Debug, Drop)]
pub enum Found {
    /// It made no try.
    NoTry,
    /// It put an item, or took one.
    Moved,
    /// The queue was full when it put, or empty when it took.
    Refused,
}

/// It puts items into a pool. One thread has it at a time. Contracts see what it put, and how many
/// tries it made, with what the last one found.
#[derive(Drop)]
pub struct Putter<T> {
    pub(crate) pass: Knowing<T>,
    pub tries: u64,
    pub found: Found,
    ghost rests: { pass.me.1 ≡ [] },
    ghost puts: { 0 < (view pass).puts.shares },
    ghost apart: { (view pass).takes ≡ no_log },
}

/// It takes items out of a pool. One thread has it at a time. Contracts see what it took, and how
/// many tries it made, with what the last one found.
#[derive(Drop)]
pub struct Taker<T> {
    pub(crate) pass: Knowing<T>,
    pub tries: u64,
    pub found: Found,
    ghost rests: { pass.me.1 ≡ [] },
    ghost takes: { 0 < (view pass).takes.shares },
    ghost apart: { (view pass).puts ≡ no_log },
}

/// A queue of at most 1,024 items, which any number of putters and takers share.
#[derive(Drop)]
pub struct Pool<T> {
    pub(crate) queue: Queue<T>,
    ghost sized: { queue.cap ≡ 1024 },
}

/// The items that nobody took, in the order in which they were put.
#[derive(Drop)]
pub struct Left<T> {
    pub(crate) queue: Queue<T>,
    pub(crate) pass: Knowing<T>,
    ghost rests: { IsPassOf queue pass },
    ghost puts: { (view pass).puts.shares ≡ 2 ^ 32 },
    ghost takes: { (view pass).takes.shares ≡ 2 ^ 32 },
}

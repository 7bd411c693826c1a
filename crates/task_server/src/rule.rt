//! What the putters and the takers of a pool know, and the rule that ties it to the queue.
use crossbeam_queue::protocol::{Join, Lesson, Outcome, Protocol, Split};
use crossbeam_queue::{Pass, RuledArrayQueue};
use std::collections::LinkedList;

/// An item with its place in the order of all puts.
pub struct Numbered<T> {
    pub number: u64,
    pub item: T,
}

/// What a putter put, or a taker took, and the same of those that were joined into it. No value of
/// it is made.
pub struct Log<T> {
    /// How many of the 2^32 shares of its side it has. All are with one alone once every other was
    /// joined.
    pub shares: u64,
    /// Its own items, in order.
    pub own: LinkedList<Numbered<T>>,
    /// The items of each that was joined into it.
    pub joined: LinkedList<LinkedList<Numbered<T>>>,
}

/// What a pass of the queue knows: a putter's has a log of puts, a taker's one of takes.
pub struct View<T> {
    pub puts: Log<T>,
    pub takes: Log<T>,
}

/// The rule of a pool: each item that was put was taken or is in the queue, once, and in order.
pub struct PoolRule;

impl<T> Protocol<T, View<T>> for PoolRule {
    ghost use Rattle.task_server.specs.Rule.{InPool, first_view};

    ghost holds = { InPool };

    ghost first = { first_view };
}

/// The queue of a pool.
pub type Queue<T> = RuledArrayQueue<T, View<T>, PoolRule>;

/// What a putter or a taker knows of the queue. It has no bytes.
pub type Knowing<T> = Pass<T, View<T>>;

/// An item was put.
pub(crate) struct Puts;

impl<T> Outcome<T, View<T>> for Puts {
    ghost use Rattle.std.specs.Prelude.{◌≡◌, ℕ};
    ghost use Rattle.task_server.specs.Rule.{with_put};

    ghost then = { λ v x w. (n : ℕ) × (w ≡ with_put n x v) };
}

impl<T> Lesson<T, View<T>> for Puts {
    ghost use Rattle.task_server.specs.Logs.{PutsStand};

    ghost fact = { λ v items. PutsStand v.puts items };
}

/// An item was taken.
pub(crate) struct Takes;

impl<T> Outcome<T, View<T>> for Takes {
    ghost use Rattle.std.specs.Prelude.{◌≡◌, ℕ};
    ghost use Rattle.task_server.specs.Rule.{with_taken};

    ghost then = { λ v x w. (n : ℕ) × (w ≡ with_taken n x v) };
}

impl<T> Lesson<T, View<T>> for Takes {
    ghost use Rattle.task_server.specs.Logs.{TakesStand};

    ghost fact = { λ v items. TakesStand v.takes items };
}

/// What one learns that has all shares: what is left. It takes the first of that.
pub(crate) struct Whole;

impl<T> Outcome<T, View<T>> for Whole {
    ghost use Rattle.task_server.specs.Rule.{LeavesRest};

    ghost then = { LeavesRest };
}

impl<T> Lesson<T, View<T>> for Whole {
    ghost use Rattle.task_server.specs.Rule.{IsSettled};

    ghost fact = { λ v items. IsSettled v.puts v.takes items };
}

/// The first view is a putter's and a taker's, which part, and come together at the end.
pub(crate) struct Sides;

impl<T> Split<View<T>> for Sides {
    ghost use Rattle.task_server.specs.Logs.{no_log};
    ghost use Rattle.task_server.specs.Rule.{view_of};

    ghost left = { λ v. view_of v.puts no_log };

    ghost right = { λ v. view_of no_log v.takes };
}

impl<T> Join<View<T>> for Sides {
    ghost use Rattle.task_server.specs.Logs.{no_log};
    ghost use Rattle.task_server.specs.Rule.{view_of};

    ghost both = { λ v w. view_of v.puts w.takes };

    ghost spent = { view_of no_log no_log };
}

/// A putter is made of another, or taken in.
pub(crate) struct PutterShare;

impl<T> Split<View<T>> for PutterShare {
    ghost use Rattle.std.specs.Prelude.{[]};
    ghost use Rattle.task_server.specs.Logs.{log, no_log, shared};
    ghost use Rattle.task_server.specs.Rule.{view_of};

    ghost left = { λ v. view_of (shared v.puts) v.takes };

    ghost right = { λ v. view_of (log 1 [] []) no_log };
}

impl<T> Join<View<T>> for PutterShare {
    ghost use Rattle.task_server.specs.Logs.{joined, no_log};
    ghost use Rattle.task_server.specs.Rule.{view_of};

    ghost both = { λ v w. view_of (joined v.puts w.puts) v.takes };

    ghost spent = { view_of no_log no_log };
}

/// A taker is made of another, or taken in.
pub(crate) struct TakerShare;

impl<T> Split<View<T>> for TakerShare {
    ghost use Rattle.std.specs.Prelude.{[]};
    ghost use Rattle.task_server.specs.Logs.{log, no_log, shared};
    ghost use Rattle.task_server.specs.Rule.{view_of};

    ghost left = { λ v. view_of v.puts (shared v.takes) };

    ghost right = { λ v. view_of no_log (log 1 [] []) };
}

impl<T> Join<View<T>> for TakerShare {
    ghost use Rattle.task_server.specs.Logs.{joined, no_log};
    ghost use Rattle.task_server.specs.Rule.{view_of};

    ghost both = { λ v w. view_of v.puts (joined v.takes w.takes) };

    ghost spent = { view_of no_log no_log };
}

//! A line of items from one thread to another: a queue of at most 64 under the rule that what comes
//! is what was sent, in order.
ghost use Rattle.std.specs.Prelude.{◌≡◌, [], ◌∷◌, ◌++◌, true, false, MatchOption};
ghost use Rattle.crossbeam_queue.specs.Passes.{view, IsSamePass, IsPassOf};
ghost use Rattle.message_lines.specs.Lines.{log};

use crate::batch::Batch;
use crate::wait::{Looks, Waits};
use crossbeam_queue::protocol::{Join, Lesson, Outcome, Protocol, Split};
use crossbeam_queue::{Pass, RuledArrayQueue};
use message_block::Message;
use std::collections::LinkedList;
use std::sync::Wait;

/// What goes through a line.
#[derive(Drop)]
pub enum Item {
    /// A message.
    One(Message),
    /// Messages in order.
    Many(Batch),
    /// There are no more messages.
    Stop,
}

/// What an end of a line may do, what it has put, and what it has taken. No value of it is made.
pub struct Log {
    /// Whether it puts.
    pub puts: bool,
    /// Whether it takes.
    pub takes: bool,
    /// What it has put.
    pub sent: LinkedList<Item>,
    /// What it has taken.
    pub got: LinkedList<Item>,
}

/// The rule of a line.
pub struct InOrder;

impl Protocol<Item, Log> for InOrder {
    ghost use Rattle.std.specs.Prelude.{true, []};
    ghost use Rattle.message_lines.specs.Lines.{log, InLine};

    ghost holds = { InLine };

    ghost first = { log true true [] [] };
}

/// One end puts, and the other takes.
pub struct Ends;

impl Split<Log> for Ends {
    ghost use Rattle.std.specs.Prelude.{true, false, []};
    ghost use Rattle.message_lines.specs.Lines.{log};

    ghost left = { λ v. log true false v.sent [] };

    ghost right = { λ v. log false true [] v.got };
}

impl Join<Log> for Ends {
    ghost use Rattle.std.specs.Prelude.{true, false, []};
    ghost use Rattle.message_lines.specs.Lines.{log};

    ghost both = { λ v w. log true true v.sent w.got };

    ghost spent = { log false false [] [] };
}

/// An item was put.
pub(crate) struct Sent;

impl Outcome<Item, Log> for Sent {
    ghost then = { λ v x w. w ≡ log v.puts v.takes (v.sent ++ x ∷ []) v.got };
}

/// An item was taken.
pub(crate) struct Got;

impl Outcome<Item, Log> for Got {
    ghost then = { λ v x w. w ≡ log v.puts v.takes v.sent (v.got ++ x ∷ []) };
}

/// What was sent is what was got, and then what the line holds.
pub struct Total;

impl Lesson<Item, Log> for Total {
    ghost fact = { λ v items. v.sent ≡ v.got ++ items };
}

/// A line.
pub type Line = RuledArrayQueue<Item, Log, InOrder>;

/// An end of a line. It has no bytes.
pub type End = Pass<Item, Log>;

/// Puts an item into the line to the caller, and waits while there is no room.
pub fn send<R: Wait>(rt: &R, line: &Line, end: &mut End, waits: &Waits, item: Item)
    requires end { IsPassOf line.now end.old }
    requires puts { (view end.old).puts ≡ true }
    ensures same { IsSamePass end.old end.new }
    ensures sent { view end.new ≡ log true (view end.old).takes ((view end.old).sent ++ item ∷ [])
        (view end.old).got }
{
    let mut item = item;
    let mut looks = Looks::new();
    for _ in rt.forever() {
        match line.try_push_as::<Sent>(end, item) {
            Ok(()) => {
                looks.end(&waits.worker);
                waits.caller.tell();
                return;
            }
            Err(back) => {
                item = back;
                looks.pause(rt, &waits.worker, &waits.caller);
            }
        }
    }
    unreachable!()
}

/// Takes an item from the line from the caller, and waits while there is none.
pub fn receive<R: Wait>(rt: &R, line: &Line, end: &mut End, waits: &Waits) -> Item
    requires end { IsPassOf line.now end.old }
    requires takes { (view end.old).takes ≡ true }
    ensures same { IsSamePass end.old end.new }
    ensures got { view end.new ≡ log (view end.old).puts true (view end.old).sent
        ((view end.old).got ++ result ∷ []) }
{
    let mut looks = Looks::new();
    for _ in rt.forever() {
        match line.try_pop_as::<Got>(end) {
            Some(item) => {
                looks.end(&waits.worker);
                waits.caller.tell();
                return item;
            }
            None => looks.pause(rt, &waits.worker, &waits.caller),
        }
    }
    unreachable!()
}

//! The two lines between the caller and the thread.
ghost use Rattle.std.specs.Prelude.{◌≡◌, [], true, false, IfOk, OnOk, IfErr};
ghost use Rattle.crossbeam_queue.specs.Passes.{view, IsPassOf};
ghost use Rattle.message_lines.specs.Lines.{log};
ghost use Rattle.message_lines.specs.Boxes.{HasRoom};

use crate::exchange::{Exchanges, exchange};
use crate::inbox::Inbox;
use crate::line::{End, Ends, Got, Item, Line, Sent};
use crate::wait::{Looks, Waits};
use ev_types::NoMemory;
use std::alloc::{AllocError, Global};
use std::sync::{Arc, Wait};

/// How many items a line holds at most.
const ROOM: usize = 64;

/// The caller's side of the two lines: what it puts goes to the thread, and what comes back is kept
/// in the inbox.
#[derive(Drop)]
pub struct Lines {
    pub feed: Arc<Line, Global>,
    pub came: Arc<Line, Global>,
    pub puts: End,
    pub takes: End,
    pub inbox: Inbox,
    pub waits: Arc<Waits, Global>,
    ghost feeds: { IsPassOf feed.value puts },
    ghost comes: { IsPassOf came.value takes },
    ghost can_put: { (view puts).puts ≡ true },
    ghost can_take: { (view takes).takes ≡ true },
}

/// The thread's side of the two lines, from which nothing was taken and into which nothing was put.
#[derive(Drop)]
pub struct Side {
    pub feed: Arc<Line, Global>,
    pub came: Arc<Line, Global>,
    pub takes: End,
    pub puts: End,
    pub waits: Arc<Waits, Global>,
    ghost fed: { IsPassOf feed.value takes },
    ghost gives: { IsPassOf came.value puts },
    ghost took_none: { view takes ≡ log false true [] [] },
    ghost gave_none: { view puts ≡ log true false [] [] },
}

/// Makes two lines, and both sides.
pub fn open(alloc: Global) -> Result<(Lines, Side), AllocError>
    ensures feed { IfOk result (λ sides. sides.1.feed.value ≡ sides.0.feed.value) }
    ensures came { IfOk result (λ sides. sides.1.came.value ≡ sides.0.came.value) }
    ensures sent { IfOk result (λ sides. (view sides.0.puts).sent ≡ []) }
    ensures got { IfOk result (λ sides. (view sides.0.takes).got ≡ []) }
    ensures inbox { IfOk result (λ sides. (sides.0.inbox.messages.items ≡ [])
        × (sides.0.inbox.lost ≡ false) × (sides.0.inbox.over ≡ false)) }
{
    let (feed, mut puts) = Line::ruled(alloc, ROOM)?;
    let their_takes = feed.another::<Ends>(&mut puts);
    let (came, mut their_puts) = Line::ruled(alloc, ROOM)?;
    let takes = came.another::<Ends>(&mut their_puts);
    let feed = Arc::new(alloc, feed)?;
    let came = Arc::new(alloc, came)?;
    let waits = Arc::new(alloc, Waits::new())?;
    let side = Side {
        feed: Arc::try_clone(&feed)?,
        came: Arc::try_clone(&came)?,
        takes: their_takes,
        puts: their_puts,
        waits: Arc::try_clone(&waits)?,
    };
    let lines = Lines {
        feed,
        came,
        puts,
        takes,
        inbox: Inbox::new(alloc),
        waits,
    };
    Ok((lines, side))
}

impl Lines {
    ghost use Rattle.message_lines.specs.Caller.{KeepsWhatCame, HasSent, AreSame};

    /// Takes in what has come and puts an item, and takes in what comes while there is no room for
    /// it. `Err` gives it back: there was no memory for the messages that may come. Nothing is
    /// lost.
    pub fn put<R: Wait>(&mut self, rt: &R, item: Item) -> Result<(), Item>
        ensures put { OnOk result (HasSent self.old item self.new) }
        ensures refused { IfErr result (λ back. (back ≡ item)
            × ((view self.new.puts).sent ≡ (view self.old.puts).sent)) }
        ensures came { KeepsWhatCame self.old self.new }
        ensures lost { self.new.inbox.lost ≡ self.old.inbox.lost }
        ensures same { AreSame self.old self.new }
    {
        exchange(rt, self, item)
    }

    /// Takes in one item, if one has come, and tells whether it did. If there is no memory for a
    /// message it is lost.
    fn take_one(&mut self) -> bool
        ensures came { KeepsWhatCame self.old self.new }
        ensures kept { HasRoom self.old.inbox → self.new.inbox.lost ≡ self.old.inbox.lost }
        ensures puts { self.new.puts ≡ self.old.puts }
        ensures same { AreSame self.old self.new }
    {
        if self.inbox.over {
            return false;
        }
        match self.came.try_pop_as::<Got>(&mut self.takes) {
            Some(item) => {
                self.inbox.accept(item);
                self.waits.worker.tell();
                true
            }
            None => false,
        }
    }

    /// Puts the end, and takes in what comes while there is no room for it.
    pub fn stop<R: Wait>(&mut self, rt: &R)
        ensures put { HasSent self.old Item.Stop self.new }
        ensures came { KeepsWhatCame self.old self.new }
        ensures same { AreSame self.old self.new }
    {
        let mut looks = Looks::new();
        for _ in rt.forever() {
            if self
                .feed
                .try_push_as::<Sent>(&mut self.puts, Item::Stop)
                .is_ok()
            {
                looks.end(&self.waits.caller);
                self.waits.worker.tell();
                return;
            }
            if !self.take_one() {
                looks.pause(rt, &self.waits.caller, &self.waits.worker);
            }
        }
        unreachable!()
    }

    /// Takes in all that comes, to its end.
    pub fn take_rest<R: Wait>(&mut self, rt: &R)
        ensures over { self.new.inbox.over ≡ true }
        ensures came { KeepsWhatCame self.old self.new }
        ensures puts { self.new.puts ≡ self.old.puts }
        ensures same { AreSame self.old self.new }
    {
        let mut looks = Looks::new();
        for _ in rt.forever() {
            if self.inbox.over {
                looks.end(&self.waits.caller);
                return;
            }
            if !self.take_one() {
                looks.pause(rt, &self.waits.caller, &self.waits.worker);
            }
        }
        unreachable!()
    }
}

impl Exchanges for Lines {
    ghost use Rattle.std.specs.Prelude.{None};
    ghost use Rattle.message_lines.specs.Caller.{Keeps, HasPut};
    ghost use Rattle.message_lines.specs.Kept.{keeps_same, keeps_then};

    ghost waiting = { λ lines. None };

    ghost keeps = { Keeps };

    ghost has_put = { HasPut };

    fn take_next(&mut self) -> Result<bool, NoMemory> {
        self.inbox.make_room()?;
        Ok(self.take_one())
    }

    fn try_put(&mut self, item: Item) -> Result<(), Item> {
        self.feed.try_push_as::<Sent>(&mut self.puts, item)
    }

    fn waits(&self) -> &Waits {
        &self.waits
    }

    ghost keeps_same = { keeps_same };

    ghost keeps_then = { keeps_then };
}

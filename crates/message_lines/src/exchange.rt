//! How an item is put while others come.
ghost use Rattle.std.specs.Prelude.{◌≡◌, ℕ, Option, OnOk, IfErr};
ghost use Rattle.message_lines.specs.Exchanges.{TakesNext, NoneWaits, PutsAfter};

use crate::line::Item;
use crate::wait::{Looks, Waits};
use ev_types::NoMemory;
use std::sync::Wait;

/// A side that puts items and takes in those that come.
pub(crate) trait Exchanges {
    ghost use Rattle.message_lines.specs.declared.line.Item.{Item};

    /// How many items wait to be taken in, if that is told.
    ghost waiting: { Self → Option ℕ };

    /// What came in between was taken in, and nothing was put.
    ghost keeps: { Self → Self → Type 0 };

    /// An item was put, and nothing was taken in.
    ghost has_put: { Self → Item → Self → Type 0 };

    /// Takes in the next item, if one has come, and tells whether it did. It takes none if there
    /// is no memory for it.
    fn take_next(&mut self) -> Result<bool, NoMemory>
        ensures keeps { keeps self.old self.new }
        ensures takes { TakesNext (waiting self.old) result (waiting self.new) };

    /// Puts an item if there is room, and else gives it back.
    fn try_put(&mut self, item: Item) -> Result<(), Item>
        ensures put { OnOk result (has_put self.old item self.new) }
        ensures refused { IfErr result (λ back. (back ≡ item) × keeps self.old self.new) }
        ensures waiting { waiting self.new ≡ waiting self.old };

    /// Where it waits for the other side.
    fn waits(&self) -> &Waits;

    ghost keeps_same: { (side : Self) → keeps side side };

    ghost keeps_then: { (first then last : Self) → keeps first then → keeps then last
        → keeps first last };
}

/// Puts an item once there is room for it. Before each try it takes in all that has come. `Err`
/// gives the item back: there was no memory for what may come.
pub(crate) fn exchange<S: Exchanges, R: Wait>(rt: &R, side: &mut S, item: Item) -> Result<(), Item>
    ensures put { OnOk result (PutsAfter S.keeps S.has_put side.old item side.new) }
    ensures all { OnOk result (NoneWaits (S.waiting side.new)) }
    ensures refused { IfErr result (λ back. (back ≡ item) × S.keeps side.old side.new) }
{
    let mut item = item;
    let mut looks = Looks::new();
    for _ in rt.forever() {
        if take_all(rt, side).is_err() {
            looks.end(&side.waits().caller);
            return Err(item);
        }
        match side.try_put(item) {
            Ok(()) => {
                looks.end(&side.waits().caller);
                side.waits().worker.tell();
                return Ok(());
            }
            Err(back) => item = back,
        }
        let waits = side.waits();
        looks.pause(rt, &waits.caller, &waits.worker);
    }
    unreachable!()
}

/// Takes in all that has come. It stops if there is no memory for what may come.
fn take_all<S: Exchanges, R: Wait>(rt: &R, side: &mut S) -> Result<(), NoMemory>
    ensures keeps { S.keeps side.old side.new }
    ensures all { OnOk result (NoneWaits (S.waiting side.new)) }
{
    for _ in rt.forever() {
        if !side.take_next()? {
            return Ok(());
        }
    }
    unreachable!()
}

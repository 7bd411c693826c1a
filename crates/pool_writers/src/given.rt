//! What a service was given.
ghost use Rattle.std.specs.Prelude.{◌≡◌, ◌∷◌, ◌++◌, []};

use ghost_log::{Entry, GhostLog};
use std::marker::Model;
use task_server::Item;

/// What is noted of an item: the item.
struct Itself;

impl Entry<Item, Item> for Itself {
    ghost entry = { λ item. item };
}

/// The items that a service was given, in order. Contracts alone see them: nothing of them is there
/// in a run.
#[derive(Drop)]
pub struct GivenItems {
    given: GhostLog<Item>,
}

impl Model for GivenItems {
    ghost use Rattle.std.specs.Prelude.{List, reverse};
    ghost use Rattle.task_server.specs.declared.item.Item.{Item};

    ghost Value = { List Item };

    ghost view = { λ items. reverse items.given };
}

impl GivenItems {
    /// No item was given.
    pub fn none() -> GivenItems
        ensures { result ≡ [] }
    {
        GivenItems {
            given: GhostLog::none(),
        }
    }

    /// One more item is given.
    pub fn add(&mut self, item: &Item)
        ensures { self.new ≡ self.old ++ item.now ∷ [] }
    {
        self.given.add::<Item, Itself>(item);
    }
}

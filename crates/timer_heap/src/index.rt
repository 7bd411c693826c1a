//! Room in the index of a timer heap.
ghost use Rattle.std.specs.Prelude.{◌≡◌, ◌<◌, length, vec_len, vec_capacity};
ghost use Rattle.timer_heap.specs.Tree.{HasKeys, IsIndex};

use crate::tree::Tree;
use timer_index::Numbered;

// Makes room for one entry more, if there is none, by forgetting the entries of timers that
// left.
pub fn make_room(index: &mut Vec<Numbered>, tree: &Tree)
    requires sound { IsIndex index.old.items tree.now.slots.items tree.now.keys.items }
    requires keyed { HasKeys tree.now }
    requires room { length tree.now.slots.items < vec_capacity index.old }
    ensures sound { IsIndex index.new.items tree.now.slots.items tree.now.keys.items }
    ensures room { vec_len index.new < vec_capacity index.new }
    ensures capacity { vec_capacity index.new ≡ vec_capacity index.old }
{
    if index.len() < index.capacity() {
        return;
    }
    index.retain(|entry| tree.place_of(entry).is_some());
}

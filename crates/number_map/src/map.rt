//! The map.
ghost use Rattle.std.specs.Prelude.{◌≡◌, ◌<◌, ◌≤◌, [], None, Some, OnOk, OnErr, IfNone, length};
ghost use Rattle.std.specs.BTreeMap.{is_at, insert_entry};
ghost use Rattle.std.specs.List.Sorted.{IsStrictlySortedBy};
ghost use Rattle.std.specs.Map.{keys_of, remove_entry};
ghost use Rattle.std.specs.Ordering.{nat_cmp};
ghost use Rattle.number_map.specs.Content.{found, Updates, entries_from};

use crate::place_list::Places;
use ev_types::NoMemory;
use std::alloc::Global;
use std::marker::Model;

/// A map from numbers to values: each number below the greatest has a place, which leads to its
/// value. So a look-up takes two steps, and the memory is four bytes for each number up to the
/// greatest, and that of the most values that there were at once.
#[derive(Drop)]
pub struct NumberMap<V: Copy> {
    places: Places<V>,
}

impl<V: Copy> Model for NumberMap<V> {
    ghost use Rattle.number_map.specs.Content.{Content, entries_from};

    ghost Value = { Content V };

    ghost view = { λ m. record { entries = entries_from 0 m.places } };
}

impl<V: Copy> NumberMap<V> {
    /// An empty map, which holds no memory.
    pub fn new(alloc: Global) -> NumberMap<V>
        ensures entries { result.entries ≡ [] }
        ensures ordered { IsStrictlySortedBy nat_cmp (keys_of result.entries) }
    {
        NumberMap {
            places: Places::new(alloc),
        }
    }

    /// The value of a number.
    pub fn get(&self, number: u64) -> Option<V>
        ensures value { result ≡ found self.now number }
    {
        self.places.get(number as usize)
    }

    /// Gives a number a value, in place of one that it had. `NoMemory` comes only if it had
    /// none, and then all is as before. More values at once than 32 bits count are answered so too.
    pub fn insert(&mut self, number: u64, value: V) -> Result<(), NoMemory>
        ensures entries { OnOk result (self.new.entries ≡ insert_entry nat_cmp self.old.entries
            number value) }
        ensures updates { OnOk result (Updates self.old self.new number (Some value)) }
        ensures absent { OnErr result (found self.old number ≡ None) }
        ensures err { OnErr result (self.new.entries ≡ self.old.entries) }
        ensures ordered { IsStrictlySortedBy nat_cmp (keys_of self.new.entries) }
    {
        make_place(&mut self.places, number as usize)?;
        self.places.put(number as usize, value)?;
        Ok(())
    }

    /// Takes the value of a number away, and gives it.
    pub fn remove(&mut self, number: u64) -> Option<V>
        ensures value { result ≡ found self.old number }
        ensures entries { self.new.entries ≡ remove_entry (is_at (nat_cmp number))
            self.old.entries }
        ensures updates { Updates self.old self.new number None }
        ensures unchanged { IfNone result (self.new.entries ≡ self.old.entries) }
        ensures ordered { IsStrictlySortedBy nat_cmp (keys_of self.new.entries) }
    {
        let value = self.get(number)?;
        self.places.take(number as usize);
        Some(value)
    }

    /// Takes all values away.
    pub fn clear(&mut self)
        ensures entries { self.new.entries ≡ [] }
        ensures ordered { IsStrictlySortedBy nat_cmp (keys_of self.new.entries) }
    {
        self.places.clear();
    }
}

/// Makes a place of this number, if there is none.
fn make_place<V: Copy>(places: &mut Places<V>, place: usize) -> Result<(), NoMemory>
    ensures entries { entries_from 0 places.new ≡ entries_from 0 places.old }
    ensures there { OnOk result (place < length places.new) }
    ensures full { OnErr result (length places.old ≤ place) }
{
    if place < places.len() {
        return Ok(());
    }
    let Some(len) = place.checked_add(1) else {
        return Err(NoMemory);
    };
    places.lengthen(len)?;
    Ok(())
}

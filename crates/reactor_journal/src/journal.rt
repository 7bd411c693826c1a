//! The journal: a list of entries, with room for some more.

ghost use Rattle.std.specs.Prelude.{◌≡◌, ◌≤◌, ◌<◌, ◌+◌, ◌++◌, ◌∷◌, [], length, OnOk, OnErr, IsOk};
ghost use Rattle.std.specs.Prelude.{slice_get, Some, IsTrue, ◌↔◌};

use crate::entry::Entry;
use ev_types::NoMemory;
use std::alloc::Global;
use std::marker::Model;

/// The entries so far, in order, and room for some more, so that a step that must not fail can be
/// recorded. Contracts see the entries and the number of spare places.
#[derive(Drop)]
pub struct Journal<N> {
    entries: Vec<Entry<N>>,
}

impl<N> Model for Journal<N> {
    ghost use Rattle.std.specs.Prelude.{◌-◌, vec_len, vec_capacity};
    ghost use Rattle.reactor_journal.specs.declared.entry.Entry.{Entry};
    ghost use Rattle.reactor_journal.specs.Held.{Held};

    ghost Value = { Held (Entry N) };

    ghost view = { λ j. record {
      entries = j.entries.items;
      spare = vec_capacity j.entries - vec_len j.entries;
    } };
}

impl<N> Journal<N> {
    /// The empty journal. It takes no memory.
    pub fn new(alloc: Global) -> Journal<N>
        ensures { result.entries ≡ [] }
    {
        Journal {
            entries: Vec::new(alloc),
        }
    }

    /// Makes the spare places at least `n`. If there is that much room already it takes no
    /// memory and answers Ok; after a refusal nothing has changed.
    pub fn reserve(&mut self, n: usize) -> Result<(), NoMemory>
        ensures entries { self.new.entries ≡ self.old.entries }
        ensures room { OnOk result (n ≤ self.new.spare) }
        ensures kept { self.old.spare ≤ self.new.spare }
        ensures at_once { n ≤ self.old.spare → IsOk result }
        ensures err { OnErr result (self.new ≡ self.old) }
    {
        self.entries.reserve(n)?;
        Ok(())
    }

    /// Adds an entry at the end, in a spare place. It takes no memory.
    pub fn append(&mut self, entry: Entry<N>)
        requires { 1 ≤ self.old.spare }
        ensures entries { self.new.entries ≡ self.old.entries ++ entry ∷ [] }
        ensures spare { self.new.spare + 1 ≡ self.old.spare }
    {
        self.entries.push_reserved(entry);
    }

    /// How many entries there are.
    pub fn len(&self) -> u64
        ensures { result ≡ length self.now.entries }
    {
        self.entries.len() as u64
    }

    /// Whether there are none.
    pub fn is_empty(&self) -> bool
        ensures { IsTrue result ↔ (self.now.entries ≡ []) }
    {
        self.entries.is_empty()
    }

    /// The entry of this number.
    pub fn entry(&self, at: u64) -> &Entry<N>
        requires { at < length self.now.entries }
        ensures { slice_get self.now.entries at ≡ Some result.now }
    {
        &self.entries[at as usize]
    }

    /// The entries in order.
    pub fn as_slice(&self) -> &[Entry<N>]
        ensures { result.now ≡ self.now.entries }
    {
        self.entries.as_slice()
    }

    /// The entries in order, to keep. It takes no memory.
    pub fn into_vec(self) -> Vec<Entry<N>>
        ensures { result.items ≡ self.entries }
    {
        self.entries
    }
}

//! Places, of which some have a value.
ghost use Rattle.std.specs.Prelude.{◌≡◌, ◌<◌, ◌≤◌, ◌-◌, ◌++◌, [], None, Some, OnOk, OnErr, IsSome};
ghost use Rattle.std.specs.Prelude.{length, get_or, set, replicate};
ghost use Rattle.number_map.specs.Held.{is_own, own};
ghost use Rattle.std.specs.List.{slice_get};

use ev_types::NoMemory;
use std::alloc::Global;
use std::marker::Model;

/// A list of places, each with a value or without. The values are held one after another, each
/// with the number of its place, and each place has the index at which its value is held. If it
/// has none, what that index leads to is the value of another place, or nothing. So a place without
/// a value takes four bytes.
#[derive(Drop)]
pub(crate) struct Places<V: Copy> {
    leads: Vec<u32>,
    held: Vec<(u64, V)>,
}

impl<V: Copy> Model for Places<V> {
    ghost use Rattle.std.specs.Prelude.{List, Option};
    ghost use Rattle.number_map.specs.Held.{values_from, IsLed};

    ghost Value = { List (Option V) };

    ghost view = { λ p. values_from p.held.items 0 p.leads.items };

    ghost invariant = { λ p. IsLed p.leads.items p.held.items };
}

/// Whether a value of the place is held at the index.
fn is_own<V: Copy>(held: &[(u64, V)], index: usize, place: usize) -> bool
    ensures { result ≡ is_own place (slice_get held.now index) }
{
    match held.get(index) {
        Some((number, _)) => *number == place as u64,
        None => false,
    }
}

/// The value of the place, if it is held at the index.
fn own<V: Copy>(held: &[(u64, V)], index: usize, place: usize) -> Option<V>
    ensures { result ≡ own place (slice_get held.now index) }
{
    match held.get(index) {
        Some((number, value)) if *number == place as u64 => Some(*value),
        _ => None,
    }
}

impl<V: Copy> Places<V> {
    /// No places, which hold no memory.
    pub(crate) fn new(alloc: Global) -> Places<V>
        ensures { result ≡ [] }
    {
        Places {
            leads: Vec::new(alloc),
            held: Vec::new(alloc),
        }
    }

    /// How many places there are.
    pub(crate) fn len(&self) -> usize
        ensures { result ≡ length self.now }
    {
        self.leads.len()
    }

    /// The value of a place.
    pub(crate) fn get(&self, place: usize) -> Option<V>
        ensures { result ≡ get_or self.now place None }
    {
        match self.leads.get(place) {
            Some(lead) => own(&self.held, *lead as usize, place),
            None => None,
        }
    }

    /// Gives a place a value, in place of one that it had. `NoMemory` comes only if it had none.
    pub(crate) fn put(&mut self, place: usize, value: V) -> Result<(), NoMemory>
        requires { place < length self.old }
        ensures ok { OnOk result (self.new ≡ set self.old place (Some value)) }
        ensures err { OnErr result (self.new ≡ self.old) }
        ensures absent { OnErr result (get_or self.old place None ≡ None) }
    {
        let index = self.leads[place] as usize;
        if is_own(&self.held, index, place) {
            self.held[index] = (place as u64, value);
            return Ok(());
        }
        let Ok(lead) = u32::try_from(self.held.len()) else {
            return Err(NoMemory);
        };
        self.held.push((place as u64, value))?;
        self.leads[place] = lead;
        Ok(())
    }

    /// Takes the value of a place away, which it has. The value that is held last is held in its
    /// stead.
    pub(crate) fn take(&mut self, place: usize)
        requires there { place < length self.old }
        requires held { IsSome (get_or self.old place None) }
        ensures { self.new ≡ set self.old place None }
    {
        let lead = self.leads[place];
        if let Some(last) = self.held.pop() {
            if (lead as usize) < self.held.len() {
                self.held[lead as usize] = last;
                self.leads[last.0 as usize] = lead;
            }
        }
    }

    /// Adds places without a value, up to so many in all.
    pub(crate) fn lengthen(&mut self, len: usize) -> Result<(), NoMemory>
        requires { length self.old ≤ len }
        ensures ok { OnOk result (self.new ≡ self.old ++ replicate (len - length self.old) None) }
        ensures err { OnErr result (self.new ≡ self.old) }
    {
        self.leads.resize(len, 0)?;
        Ok(())
    }

    /// Takes all places away.
    pub(crate) fn clear(&mut self)
        ensures { self.new ≡ [] }
    {
        self.leads.clear();
        self.held.clear();
    }
}

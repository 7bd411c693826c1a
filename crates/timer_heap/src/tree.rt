//! The heap itself: its timers, and the keys by which their places are known.
ghost use Rattle.std.specs.Prelude.{◌≡◌, ◌≢◌, ◌+◌, ◌-◌, ◌<◌, ◌≤◌, ◌⊎◌, ℕ, length, slice_index_or};
ghost use Rattle.std.specs.Prelude.{slice_index, IfSome, IfNone, vec_capacity, true, swap, [], ◌∷◌};
ghost use Rattle.std.specs.Prelude.{◌++◌};
ghost use Rattle.std.specs.List.Sorted.{IsPermutation};
ghost use Rattle.timer_queue.specs.declared.timer.Timer.{Timer};
ghost use Rattle.timer_queue.specs.Timers.{comes_before, AreApart};
ghost use Rattle.timer_heap.specs.Heap.{parent, IsHeap, OnPath};
ghost use Rattle.timer_heap.specs.Tree.{StaysClear, HasKeys, KeepsRoom, AreMoved, IsHeapBelow};
ghost use Rattle.timer_heap.specs.Tree.{IsHeapAbove, IsHeapAround, ArePairs, place_in};

use timer_index::Numbered;
use timer_queue::Timer;

/// The timers of a heap, with a key for each place.
#[derive(Drop)]
pub struct Tree {
    // The heap.
    pub slots: Vec<Timer>,
    // The key of the timer at each place, and after those the keys that are free.
    pub keys: Vec<usize>,
    // The place of each key.
    pub places: Vec<usize>,
}

impl Tree {
    /// Exchanges the timers at two places, and their keys.
    fn exchange(&mut self, a: usize, b: usize)
        requires keyed { HasKeys self.old }
        requires a_within { a < length self.old.slots.items }
        requires b_within { b < length self.old.slots.items }
        ensures slots { self.new.slots.items ≡ swap self.old.slots.items a b }
        ensures keys { self.new.keys.items ≡ swap self.old.keys.items a b }
        ensures keyed { HasKeys self.new }
        ensures room { KeepsRoom self.old self.new }
    {
        self.slots.swap(a, b);
        self.keys.swap(a, b);
        self.places[self.keys[a]] = a;
        self.places[self.keys[b]] = b;
    }

    /// Moves the timer at a place up until it comes after its parent.
    pub(crate) fn sift_up(&mut self, from: usize)
        requires keyed { HasKeys self.old }
        requires within { from < length self.old.slots.items }
        requires apart { AreApart self.old.slots.items }
        requires heap { IsHeapBelow self.old.slots.items from }
        ensures heap { IsHeap self.new.slots.items }
        ensures path { (k : ℕ) (d : Timer) → (OnPath k from → ⊥)
            → slice_index_or self.new.slots.items k d ≡ slice_index_or self.old.slots.items k d }
        ensures moved { AreMoved self.old.slots.items self.new.slots.items self.old.keys.items
            self.new.keys.items }
        ensures keyed { HasKeys self.new }
        ensures room { KeepsRoom self.old self.new }
    {
        let mut at = from;
        while at > 0 {
            let above = (at - 1) / 2;
            if !self.slots[at].comes_before(&self.slots[above]) {
                return;
            }
            self.exchange(at, above);
            at = above;
        }
    }

    /// Moves the timer at a place down until it comes before its children.
    pub(crate) fn sift_down(&mut self, from: usize)
        requires keyed { HasKeys self.old }
        requires within { from < length self.old.slots.items }
        requires apart { AreApart self.old.slots.items }
        requires heap { IsHeapAbove self.old.slots.items from }
        ensures heap { IsHeap self.new.slots.items }
        ensures clear { StaysClear self.old.slots.items from self.new.slots.items from }
        ensures moved { AreMoved self.old.slots.items self.new.slots.items self.old.keys.items
            self.new.keys.items }
        ensures keyed { HasKeys self.new }
        ensures room { KeepsRoom self.old self.new }
    {
        let mut at = from;
        while let Some(child) = first_child(&self.slots, at) {
            if self.slots[at].comes_before(&self.slots[child]) {
                return;
            }
            self.exchange(at, child);
            at = child;
        }
    }

    /// Moves a timer that stands in another's place up or down.
    fn settle(&mut self, place: usize)
        requires keyed { HasKeys self.old }
        requires within { place < length self.old.slots.items }
        requires apart { AreApart self.old.slots.items }
        requires heap { IsHeapAround self.old.slots.items place }
        ensures heap { IsHeap self.new.slots.items }
        ensures clear { StaysClear self.old.slots.items place self.new.slots.items (place + 1) }
        ensures moved { AreMoved self.old.slots.items self.new.slots.items self.old.keys.items
            self.new.keys.items }
        ensures keyed { HasKeys self.new }
        ensures room { KeepsRoom self.old self.new }
    {
        if place > 0 && self.slots[place].comes_before(&self.slots[(place - 1) / 2]) {
            self.sift_up(place);
            return;
        }
        self.sift_down(place);
    }

    /// Takes the timer at a place out, and puts the last in its place.
    fn replace_by_last(&mut self, place: usize) -> Timer
        requires keyed { HasKeys self.old }
        requires within { place < length self.old.slots.items }
        requires heap { IsHeap self.old.slots.items }
        ensures taken { (d : Timer) → result ≡ slice_index_or self.old.slots.items place d }
        ensures slots { IsPermutation self.old.slots.items (result ∷ self.new.slots.items) }
        ensures heap { IsHeapAround self.new.slots.items place }
        ensures clear { StaysClear self.old.slots.items (place + 1) self.new.slots.items place }
        ensures pairs { ArePairs self.old.slots.items self.new.slots.items self.old.keys.items
            self.new.keys.items }
        ensures keyed { HasKeys self.new }
        ensures keys { length self.new.keys.items ≡ length self.old.keys.items }
        ensures room { KeepsRoom self.old self.new }
    {
        let last = self.slots.len() - 1;
        self.exchange(place, last);
        match self.slots.pop() {
            Some(t) => t,
            None => unreachable!(),
        }
    }

    /// Takes the timer at a place out.
    pub(crate) fn take_out(&mut self, place: usize) -> Timer
        requires keyed { HasKeys self.old }
        requires within { place < length self.old.slots.items }
        requires apart { AreApart self.old.slots.items }
        requires heap { IsHeap self.old.slots.items }
        ensures taken { (d : Timer) → result ≡ slice_index_or self.old.slots.items place d }
        ensures slots { IsPermutation self.old.slots.items (result ∷ self.new.slots.items) }
        ensures heap { IsHeap self.new.slots.items }
        ensures clear { StaysClear self.old.slots.items (place + 1) self.new.slots.items
            (place + 1) }
        ensures pairs { ArePairs self.old.slots.items self.new.slots.items self.old.keys.items
            self.new.keys.items }
        ensures keyed { HasKeys self.new }
        ensures keys { length self.new.keys.items ≡ length self.old.keys.items }
        ensures room { KeepsRoom self.old self.new }
    {
        let t = self.replace_by_last(place);
        if place >= self.slots.len() {
            return t;
        }
        self.settle(place);
        t
    }

    /// Adds a timer, after the last and then up.
    pub(crate) fn add(&mut self, t: Timer)
        requires keyed { HasKeys self.old }
        requires room { length self.old.slots.items < length self.old.keys.items }
        requires capacity { length self.old.keys.items ≤ vec_capacity self.old.slots }
        requires apart { AreApart (self.old.slots.items ++ t ∷ []) }
        requires heap { IsHeap self.old.slots.items }
        ensures heap { IsHeap self.new.slots.items }
        ensures path { (k : ℕ) (d : Timer) → k < length self.old.slots.items
            → (OnPath k (length self.old.slots.items) → ⊥)
            → slice_index_or self.new.slots.items k d ≡ slice_index_or self.old.slots.items k d }
        ensures moved { AreMoved (self.old.slots.items ++ t ∷ []) self.new.slots.items
            self.old.keys.items self.new.keys.items }
        ensures keyed { HasKeys self.new }
        ensures room { KeepsRoom self.old self.new }
    {
        let last = self.slots.len();
        self.slots.push_reserved(t);
        self.sift_up(last);
    }

    /// The place of an entry's timer, if the heap has it.
    pub(crate) fn place_of(&self, entry: &Numbered) -> Option<usize>
        ensures { result ≡ place_in self.now.slots.items self.now.places.items entry.now }
    {
        let place = *self.places.get(entry.key as usize)?;
        let t = self.slots.get(place)?;
        if t.timer == entry.timer {
            Some(place)
        } else {
            None
        }
    }

    /// Makes keys up to this number. Their places are free.
    pub(crate) fn make_keys(&mut self, end: usize)
        requires keyed { HasKeys self.old }
        requires places { length self.old.places.items ≡ length self.old.keys.items }
        requires more { length self.old.keys.items ≤ end }
        requires keys_room { end ≤ vec_capacity self.old.keys }
        requires places_room { end ≤ vec_capacity self.old.places }
        ensures slots { self.new.slots ≡ self.old.slots }
        ensures keyed { HasKeys self.new }
        ensures keys { length self.new.keys.items ≡ end }
        ensures places { length self.new.places.items ≡ end }
        ensures kept { (k : ℕ) → k < length self.old.keys.items
            → slice_index self.new.keys.items k ≡ slice_index self.old.keys.items k }
    {
        for key in self.keys.len()..end {
            self.keys.push_reserved(key);
            self.places.push_reserved(key);
        }
    }
}

// The child of a place that comes before the other.
fn first_child(slots: &[Timer], at: usize) -> Option<usize>
    requires within { at < length slots.now }
    requires apart { AreApart slots.now }
    ensures none { IfNone result ((k : ℕ) → 0 < k → k < length slots.now → parent k ≢ at) }
    ensures child { IfSome result (λ c. (0 < c) × (c < length slots.now) × (parent c ≡ at)) }
    ensures first { IfSome result (λ c. (k : ℕ) (d : Timer) → 0 < k → k < length slots.now
        → parent k ≡ at → k ≢ c → comes_before (slice_index_or slots.now c d)
        (slice_index_or slots.now k d) ≡ true) }
{
    let left = 2 * at + 1;
    if left >= slots.len() {
        return None;
    }
    let right = left + 1;
    if right < slots.len() && slots[right].comes_before(&slots[left]) {
        Some(right)
    } else {
        Some(left)
    }
}

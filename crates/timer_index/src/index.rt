//! Keys by the numbers of timers, in rising order of the numbers.
ghost use Rattle.std.specs.Prelude.{◌≡◌, ◌≢◌, ◌<◌, ◌≤◌, ℕ, AllPairs, Contains, All, MatchOption};
ghost use Rattle.std.specs.Prelude.{length, vec_len, vec_capacity};
ghost use Rattle.std.specs.List.{AllWithin};
ghost use Rattle.std.specs.List.Sorted.{IsPermutation};
ghost use Rattle.timer_index.specs.declared.index.Numbered.{Numbered};
ghost use Rattle.timer_index.specs.Index.{IsRising};

/// A timer's number, with the key by which its queue finds it.
#[derive(Clone, Copy)]
pub struct Numbered {
    pub timer: u64,
    pub key: u64,
}

// The place of the first number that is not below this one. As timers are numbered in the order in
// which they are first scheduled, most numbers are above all that are there.
fn first_from(index: &[Numbered], timer: u64) -> usize
    requires { IsRising index.now }
    ensures bound { result ≤ length index.now }
    ensures below { AllWithin (λ e. e.timer < timer) index.now 0 result }
    ensures above { AllWithin (λ e. timer ≤ e.timer) index.now result (length index.now) }
{
    match index.last() {
        Some(last) if last.timer < timer => index.len(),
        _ => index.partition_point(|e| e.timer < timer),
    }
}

/// The entry of this number.
pub fn entry_of(index: &[Numbered], timer: u64) -> Option<Numbered>
    requires { IsRising index.now }
    ensures { MatchOption result (All (λ e. e.timer ≢ timer) index.now)
        (λ entry. (entry.timer ≡ timer) × ((key : ℕ)
        → Contains index.now (record { timer = timer; key = key }) → key ≡ entry.key)) }
{
    let place = first_from(index, timer);
    if place < index.len() && index[place].timer == timer {
        Some(index[place])
    } else {
        None
    }
}

/// Puts an entry in, in place of one that has its number.
pub fn put(index: &mut Vec<Numbered>, entry: Numbered)
    requires rising { IsRising index.old.items }
    requires room { vec_len index.old < vec_capacity index.old }
    ensures rising { IsRising index.new.items }
    ensures there { Contains index.new.items entry }
    ensures others { (e : Numbered) → e.timer ≢ entry.timer → Contains index.old.items e
        → Contains index.new.items e }
    ensures capacity { vec_capacity index.old ≤ vec_capacity index.new }
{
    let place = first_from(index, entry.timer);
    if place < index.len() && index[place].timer == entry.timer {
        index[place] = entry;
        return;
    }
    match index.insert(place, entry) {
        Ok(()) => {}
        Err(_) => unreachable!(),
    }
}

/// Puts entries in order, no two of which have one number.
pub fn sort(index: &mut Vec<Numbered>)
    requires apart { AllPairs (λ e f. e.timer ≢ f.timer) index.old.items }
    ensures rising { IsRising index.new.items }
    ensures entries { IsPermutation index.old.items index.new.items }
    ensures capacity { vec_capacity index.new ≡ vec_capacity index.old }
{
    index.sort_unstable_by_key(|e| e.timer);
}

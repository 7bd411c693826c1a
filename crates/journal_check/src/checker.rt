//! The summary of the entries that were read, with what is to be started next and which handles
//! wait for their close.

ghost use Rattle.std.specs.Prelude.{◌≡◌, ◌<◌, ◌+◌, ◌^◌, [], true, false, Some, OnOk, ℕ};
ghost use Rattle.std.specs.Prelude.{if◌then◌else◌};
ghost use Rattle.std.specs.BTreeSet.{contains};
ghost use Rattle.std.specs.Ordering.{nat_cmp, is_eq};
ghost use Rattle.reactor_journal.specs.declared.entry.Entry.{Entry};
ghost use Rattle.reactor_summary.specs.Summary as S;
ghost use Rattle.reactor_summary.specs.Rules as R;
ghost use Rattle.journal_check.specs.Fronts as K;
ghost use Rattle.journal_check.specs.Fronts.{AreUpToDate};
ghost use Rattle.journal_check.specs.Index.{pair_cmp};
ghost use Rattle.journal_check.specs.Next.{IsNext};
ghost use Rattle.journal_check.specs.Small.{IsSmall};
ghost use Rattle.journal_check.specs.Sound.{IsSound};

use crate::machine::{Machine, Next};
use ev_types::{Handle, NoMemory};
use reactor_journal::Entry;
use std::alloc::Global;
use std::collections::BTreeSet;

/// The summary, the class and number of the event that goes first of each handle that is free, and
/// the handles that wait for their close.
#[derive(Drop)]
pub struct Checker {
    pub machine: Machine,
    pub fronts: BTreeSet<(u128, u64)>,
    pub closing: BTreeSet<u64>,
}

/// Takes a key away, if there is one.
fn drop_key(keys: &mut BTreeSet<(u128, u64)>, key: Option<(u128, u64)>)
    ensures { K.Drops key (contains pair_cmp keys.old) (contains pair_cmp keys.new) }
{
    if let Some(key) = key {
        let _ = keys.remove(&key);
    }
}

/// Adds a key, if there is one.
fn add_key(keys: &mut BTreeSet<(u128, u64)>, key: Option<(u128, u64)>) -> Result<(), NoMemory>
    ensures { OnOk result (K.Adds key (contains pair_cmp keys.old) (contains pair_cmp keys.new)) }
{
    if let Some(key) = key {
        keys.insert(key)?;
    }
    Ok(())
}

/// Whether both are the same key, or there is none.
fn is_same(a: Option<(u128, u64)>, b: Option<(u128, u64)>) -> bool
    ensures { result ≡ true → a ≡ b }
{
    match (a, b) {
        (None, None) => true,
        (Some(x), Some(y)) => x.0 == y.0 && x.1 == y.1,
        _ => false,
    }
}

/// Puts a key in the place of another, if they are not the same.
fn replace_key(
    keys: &mut BTreeSet<(u128, u64)>,
    before: Option<(u128, u64)>,
    after: Option<(u128, u64)>,
) -> Result<(), NoMemory>
    ensures { ((key : ℕ × ℕ) → before ≡ Some key → contains pair_cmp keys.old key ≡ true)
        → OnOk result (K.Replaces before after (contains pair_cmp keys.old)
        (contains pair_cmp keys.new)) }
{
    if is_same(before, after) {
        return Ok(());
    }
    drop_key(keys, before);
    add_key(keys, after)
}

/// Puts a handle in or takes it out.
fn mark(handles: &mut BTreeSet<u64>, handle: Handle, there: bool) -> Result<(), NoMemory>
    ensures { OnOk result ((x : ℕ) → contains nat_cmp handles.new x
        ≡ (if is_eq (nat_cmp handle.0 x) then there else contains nat_cmp handles.old x)) }
{
    if there {
        handles.insert(handle.0)?;
    } else {
        let _ = handles.remove(&handle.0);
    }
    Ok(())
}

/// Puts a handle in or takes it out, if that changes something.
fn mark_changed(
    handles: &mut BTreeSet<u64>,
    handle: Handle,
    before: bool,
    after: bool,
) -> Result<(), NoMemory>
    ensures { contains nat_cmp handles.old handle.0 ≡ before
        → OnOk result ((x : ℕ) → contains nat_cmp handles.new x
        ≡ (if is_eq (nat_cmp handle.0 x) then after else contains nat_cmp handles.old x)) }
{
    if before == after {
        return Ok(());
    }
    mark(handles, handle, after)
}

impl Checker {
    /// That of no entries.
    pub fn new(alloc: Global) -> Checker
        ensures machine { result.machine ≡ S.nothing }
        ensures index { AreUpToDate result }
    {
        Checker {
            machine: Machine::new(alloc),
            fronts: BTreeSet::new(alloc),
            closing: BTreeSet::new(alloc),
        }
    }

    /// The number of the event to be started next.
    fn pick(&self) -> Option<u64>
        ensures { AreUpToDate self.now → IsSound self.now.machine
            → result ≡ K.pick_number self.now.machine }
    {
        match self.fronts.first() {
            Some(key) => Some(key.1),
            None => None,
        }
    }

    /// Whether some handle waits for its close.
    fn some_wait(&self) -> bool
        ensures { AreUpToDate self.now → result ≡ S.some_wait self.now.machine }
    {
        match self.closing.first() {
            Some(_) => true,
            None => false,
        }
    }

    /// Whether the entry may follow. `due` says whether a timer may come due now, and `ready`
    /// whether a report may come now.
    pub fn may_follow<N>(&self, due: bool, ready: bool, entry: &Entry<N>, most: u64) -> bool
        ensures { AreUpToDate self.now → IsSound self.now.machine
            → result ≡ R.may_follow most due ready self.now.machine entry.now }
    {
        let next = Next {
            due,
            ready,
            pick: self.pick(),
            waits: self.some_wait(),
        };
        self.machine.may_follow(&next, entry, most)
    }

    fn step_at<N>(&mut self, handle: Handle, entry: &Entry<N>) -> Result<(), NoMemory>
        requires small { IsSmall self.old.machine }
        requires due { (timer : ℕ) → entry.now ≡ Entry.Due timer
            → S.is_first_due self.old.machine timer ≡ true }
        ensures machine { IsSound self.old.machine → IsNext self.old.machine entry.now
            → OnOk result (self.new.machine ≡ S.step self.old.machine entry.now) }
        ensures index { AreUpToDate self.old → IsSound self.old.machine
            → IsNext self.old.machine entry.now → IsSound (S.step self.old.machine entry.now)
            → K.IsAbout self.old.machine entry.now (Some handle)
            → OnOk result (AreUpToDate self.new) }
    {
        let before = self.machine.front_key(handle);
        let waited = self.machine.waits(handle);
        self.machine.step(entry)?;
        let after = self.machine.front_key(handle);
        replace_key(&mut self.fronts, before, after)?;
        let waits = self.machine.waits(handle);
        mark_changed(&mut self.closing, handle, waited, waits)
    }

    /// Reads one more entry, which may follow.
    pub fn step<N>(&mut self, entry: &Entry<N>) -> Result<(), NoMemory>
        requires small { IsSmall self.old.machine }
        requires due { (timer : ℕ) → entry.now ≡ Entry.Due timer
            → S.is_first_due self.old.machine timer ≡ true }
        ensures machine { IsSound self.old.machine → IsNext self.old.machine entry.now
            → OnOk result (self.new.machine ≡ S.step self.old.machine entry.now) }
        ensures index { AreUpToDate self.old → IsSound self.old.machine
            → IsNext self.old.machine entry.now → IsSound (S.step self.old.machine entry.now)
            → OnOk result (AreUpToDate self.new) }
    {
        match self.machine.about(entry) {
            None => self.machine.step(entry),
            Some(handle) => self.step_at(handle, entry),
        }
    }
}

//! Keepers of volumes: a long run cannot keep its whole journal, so full parts of it are handed
//! over.
ghost use Rattle.std.specs.Prelude.{◌≡◌, [], Some, ◌↔◌};

use ghost_log::Tally;
use reactor_journal::{Entry, Journal};
use std::alloc::Global;

/// Why a volume was not taken.
#[derive(Clone, Copy, PartialEq, Eq, Debug)]
pub enum TakeRefused {
    /// The keeper failed, and its count of faults rose.
    Failed,
    /// There was no memory for the volume.
    NoMemory,
}

/// Takes the volumes of a journal in order, and of another journal after it. It has a count of
/// faults that never falls, and if it tells them, a list of all entries that it took.
pub trait Volumes<N> {
    ghost use Rattle.reactor_model.specs.Volumes.{VolumesFacts, IsNext, IsSize, BeginsJournal};
    ghost use Rattle.reactor_model.specs.Volumes.{TakesVolume};

    /// What contracts see of it.
    ghost facts: { Self → VolumesFacts N };

    /// How many entries make a volume, from 1 to 2^62: the same at each call.
    fn volume_size(&self) -> u64
        ensures size { result ≡ (facts self.now).size }
        ensures within { IsSize result };

    /// Begins another journal: the entry with the number 0 is next. What was taken before stays.
    fn begin(&mut self)
        ensures { BeginsJournal (facts self.old) (facts self.new) };

    /// Takes a volume whose first entry has the number `first` in its journal, which is that of the
    /// first entry not taken yet. After a refusal nothing was taken, and the volume comes back;
    /// `Failed` comes only if the count of faults rose.
    fn take(&mut self, first: u64, volume: Journal<N>) -> Result<(), (Journal<N>, TakeRefused)>
        requires next { IsNext (facts self.old).next first }
        ensures takes { TakesVolume (facts self.old) volume result (facts self.new) };
}

/// A keeper in memory, which tells its entries. The takes that are named by their numbers, from 0,
/// fail. A volume has 65,536 entries.
#[derive(Drop)]
pub struct MemVolumes<N> {
    entries: Vec<Entry<N>>,
    // The number of the first entry of the present journal that it has not taken.
    next: Tally,
    fails: Vec<u64>,
    takes: u64,
    faults: u64,
}

impl<N> MemVolumes<N> {
    ghost use Rattle.reactor_model.specs.MemVolumes.{mem_volumes_facts, takes_of, fails_of};

    /// A keeper that has taken nothing. The takes whose numbers stand in `fails` are to fail. It
    /// takes no memory.
    pub fn new(alloc: Global, fails: Vec<u64>) -> MemVolumes<N>
        ensures facts { mem_volumes_facts result ≡ record {
          faults = 0;
          taken = Some [];
          next = Some 0;
          size = 65536;
        } }
        ensures takes { takes_of result ≡ 0 }
        ensures fails { fails_of result ≡ fails.items }
    {
        MemVolumes {
            entries: Vec::new(alloc),
            next: Tally::none(),
            fails,
            takes: 0,
            faults: 0,
        }
    }

    /// All entries that it took, in order.
    pub fn entries(&self) -> &[Entry<N>]
        ensures { (mem_volumes_facts self.now).taken ≡ Some result.now }
    {
        &self.entries
    }
}

impl<N> Volumes<N> for MemVolumes<N> {
    ghost use Rattle.ev_base.specs.Counts.{counted};
    ghost use Rattle.reactor_model.specs.Volumes.{IsNext, BeginsJournal, TakesVolume};
    ghost use Rattle.reactor_model.specs.MemVolumes.{mem_volumes_facts, takes_of, fails_of};
    ghost use Rattle.reactor_model.specs.MemVolumes.{FailsNow, IsFailure};

    ghost facts = { mem_volumes_facts };

    fn volume_size(&self) -> u64 {
        65_536
    }

    fn begin(&mut self)
        ensures begins { BeginsJournal (mem_volumes_facts self.old) (mem_volumes_facts self.new) }
        ensures number { takes_of self.new ≡ takes_of self.old }
        ensures fails { fails_of self.new ≡ fails_of self.old }
    {
        self.next = Tally::none();
    }

    fn take(&mut self, _first: u64, volume: Journal<N>) -> Result<(), (Journal<N>, TakeRefused)>
        requires next { IsNext (mem_volumes_facts self.old).next _first }
        ensures takes { TakesVolume (mem_volumes_facts self.old) volume result
            (mem_volumes_facts self.new) }
        ensures failed { IsFailure result ↔ FailsNow self.old }
        ensures number { takes_of self.new ≡ counted (takes_of self.old) }
        ensures fails { fails_of self.new ≡ fails_of self.old }
    {
        let number = self.takes;
        self.takes = number.saturating_add(1);
        if self.fails.contains(&number) {
            self.faults = self.faults.saturating_add(1);
            return Err((volume, TakeRefused::Failed));
        }
        if self.entries.reserve(volume.as_slice().len()).is_err() {
            return Err((volume, TakeRefused::NoMemory));
        }
        self.next.add(volume.as_slice().len());
        let mut more = volume.into_vec();
        match self.entries.append(&mut more) {
            Ok(()) => more.destroy_empty(),
            Err(_) => unreachable!("the room was reserved"),
        }
        Ok(())
    }
}

/// A keeper that lets its volumes go. It tells nothing, counts nothing and never fails. A volume
/// has 512 entries.
#[derive(Clone, Copy, PartialEq, Eq, Debug)]
pub struct DropVolumes;

impl<N: Drop> Volumes<N> for DropVolumes {
    ghost use Rattle.reactor_model.specs.Volumes.{TakesVolume, tells_nothing};

    ghost facts = { λ _. tells_nothing };

    fn volume_size(&self) -> u64 {
        512
    }

    fn begin(&mut self) {}

    fn take(&mut self, _first: u64, volume: Journal<N>) -> Result<(), (Journal<N>, TakeRefused)>
        ensures { TakesVolume tells_nothing volume result tells_nothing }
    {
        drop(volume);
        Ok(())
    }
}

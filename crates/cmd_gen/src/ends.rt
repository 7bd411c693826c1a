//! How a run over a generated script ends, and what it leaves.
use cmd_replay::{Journal, ServerNote};

/// How a run over a generated script ended. Of several faults the first in this order is told.
#[derive(Clone, Copy, PartialEq, Eq, Debug)]
pub enum GenerateEnd {
    /// Nothing could be reported any more. All of the summary was written.
    Done,
    /// A write of the summary failed, after which nothing was written.
    WriteFault,
    /// There was no memory, or entries were handed over, so that the summary could not be made.
    /// Nothing was written.
    NoMemory,
    /// A volume of the journal was not taken. Nothing was written.
    VolumeFault,
}

/// What a run over a generated script leaves.
#[derive(Drop)]
pub struct Generated<K, V> {
    /// How it ended.
    pub end: GenerateEnd,
    /// The entries of its journal that were not handed over, from number `first` on.
    pub journal: Journal<ServerNote>,
    /// How many entries were handed over.
    pub first: u64,
    /// The sink that was handed in.
    pub output: K,
    /// The keeper of volumes that was handed in.
    pub volumes: V,
}

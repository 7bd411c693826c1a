//! What a run of the program leaves.
ghost use Rattle.logging_server.specs.Commands.{IsUntouched};
ghost use Rattle.std.specs.Prelude.{◌≡◌};

use log_handler::ServerNote;
use reactor_model::Journal;
use std::alloc::Global;

/// What a run of the program leaves.
#[derive(Drop)]
pub struct Served<K, S, M, V> {
    /// How it ended: 0 done, 1 usage, 2 bad text, 3 read failed, 4 write failed, 5 wait failed, 6
    /// out of memory, 7 listen failed, 8 bad record, 10 illegal entry, 11 too much input, 12 volume
    /// failed.
    pub status: u8,
    /// The entries of the reactor's journal that were not handed over to the volumes, from number
    /// `first` on. If no reactor was made there are none.
    pub journal: Journal<ServerNote>,
    /// How many entries were handed over.
    pub first: u64,
    /// The source that was handed in.
    pub input: S,
    /// The sink that was handed in.
    pub output: K,
    /// The net that the host gave in this call, as it stands after the run: none if `listen`
    /// was not called, or was refused.
    pub net: Option<M>,
    /// The keeper of volumes that was handed in.
    pub volumes: V,
    /// The number of the status: at 2 the line, from 1, at 8 the offset of the record in bytes, at
    /// 10 the number of the entry, at 11 how many bytes were read, else 0.
    pub at: u64,
}

impl<K, S, M, V> Served<K, S, M, V> {
    /// What is left if nothing was done.
    pub(crate) fn untouched(
        alloc: Global,
        status: u8,
        input: S,
        output: K,
        volumes: V,
    ) -> Served<K, S, M, V>
        ensures status { result.status ≡ status }
        ensures untouched { IsUntouched input output volumes result }
    {
        Served {
            status,
            journal: Journal::new(alloc),
            first: 0,
            input,
            output,
            net: None,
            volumes,
            at: 0,
        }
    }
}

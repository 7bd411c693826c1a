//! The top call of the command.
ghost use Rattle.std.specs.Prelude.{◌≡◌, ◌⊎◌, [], None, Some, map};
ghost use Rattle.std.specs.String.{string_bytes};
ghost use Rattle.aio_words.specs.declared.words.AioWords.{AioWords};
ghost use Rattle.exit_status.specs.Statuses.{code_of};
ghost use Rattle.cmd_aio.specs.Statuses.{IsUnbegun, RunsCommand, served_by};
ghost use Rattle.cmd_aio.specs.Words.{called};

use crate::ending::Ran;
use crate::running::serve_host;
use crate::{AioCore, read_words};
use ev_base::{Host, Sink};
use exit_status::Status;
use proactor::AioNote;
use reactor_core::Means;
use reactor_model::Journal;
use std::alloc::Global;
use std::sync::Wait;

/// What the command leaves.
#[derive(Drop)]
pub struct AioServed<M, K> {
    /// 0 if the run ended as it was asked to; 1 if the words do not call the command; 4 if a write
    /// of the output failed; 5 if a wait of the net failed, or its attach of the listener; 6 if
    /// there was no memory; 7 if the host could not listen. Of several faults of a run the least.
    pub status: u8,
    /// The net that the host gave, if it listened.
    pub net: Option<M>,
    /// The end of the run's journal: the entries that were not let go. It is empty if no reactor
    /// was made.
    pub journal: Journal<AioNote>,
    /// The sink that was handed in.
    pub output: K,
}

/// Runs `logd aio` (POSA2, Proactor): the host listens on the port, and each connection that comes
/// gets back what it sends. A read is asked for; when it has completed, a write of its bytes is;
/// and when that has completed, the next read. A connection is closed at the end of its input, or
/// if an operation failed.
///
/// `words` are those after the program's name: `aio --port P [--until N]`. At most 1,000
/// connections are live at once; one more is refused. When a connection is closed or refused the
/// line `{conn} read {R} wrote {W} cancelled {C}` is written: its number from 0, in the order in
/// which they came, how many bytes were read and written, and how many operations were cancelled.
/// Without `--until` the run goes on until the net has nothing to report any more, and with it
/// until so many connections were closed or refused. Connections that are open then are closed, by
/// rising number. Each wait lasts until something is reported: it has no limit.
///
/// With the statuses 1 and 7 nothing is written. With 4 the lines end at the failed write; with 0,
/// 5 and 6 each stands whole.
pub fn aio_main<R: Wait, H: Host, K: Sink>(
    rt: &R,
    alloc: Global,
    words: &[String],
    host: &mut H,
    output: K,
) -> AioServed<H::Net, K>
where
    H::End: Drop,
    H::Waker: Drop,
    ensures usage { called (map string_bytes words.now) ≡ None
        → ((result.status ≡ 1) ⊎ (result.status ≡ 6)) × IsUnbegun output
        (H.faults host.old, H.faults host.new) (H.ports host.old, H.ports host.new) result }
    ensures runs { (said : AioWords) → called (map string_bytes words.now) ≡ Some said
        → RunsCommand ⟦<AioCore<H::End, H::Net, K> as Means>⟧.m H.End.tells K.facts said
        (K.facts output) (H.faults host.old, H.faults host.new)
        (H.ports host.old, H.ports host.new) result
        ⊎ ((result.status ≡ 6) × IsUnbegun output
        (H.faults host.old, H.faults host.new) (H.ports host.old, H.ports host.new) result) }
{
    match read_words(alloc, words) {
        Ok(Some(said)) => answer(serve_host(rt, alloc, said, host, output)),
        Ok(None) => unbegun(alloc, Status::Usage, output),
        Err(_) => unbegun(alloc, Status::NoMemory, output),
    }
}

/// What is answered for what a run left.
fn answer<M, K>(ran: Ran<M, K>) -> AioServed<M, K>
    ensures { result ≡ served_by ran }
{
    let Ran {
        end,
        net,
        journal,
        output,
    } = ran;
    AioServed {
        status: end.status().code(),
        net,
        journal,
        output,
    }
}

/// What is answered if no run was begun.
fn unbegun<M, K>(alloc: Global, status: Status, output: K) -> AioServed<M, K>
    ensures status { result.status ≡ code_of status }
    ensures net { result.net ≡ None }
    ensures journal { result.journal.entries ≡ [] }
    ensures output { result.output ≡ output }
{
    AioServed {
        status: status.code(),
        net: None,
        journal: Journal::new(alloc),
        output,
    }
}

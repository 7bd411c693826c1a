//! The top call of the command.
ghost use Rattle.std.specs.Prelude.{◌≡◌, ◌⊎◌, [], None, Some, map};
ghost use Rattle.std.specs.String.{string_bytes};
ghost use Rattle.exit_status.specs.Statuses.{code_of};
ghost use Rattle.cmd_pool.specs.Statuses.{HasNoRun, RunsCommand, pooled_by};
ghost use Rattle.cmd_pool.specs.Words.{pool_of};
ghost use Rattle.cmd_pool.specs.declared.words.PoolOptions.{PoolOptions as OptionsOf};

use crate::ending::PoolServed;
use crate::read_words;
use crate::serving::{PoolCore, serve_host};
use ev_base::{Host, Sink};
use exit_status::Status;
use server_run::{Journal, Means, ServerNote};
use std::alloc::Global;
use std::sync::Wait;
use std::thread::Threads;

/// What the command leaves.
#[derive(Drop)]
pub struct Pooled<M, K> {
    /// 0 if the run ended as it was asked to; 1 if the words do not call the command; 4 if a write
    /// of the output failed; 5 if a wait of the net failed, or its attach of the listener; 6 if
    /// there was no memory; 7 if the host could not listen. Of several faults of a run the least.
    pub status: u8,
    /// The net that the host gave, if it listened.
    pub net: Option<M>,
    /// The journal of the run. It is empty if no reactor was made.
    pub journal: Journal<ServerNote>,
    /// The sink that was handed in.
    pub output: K,
}

/// Runs `logd pool` (POSA2, Half-Sync/Half-Async): the host listens on the port, workers serve the
/// connections that come, and put the records that they read into a queue; writers, on threads of
/// their own, take them and make their lines. The journal is kept to the end of the run. Then its
/// lines are written, connection after connection by rising number: a line that a writer made is
/// used if it is that of its record, and else it is made there. So what is written rests on the
/// journal alone.
///
/// `words` are those after the program's name: `pool --port P [--workers N] [--writers M]
/// [--until N]`. At most 1,000 connections are live at once, and a wait goes on for one second at
/// most. Without `--until` the run goes on until the net has nothing to report any more.
pub fn pool_main<R: Threads + Wait + Copy + Send + Sync + 'static, H: Host, K: Sink>(
    rt: &R,
    alloc: Global,
    words: &[String],
    host: &mut H,
    output: K,
) -> Pooled<H::Net, K>
where
    H::End: Drop + Send,
    H::Net: Send,
    H::Waker: Drop + Sync,
    ensures usage { pool_of (map string_bytes words.now) ≡ None
        → ((result.status ≡ 1) ⊎ (result.status ≡ 6)) × HasNoRun output
        (H.faults host.old, H.faults host.new) (H.ports host.old, H.ports host.new) result }
    ensures runs { (options : OptionsOf) → pool_of (map string_bytes words.now) ≡ Some options
        → RunsCommand ⟦<PoolCore<H::End, H::Net> as Means>⟧.m K.facts options (K.facts output)
        (H.faults host.old, H.faults host.new) (H.ports host.old, H.ports host.new) result
        ⊎ ((result.status ≡ 6) × HasNoRun output
        (H.faults host.old, H.faults host.new) (H.ports host.old, H.ports host.new) result) }
{
    match read_words(alloc, words) {
        Ok(Some(options)) => answer(serve_host(rt, alloc, options, host, output)),
        Ok(None) => idle(alloc, Status::Usage, output),
        Err(_) => idle(alloc, Status::NoMemory, output),
    }
}

/// What is answered for what a run left.
fn answer<M, K>(served: PoolServed<M, K>) -> Pooled<M, K>
    ensures { result ≡ pooled_by served }
{
    let PoolServed {
        end,
        net,
        journal,
        output,
    } = served;
    Pooled {
        status: end.status().code(),
        net,
        journal,
        output,
    }
}

/// What is answered if no run was begun.
fn idle<M, K>(alloc: Global, status: Status, output: K) -> Pooled<M, K>
    ensures status { result.status ≡ code_of status }
    ensures net { result.net ≡ None }
    ensures journal { result.journal.entries ≡ [] }
    ensures output { result.output ≡ output }
{
    Pooled {
        status: status.code(),
        net: None,
        journal: Journal::new(alloc),
        output,
    }
}

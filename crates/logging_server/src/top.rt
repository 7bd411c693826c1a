//! The top call.
ghost use Rattle.std.specs.Prelude.{◌≡◌, ◌⊎◌, map, Some, None};
ghost use Rattle.std.specs.String.{string_bytes};
ghost use Rattle.cmd_line.specs.Lines.{command_of};
ghost use Rattle.cmd_line.specs.Ranges.{IsInRange};
ghost use Rattle.logging_server.specs.Commands.{HasDone, IsServe, IsUntouched};

use crate::Served;
use crate::runs::{run_generated, run_host, run_one, run_replay};
use crate::texts::{audit_journal, display_records};
use cmd_line::Command;
use cmd_serve::HostCore;
use ev_base::{Host, PeerEnd, Sink, Source};
use exit_status::Status;
use log_handler::ServerNote;
use reactor_core::Means;
use reactor_model::Volumes;
use script_net::ScriptEnd;
use std::alloc::Global;
use std::sync::Wait;
use std::thread::Threads;
use std::time::Clock;

/// Does what the words of the command line say, those after the program's name (C++NPv2 chapter 4:
/// the networked logging server).
///
/// `one` serves one connection, number 0, whose bytes are the input; `replay` serves the
/// connections of the script whose text the input is; `serve` those that come to a port of the
/// host; `gen` those of a generated script, and writes the summary of its run. The output has the
/// lines of the journal's notes, or what the options of `replay` ask for, and the journal is handed
/// over to `volumes` in volumes of the size that these say. `display` writes the text of each
/// record of the input and a line feed. `audit` writes `legal N` if the input is the text of a
/// legal journal of N entries.
///
/// Status 1 comes exactly if the words are no command; then, and if there is no memory to
/// read them, nothing was done.
pub fn logd_main<
    R: Clock + Threads + Wait + Copy + Send + Sync + 'static,
    H: Host,
    S: Source,
    K: Sink + Send + Drop + 'static,
    V: Volumes<ServerNote> + Send,
>(
    rt: &R,
    alloc: Global,
    words: &[String],
    host: &mut H,
    input: S,
    output: K,
    volumes: V,
) -> Served<K, S, H::Net, V>
where
    H::End: Drop + Send,
    H::Net: Send,
    H::Waker: Drop + Sync,
    // What the command did that the words are: its statuses with their causes, and the number
    // beside the status. For want of memory for the words nothing was done, and the host is as it
    // was.
    ensures does { HasDone S.facts K.facts V.facts input output volumes ⟦<ScriptEnd as PeerEnd>⟧
        ⟦<HostCore<H::End, H::Net, K, V> as Means>⟧.m (command_of (map string_bytes words.now))
        (record { faults = H.faults host.old; ports = H.ports host.old })
        (record { faults = H.faults host.new; ports = H.ports host.new }) result
        ⊎ ((result.status ≡ 6) × IsUntouched input output volumes result × (host.new ≡ host.old)) }
    // Status 1 comes exactly if the words are no command.
    ensures usage { result.status ≡ 1 → command_of (map string_bytes words.now) ≡ None }
    // The host is not asked but by `serve`.
    ensures host { (IsServe (command_of (map string_bytes words.now)) → ⊥) → host.new ≡ host.old }
{
    match Command::of(alloc, words) {
        Ok(Some(command)) => run(rt, alloc, command, host, input, output, volumes),
        Ok(None) => Served::untouched(alloc, Status::Usage.code(), input, output, volumes),
        Err(_) => Served::untouched(alloc, Status::NoMemory.code(), input, output, volumes),
    }
}

/// Runs a command.
fn run<
    R: Clock + Threads + Wait + Copy + Send + Sync + 'static,
    H: Host,
    S: Source,
    K: Sink + Send + Drop + 'static,
    V: Volumes<ServerNote> + Send,
>(
    rt: &R,
    alloc: Global,
    command: Command,
    host: &mut H,
    input: S,
    output: K,
    volumes: V,
) -> Served<K, S, H::Net, V>
where
    H::End: Drop + Send,
    H::Net: Send,
    H::Waker: Drop + Sync,
    requires { IsInRange command }
    ensures does { HasDone S.facts K.facts V.facts input output volumes ⟦<ScriptEnd as PeerEnd>⟧
        ⟦<HostCore<H::End, H::Net, K, V> as Means>⟧.m (Some command)
        (record { faults = H.faults host.old; ports = H.ports host.old })
        (record { faults = H.faults host.new; ports = H.ports host.new }) result }
    ensures host { (IsServe (Some command) → ⊥) → host.new ≡ host.old }
{
    match command {
        Command::One => run_one(alloc, input, output, volumes),
        Command::Display => display_records(rt, alloc, input, output, volumes),
        Command::Audit => audit_journal(alloc, input, output, volumes),
        Command::Replay(options) => run_replay(rt, alloc, options, input, output, volumes),
        Command::Generate { connections, seed } => {
            run_generated(rt, alloc, connections, seed, input, output, volumes)
        }
        Command::Serve { port, options } => {
            run_host(rt, alloc, options, port, host, input, output, volumes)
        }
    }
}

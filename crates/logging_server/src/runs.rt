//! The commands that run a reactor: `one`, `replay`, `gen` and `serve`.
ghost use Rattle.cmd_line.specs.Ranges.{AreInRange, IsInRange};
ghost use Rattle.cmd_line.specs.declared.command.Command.TheVariants.{Generate};
ghost use Rattle.logging_server.specs.Commands.{HasGenerated, HasReplayed, HasRun, HasServed};

use crate::Served;
use crate::statuses::{Ending, TEXT_LIMIT};
use cmd_gen::{Generated, Played, Replayed, generate, replay};
use cmd_line::Options;
use cmd_one::{Ran, one};
use cmd_serve::{HostCore, HostServed, serve_host};
use ev_base::{Host, PeerEnd, Sink, Source};
use log_handler::ServerNote;
use reactor_core::Means;
use reactor_model::Volumes;
use script_net::ScriptEnd;
use std::alloc::Global;
use std::sync::Wait;
use std::thread::Threads;
use std::time::Clock;

/// Serves one connection on the input.
pub(crate) fn run_one<M, S: Source, K: Sink, V: Volumes<ServerNote>>(
    alloc: Global,
    input: S,
    output: K,
    volumes: V,
) -> Served<K, S, M, V>
    ensures { HasRun S.facts K.facts V.facts input output volumes result }
{
    let Ran {
        end,
        journal,
        first,
        input,
        output,
        volumes,
    } = one(alloc, input, output, volumes);
    let status = end.status();
    Served {
        status: status.code(),
        journal,
        first,
        input,
        output,
        net: None,
        volumes,
        at: status.number(),
    }
}

/// Runs the server over the script whose text the input is.
pub(crate) fn run_replay<
    R: Threads + Wait + Sync,
    M,
    S: Source,
    K: Sink + Send,
    V: Volumes<ServerNote> + Send,
>(rt: &R, alloc: Global, options: Options, input: S, output: K, volumes: V) -> Served<K, S, M, V>
    requires { AreInRange options }
    ensures { HasReplayed S.facts K.facts V.facts input output volumes ⟦<ScriptEnd as PeerEnd>⟧
        options result }
{
    let Replayed { input, played } = replay(rt, alloc, options, input, output, volumes, TEXT_LIMIT);
    let Played {
        end,
        journal,
        first,
        output,
        volumes,
    } = played;
    let status = end.status();
    Served {
        status: status.code(),
        journal,
        first,
        input,
        output,
        net: None,
        volumes,
        at: status.number(),
    }
}

/// Runs the server over the script of so many connections that is generated from a seed.
pub(crate) fn run_generated<
    R: Threads + Wait + Sync,
    M,
    S: Source,
    K: Sink,
    V: Volumes<ServerNote> + Send,
>(
    rt: &R,
    alloc: Global,
    connections: u64,
    seed: u64,
    input: S,
    output: K,
    volumes: V,
) -> Served<K, S, M, V>
    requires { IsInRange (Generate connections seed) }
    ensures { HasGenerated S.facts K.facts V.facts input output volumes ⟦<ScriptEnd as PeerEnd>⟧
        connections seed result }
{
    let Generated {
        end,
        journal,
        first,
        output,
        volumes,
    } = generate(rt, alloc, connections, seed, output, volumes);
    Served {
        status: end.status().code(),
        journal,
        first,
        input,
        output,
        net: None,
        volumes,
        at: 0,
    }
}

/// Runs the server over the host.
pub(crate) fn run_host<
    R: Clock + Threads + Wait + Copy + Send + Sync + 'static,
    H: Host,
    S: Source,
    K: Sink + Send + Drop + 'static,
    V: Volumes<ServerNote> + Send,
>(
    rt: &R,
    alloc: Global,
    options: Options,
    port: u16,
    host: &mut H,
    input: S,
    output: K,
    volumes: V,
) -> Served<K, S, H::Net, V>
where
    H::End: Drop + Send,
    H::Net: Send,
    H::Waker: Drop + Sync,
    requires { AreInRange options }
    ensures { HasServed S.facts K.facts V.facts input output volumes
        ⟦<HostCore<H::End, H::Net, K, V> as Means>⟧.m port options
        (record { faults = H.faults host.old; ports = H.ports host.old })
        (record { faults = H.faults host.new; ports = H.ports host.new }) result }
{
    let HostServed {
        end,
        journal,
        first,
        net,
        output,
        volumes,
    } = serve_host(rt, alloc, options, port, host, output, volumes);
    Served {
        status: end.status().code(),
        journal,
        first,
        input,
        output,
        net,
        volumes,
        at: 0,
    }
}

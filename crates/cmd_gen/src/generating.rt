//! The command `logd gen`.
ghost use Rattle.std.specs.Prelude.{◌≡◌, ◌≤◌};
ghost use Rattle.laws_gen.specs.laws_script_runs.specs.Connections.{HadMemory};
ghost use Rattle.cmd_gen.specs.Generating.{Generates, IsUngenerated};
ghost use Rattle.cmd_gen.specs.Summing.{LeavesText, full_lines, summary_lines};

use crate::preparing::{asked_for, prepare};
use crate::summing::sum_up;
use crate::{GenerateEnd, Generated};
use cmd_replay::{Journal, NoWatch, Parts, Served, ServerNote, Volumes, play};
use ev_base::{PeerEnd, Sink};
use script_net::ScriptEnd;
use std::alloc::Global;
use std::sync::Wait;
use std::thread::Threads;

/// Generates the script of so many connections, from 1 to 1,000, and a seed, from 0 to
/// 4,294,967,295, and runs the logging server over a net that plays it, with four workers. The four
/// lines of the summary of its journal are written at the end, if the run is done and the whole
/// journal is held.
///
/// For want of memory for the script, its text or the timers nothing is served.
pub fn generate<R: Threads + Wait + Sync, K: Sink, V: Volumes<ServerNote> + Send>(
    rt: &R,
    alloc: Global,
    connections: u64,
    seed: u64,
    output: K,
    volumes: V,
) -> Generated<K, V>
    requires some { 1 ≤ connections }
    requires within { connections ≤ 1000 }
    requires seed { seed ≤ 4294967295 }
    ensures run { Generates ⟦<ScriptEnd as PeerEnd>⟧ V.facts connections seed output volumes result
        result.end }
    ensures written { LeavesText result.end (K.facts output) (summary_lines result.journal.entries)
        (K.facts result.output) }
    ensures known { HadMemory result.journal.entries → LeavesText result.end (K.facts output)
        (full_lines connections seed) (K.facts result.output) }
{
    let (script, timers) = match prepare(alloc, connections, seed) {
        Ok(prepared) => prepared,
        Err(_) => return unserved(alloc, output, volumes),
    };
    let asked = asked_for(connections);
    let Served { ending, parts } = play(rt, alloc, asked, script, timers, NoWatch, volumes);
    let Parts {
        journal,
        first,
        net: _,
        timers: _,
        watch: _,
        volumes,
    } = parts;
    let (end, output) = sum_up(ending, first, journal.as_slice(), output);
    Generated {
        end,
        journal,
        first,
        output,
        volumes,
    }
}

/// What is left if there was no memory before anything was served.
fn unserved<K, V>(alloc: Global, output: K, volumes: V) -> Generated<K, V>
    ensures end { result.end ≡ GenerateEnd.NoMemory }
    ensures unserved { IsUngenerated output volumes result }
{
    Generated {
        end: GenerateEnd::NoMemory,
        journal: Journal::new(alloc),
        first: 0,
        output,
        volumes,
    }
}

//! Runs over a script, whose journal is written in one of three forms.
ghost use Rattle.std.specs.Prelude.{◌≡◌, List, [], None};
ghost use Rattle.cmd_line.specs.Ranges.{AreInRange};
ghost use Rattle.script_net.specs.event_script.specs.Script.{ScriptGroup};
ghost use Rattle.cmd_replay.specs.Replays.{IsOfText, RunsScript, WritesHeld, asked_by, end_by};
ghost use Rattle.cmd_replay.specs.Replays.{volume_in};
ghost use Rattle.cmd_replay.specs.Runs.{FailsNet};
ghost use Rattle.chosen_timers.specs.Chosen.{timers_of};
ghost use Rattle.cmd_line.specs.declared.options.Form.TheVariants.{Plain, Grouped, Journal};
ghost use Rattle.grouped_lines.specs.laws_script_runs.specs.Connections.{lines_by_connection};
ghost use Rattle.server_run.specs.Starting.{IsFine};

use crate::ends::{Kept, kept_of};
use crate::{Played, ReplayEnd, play};
use chosen_timers::ChosenTimers;
use cmd_line::{Form, Options};
use ev_base::{PeerEnd, Sink};
use grouped_lines::write_by_connection;
use journal_text::JournalSink;
use script_net::{Script, ScriptEnd};
use server_run::{Asked, Ending, Entry, LineSink, NoWatch, ServerNote, Volumes, Watch};
use std::alloc::Global;
use std::sync::Wait;
use std::thread::Threads;

/// How many entries a journal has at most: 2^62. A volume of so many is the whole journal.
const MOST_ENTRIES: u64 = 1 << 62;

/// How many entries a volume has at least.
fn volume_in(form: Form, size: u64) -> u64
    ensures { result ≡ volume_in form size }
{
    match form {
        Form::Grouped => MOST_ENTRIES,
        Form::Plain | Form::Journal => size,
    }
}

/// What a run is asked for by these options.
pub(crate) fn asked_by(options: Options, size: u64) -> Asked
    requires range { AreInRange options }
    ensures { result ≡ asked_by options size }
{
    Asked {
        workers: options.workers as usize,
        connections: options.most,
        idle: options.idle,
        until: options.until,
        limit: None,
        volume: volume_in(options.form, size),
    }
}

/// How a replay ends whose watch failed or did not, and whose run ended so.
fn end_by(broken: bool, ending: Ending) -> ReplayEnd
    requires { FailsNet ending → ⊥ }
    ensures { result ≡ end_by broken ending }
{
    match (broken, ending) {
        (true, _) => ReplayEnd::WriteFault,
        (false, Ending::Over | Ending::Notified) => ReplayEnd::Done,
        (false, Ending::VolumeFault) => ReplayEnd::VolumeFault,
        (false, Ending::NoMemory | Ending::Broken) => ReplayEnd::NoMemory,
        (false, Ending::NotAttached | Ending::NetFault) => {
            unreachable!("a net that plays a script fails in no call")
        }
    }
}

/// Runs over a script, and writes the lines of its notes as they come about.
pub(crate) fn run_plain<R: Threads + Wait + Sync, K: Sink + Send, V: Volumes<ServerNote> + Send>(
    rt: &R,
    alloc: Global,
    asked: Asked,
    script: Script,
    timers: ChosenTimers,
    output: K,
    volumes: V,
) -> Played<K, V>
    requires fine { IsFine asked }
    requires timers { timers_of timers ≡ [] }
    requires limit { asked.limit ≡ None }
    ensures { (groups : List ScriptGroup) → IsOfText script groups
        → RunsScript ⟦<ScriptEnd as PeerEnd>⟧ K.facts V.facts Plain asked groups (K.facts output)
        (V.facts volumes) result }
{
    let watch = LineSink::new(output);
    let served = play(rt, alloc, asked, script, timers, watch, volumes);
    let Kept {
        ending,
        journal,
        first,
        watch,
        volumes,
    } = kept_of(served);
    let end = end_by(watch.broken(), ending);
    Played {
        end,
        journal,
        first,
        output: watch.into_output(),
        volumes,
    }
}

/// Runs over a script, and writes the text of its journal as its entries are appended.
pub(crate) fn run_journal<R: Threads + Wait + Sync, K: Sink + Send, V: Volumes<ServerNote> + Send>(
    rt: &R,
    alloc: Global,
    asked: Asked,
    script: Script,
    timers: ChosenTimers,
    output: K,
    volumes: V,
) -> Played<K, V>
    requires fine { IsFine asked }
    requires timers { timers_of timers ≡ [] }
    requires limit { asked.limit ≡ None }
    ensures { (groups : List ScriptGroup) → IsOfText script groups
        → RunsScript ⟦<ScriptEnd as PeerEnd>⟧ K.facts V.facts Journal asked groups (K.facts output)
        (V.facts volumes) result }
{
    let watch = JournalSink::new(asked.connections + 1, output);
    let served = play(rt, alloc, asked, script, timers, watch, volumes);
    let Kept {
        ending,
        journal,
        first,
        watch,
        volumes,
    } = kept_of(served);
    let end = end_by(watch.broken(), ending);
    Played {
        end,
        journal,
        first,
        output: watch.into_output(),
        volumes,
    }
}

/// Runs over a script, and writes the lines of its notes, connection after connection, once it is
/// done.
pub(crate) fn run_grouped<R: Threads + Wait + Sync, K: Sink, V: Volumes<ServerNote> + Send>(
    rt: &R,
    alloc: Global,
    asked: Asked,
    script: Script,
    timers: ChosenTimers,
    output: K,
    volumes: V,
) -> Played<K, V>
    requires fine { IsFine asked }
    requires timers { timers_of timers ≡ [] }
    requires limit { asked.limit ≡ None }
    ensures { (groups : List ScriptGroup) → IsOfText script groups
        → RunsScript ⟦<ScriptEnd as PeerEnd>⟧ K.facts V.facts Grouped asked groups (K.facts output)
        (V.facts volumes) result }
{
    let served = play(rt, alloc, asked, script, timers, NoWatch, volumes);
    let Kept {
        ending,
        journal,
        first,
        watch: _,
        volumes,
    } = kept_of(served);
    let run = end_by(false, ending);
    let (end, output) = write_held(alloc, run, first, journal.as_slice(), output);
    Played {
        end,
        journal,
        first,
        output,
        volumes,
    }
}

/// Writes the lines of a run that ended so, connection after connection, if it is done and no
/// entry was handed over. Else, and for want of memory, nothing is written.
fn write_held<K: Sink>(
    alloc: Global,
    run: ReplayEnd,
    first: u64,
    entries: &[Entry<ServerNote>],
    output: K,
) -> (ReplayEnd, K)
    ensures { WritesHeld run first (K.facts output) (lines_by_connection entries.now) result.0
        (K.facts result.1) }
{
    if run != ReplayEnd::Done {
        return (run, output);
    }
    if first > 0 {
        return (ReplayEnd::NoMemory, output);
    }
    match write_by_connection(alloc, output, entries) {
        (output, Ok(true)) => (ReplayEnd::Done, output),
        (output, Ok(false)) => (ReplayEnd::WriteFault, output),
        (output, Err(_)) => (ReplayEnd::NoMemory, output),
    }
}

//! The command `logd replay`.
ghost use Rattle.std.specs.Prelude.{◌≡◌, List};
ghost use Rattle.cmd_line.specs.Ranges.{AreInRange};
ghost use Rattle.script_net.specs.event_script.specs.Script.{ScriptGroup};
ghost use Rattle.cmd_replay.specs.Replays.{IsOfText, RunsScript, asked_by};
ghost use Rattle.cmd_replay.specs.Replaying.{IsUnplayed, Replays, ReplaysText};

use crate::forms::{asked_by, run_grouped, run_journal, run_plain};
use crate::{Played, ReplayEnd, Replayed};
use bounded_input::{Ending, Whole, read_whole};
use chosen_timers::ChosenTimers;
use cmd_line::{Form, Options};
use ev_base::{PeerEnd, Sink, Source};
use script_net::{Script, ScriptEnd};
use script_text::{ScriptRefused, parse_script};
use server_run::{Journal, ServerNote, Volumes};
use std::alloc::Global;
use std::sync::Wait;
use std::thread::Threads;

/// Reads the text of a script to its end, of which `limit` bytes may be read, and runs the logging
/// server over a net that plays it. What the journal says is written to the output in the form that
/// the options name, and its entries are handed over to the keeper of volumes, in volumes of at
/// least as many entries as it says, but not before the end if the form is `Grouped`.
///
/// Nothing is served before the last line of the text was read and found good.
pub fn replay<R: Threads + Wait + Sync, S: Source, K: Sink + Send, V: Volumes<ServerNote> + Send>(
    rt: &R,
    alloc: Global,
    options: Options,
    input: S,
    output: K,
    volumes: V,
    limit: u64,
) -> Replayed<S, K, V>
    requires range { AreInRange options }
    ensures { Replays ⟦<ScriptEnd as PeerEnd>⟧ K.facts V.facts options limit (S.facts input) output
        volumes (S.facts result.input) result.played result.played.end }
{
    let Whole {
        bytes,
        ending,
        input,
    } = read_whole(alloc, input, limit);
    let played = match ending {
        Ending::Over => replay_text(rt, alloc, options, bytes, output, volumes),
        Ending::Failed => unserved(alloc, ReplayEnd::ReadFault, output, volumes),
        Ending::TooLong => unserved(alloc, ReplayEnd::TooLong, output, volumes),
        Ending::NoMemory => unserved(alloc, ReplayEnd::NoMemory, output, volumes),
    };
    Replayed { input, played }
}

/// Runs over the script of a text, if it is one. The text is let go before that.
fn replay_text<R: Threads + Wait + Sync, K: Sink + Send, V: Volumes<ServerNote> + Send>(
    rt: &R,
    alloc: Global,
    options: Options,
    text: Vec<u8>,
    output: K,
    volumes: V,
) -> Played<K, V>
    requires range { AreInRange options }
    ensures { ReplaysText ⟦<ScriptEnd as PeerEnd>⟧ K.facts V.facts options text.items output volumes
        result result.end }
{
    let read = parse_script(alloc, &text, 0);
    drop(text);
    match read {
        Ok(script) => run_script(rt, alloc, options, script, output, volumes),
        Err(ScriptRefused::BadScript { line }) => {
            unserved(alloc, ReplayEnd::BadText { line }, output, volumes)
        }
        Err(ScriptRefused::NoMemory) => unserved(alloc, ReplayEnd::NoMemory, output, volumes),
    }
}

/// Runs the logging server over a net that plays a script, as the options ask. What it leaves is
/// said of each text that the script is of. For want of memory for the timers nothing is served.
pub fn run_script<R: Threads + Wait + Sync, K: Sink + Send, V: Volumes<ServerNote> + Send>(
    rt: &R,
    alloc: Global,
    options: Options,
    script: Script,
    output: K,
    volumes: V,
) -> Played<K, V>
    requires range { AreInRange options }
    ensures { (groups : List ScriptGroup) → IsOfText script groups
        → RunsScript ⟦<ScriptEnd as PeerEnd>⟧ K.facts V.facts options.form
        (asked_by options (V.facts volumes).size) groups (K.facts output) (V.facts volumes) result }
{
    let asked = asked_by(options, volumes.volume_size());
    let timers = match ChosenTimers::new(alloc, options.timers) {
        Ok(timers) => timers,
        Err(_) => return unserved(alloc, ReplayEnd::NoMemory, output, volumes),
    };
    match options.form {
        Form::Plain => run_plain(rt, alloc, asked, script, timers, output, volumes),
        Form::Grouped => run_grouped(rt, alloc, asked, script, timers, output, volumes),
        Form::Journal => run_journal(rt, alloc, asked, script, timers, output, volumes),
    }
}

/// What is left if nothing was served.
fn unserved<K, V>(alloc: Global, end: ReplayEnd, output: K, volumes: V) -> Played<K, V>
    ensures end { result.end ≡ end }
    ensures unserved { IsUnplayed output volumes result }
{
    Played {
        end,
        journal: Journal::new(alloc),
        first: 0,
        output,
        volumes,
    }
}

//! What a run over a generated script needs before it begins.
ghost use Rattle.std.specs.Prelude.{◌≡◌, ◌≤◌, [], IfOk};
ghost use Rattle.chosen_timers.specs.Chosen.{timers_of};
ghost use Rattle.script_generator.specs.Scripts.{generated};
ghost use Rattle.script_text.specs.Parsing.{HasGroups};
ghost use Rattle.cmd_gen.specs.Asking.{asked_for};

use chosen_timers::ChosenTimers;
use cmd_line::Timers;
use cmd_replay::Asked;
use ev_base::NoMemory;
use script_generator::gen_script;
use script_net::Script;
use script_text::{ScriptRefused, parse_script};
use std::alloc::Global;

/// How many workers make the run.
const WORKERS: usize = 4;

/// How many entries a journal has at most: 2^62. A volume of so many is the whole journal.
const MOST_ENTRIES: u64 = 1 << 62;

/// How many bytes each connection takes that are written to it. The server writes none.
const ROOM: usize = 0;

/// What a run over a generated script of so many connections is asked for. Its journal is not to be
/// handed over before the end, since its summary is made of all of it.
pub(crate) fn asked_for(connections: u64) -> Asked
    ensures { result ≡ asked_for connections }
{
    Asked {
        workers: WORKERS,
        connections,
        idle: None,
        until: None,
        limit: None,
        volume: MOST_ENTRIES,
    }
}

/// The script that is generated, and a timer queue without a timer. The text of the script is let
/// go once it was read.
pub(crate) fn prepare(
    alloc: Global,
    connections: u64,
    seed: u64,
) -> Result<(Script, ChosenTimers), NoMemory>
    requires some { 1 ≤ connections }
    requires within { connections ≤ 1000 }
    requires seed { seed ≤ 4294967295 }
    ensures script { IfOk result (λ prepared. HasGroups prepared.0 0 (generated connections seed)) }
    ensures timers { IfOk result (λ prepared. timers_of prepared.1 ≡ []) }
{
    let script = generated_script(alloc, connections, seed)?;
    let timers = ChosenTimers::new(alloc, Timers::List)?;
    Ok((script, timers))
}

/// The script that is generated, read from its text.
fn generated_script(alloc: Global, connections: u64, seed: u64) -> Result<Script, NoMemory>
    requires some { 1 ≤ connections }
    requires within { connections ≤ 1000 }
    requires seed { seed ≤ 4294967295 }
    ensures { IfOk result (λ script. HasGroups script 0 (generated connections seed)) }
{
    let text = gen_script(alloc, connections, seed)?;
    match parse_script(alloc, text.as_slice(), ROOM) {
        Ok(script) => Ok(script),
        Err(ScriptRefused::NoMemory) => Err(NoMemory),
        Err(ScriptRefused::BadScript { .. }) => unreachable!(
            "a generated text is that of a script"
        ),
    }
}

//! A run of the server over a script.
ghost use Rattle.std.specs.Prelude.{◌≡◌, List, None, Some, true};
ghost use Rattle.ev_base.specs.Terms.{Terms};
ghost use Rattle.ev_base.specs.Counts.{Rose};
ghost use Rattle.script_net.specs.event_script.specs.Script.{ScriptGroup};
ghost use Rattle.ev_base.specs.Host.{GivesListener};
ghost use Rattle.server_run.specs.Starting.{CanStart, IsFine};
ghost use Rattle.script_net.specs.Hosts.{new_net};
ghost use Rattle.script_net.specs.NetContent.{script_net_facts};
ghost use Rattle.script_net.specs.ScriptEnd.{script_end_facts, ScriptEndKeeps};
ghost use Rattle.cmd_replay.specs.Playing.{CanPlay};
ghost use Rattle.cmd_replay.specs.Runs.{FailsNet, ForScript, LeavesScript};

use chosen_timers::ChosenTimers;
use ev_base::{Host, PeerEnd};
use script_net::{Script, ScriptEnd, ScriptHost, ScriptNet, ScriptWake};
use server_run::{
    Asked, Core, Ending, Ground, Means, Served, ServerHandler, ServerNote, TimerQueue, Volumes,
    Watch, serve,
};
use std::alloc::Global;
use std::sync::Wait;
use std::thread::Threads;

/// The reactor of a run over a script.
pub type ScriptCore<W, V> = Core<ServerHandler<ScriptEnd>, ScriptNet, ChosenTimers, W, V>;

/// The port that a host that plays a script is asked for, which it does not look at.
const PORT: u16 = 1;

/// What the server runs over a script.
type ScriptGround<W, V> = Ground<ScriptEnd, ScriptNet, ChosenTimers, W, V>;

/// What a run over a script works on.
fn ground<W: Watch<ServerNote>, V: Volumes<ServerNote>>(
    alloc: Global,
    asked: Asked,
    script: Script,
    timers: ChosenTimers,
    watch: W,
    volumes: V,
) -> (ScriptGround<W, V>, ScriptWake)
    ghost terms: { Terms }
    requires { CanPlay W.stands V.facts asked script timers watch volumes terms }
    ensures listener { GivesListener script_net_facts script_end_facts
        (result.0.net, result.0.listener) }
    ensures start { CanStart ⟦<ScriptCore<W, V> as Means>⟧.m ⟦<ChosenTimers as TimerQueue>⟧.timers
        ScriptEndKeeps asked result.0 terms }
    ensures net { result.0.net ≡ new_net script.groups }
    ensures volumes { result.0.volumes ≡ volumes }
{
    let mut host = ScriptHost::new(Some(script), false);
    match host.listen(alloc, PORT) {
        Ok((net, listener, waker)) => {
            let ground = Ground {
                net,
                listener,
                timers,
                watch,
                volumes,
            };
            (ground, waker)
        }
        Err(_) => unreachable!("a host that was given a script listens once"),
    }
}

/// Runs the server over a net that plays a script. What it leaves is said of each text that the
/// script is of.
pub fn play<R: Threads + Wait + Sync, W: Watch<ServerNote> + Send, V: Volumes<ServerNote> + Send>(
    rt: &R,
    alloc: Global,
    asked: Asked,
    script: Script,
    timers: ChosenTimers,
    watch: W,
    volumes: V,
) -> Served<ScriptNet, ChosenTimers, W, V>
    ghost terms: { Terms }
    requires fine { IsFine asked }
    requires can { CanPlay W.stands V.facts asked script timers watch volumes terms }
    requires steady { terms.steady ≡ Some true }
    requires limit { asked.limit ≡ None }
    ensures leaves { (groups : List ScriptGroup) → ForScript asked groups terms
        → LeavesScript ⟦<ScriptEnd as PeerEnd>⟧ ⟦<ScriptCore<W, V> as Means>⟧.m terms asked groups
        result }
    ensures net { FailsNet result.ending → ⊥ }
    ensures broken { W.is_broken result.parts.watch ≡ true → result.ending ≡ Ending.Broken }
    ensures volumes { result.ending ≡ Ending.VolumeFault
        → Rose (V.facts volumes).faults (V.facts result.parts.volumes).faults }
{
    let (ground, waker) = ground(alloc, asked, script, timers, watch, volumes);
    serve(rt, alloc, asked, ground, waker)
}

//! How a script is played.
ghost use Rattle.std.specs.Prelude.{◌≡◌, [], true, IfOk};
ghost use Rattle.ev_base.specs.Host.{GivesListener};
ghost use Rattle.script_net.specs.NetContent.{script_net_facts};
ghost use Rattle.script_net.specs.ScriptEnd.{script_end_facts, ScriptEndKeeps};
ghost use Rattle.server_run.specs.Starting.{CanStart, IsFine};
ghost use Rattle.test_runs.specs.Playing.{terms_of};
ghost use Rattle.acceptor.specs.Idle.{IsIdleTime};

use acceptor::ServerHandler;
use ev_base::Host;
use log_handler::ServerNote;
use reactor_core::{Core, Means};
use reactor_model::{DropVolumes, Volumes, Watch};
use script_net::{ScriptEnd, ScriptHost, ScriptNet, ScriptWake};
use script_text::parse_script;
use server_run::{Asked, Ending, Ground, Served, serve};
use std::alloc::Global;
use std::sync::Wait;
use std::test::Fail;
use std::thread::Threads;
use timer_queue::SortedTimers;

/// What is left of a script that was played.
type Played<W, V> = Served<ScriptNet, SortedTimers, W, V>;

/// The reactor that plays it.
type Player<W, V> = Core<ServerHandler<ScriptEnd>, ScriptNet, SortedTimers, W, V>;

/// The calls of a net that fail, by their numbers from 0.
#[derive(Clone, Copy)]
pub(crate) struct Fails {
    /// A wait.
    pub wait: Option<u64>,
    /// An attach.
    pub attach: Option<u64>,
}

/// No call fails.
pub(crate) const NONE_FAILS: Fails = Fails {
    wait: None,
    attach: None,
};

/// Whether a run can be made so.
fn is_fine(asked: Asked) -> bool
    ensures { result ≡ true → IsFine asked }
{
    1 <= asked.workers
        && asked.workers <= 64
        && 1 <= asked.connections
        && asked.connections <= 4_096
        && is_idle_time(asked.idle)
        && 1 <= asked.volume
}

/// Whether a connection may be closed after so many quiet milliseconds.
fn is_idle_time(idle: Option<u64>) -> bool
    ensures { result ≡ true → IsIdleTime idle }
{
    match idle {
        None => true,
        Some(idle) => 1 <= idle && idle <= 4_294_967_295,
    }
}

/// A list of one number, or of none.
pub(crate) fn numbers(alloc: Global, number: Option<u64>) -> Result<Vec<u64>, Fail> {
    let mut numbers = Vec::new(alloc);
    if let Some(number) = number {
        numbers.push(number)?;
    }
    Ok(numbers)
}

/// What a script is played on, some calls of whose net fail.
fn ground<W: Watch<ServerNote> + Drop, V: Volumes<ServerNote> + Drop>(
    alloc: Global,
    script: &str,
    asked: Asked,
    fails: Fails,
    watch: W,
    volumes: V,
) -> Result<(Ground<ScriptEnd, ScriptNet, SortedTimers, W, V>, ScriptWake), Fail>
    requires { W.stands (terms_of asked) watch [] }
    ensures listener { IfOk result (λ given. GivesListener script_net_facts script_end_facts
        (given.0.net, given.0.listener)) }
    ensures start { IfOk result (λ given. CanStart ⟦<Player<W, V> as Means>⟧.m (λ q. q.timers)
        ScriptEndKeeps asked given.0 (terms_of asked)) }
{
    let waits = numbers(alloc, fails.wait)?;
    let attaches = numbers(alloc, fails.attach)?;
    let script = parse_script(alloc, script.as_bytes(), 0)?;
    let mut host = ScriptHost::new(Some(script), false);
    let given = host.listen(alloc, 7000);
    drop(host);
    match given {
        Ok((net, listener, waker)) => {
            let mut net = net;
            net.fail_waits(waits);
            net.fail_attaches(attaches);
            let ground = Ground {
                net,
                listener,
                timers: SortedTimers::new(alloc),
                watch,
                volumes,
            };
            Ok((ground, waker))
        }
        Err(_) => Err("the host did not listen".into()),
    }
}

/// How a run ended, and the watch, which saw its journal.
fn told<W: Drop, V: Drop>(played: Played<W, V>) -> (Ending, W) {
    let Served { ending, parts } = played;
    (ending, parts.watch)
}

/// Plays a script, some calls of whose net fail, and gives how its run ended and the watch.
pub(crate) fn play<
    R: Threads + Wait + Sync,
    W: Watch<ServerNote> + Drop + Send,
    V: Volumes<ServerNote> + Drop + Send,
>(
    rt: &R,
    alloc: Global,
    script: &str,
    asked: Asked,
    fails: Fails,
    watch: W,
    volumes: V,
) -> Result<(Ending, W), Fail>
    requires { W.stands (terms_of asked) watch [] }
{
    if !is_fine(asked) {
        return Err("no such run".into());
    }
    let (ground, waker) = ground(alloc, script, asked, fails, watch, volumes)?;
    Ok(told(serve(rt, alloc, asked, ground, waker)))
}

/// Plays a script of whose calls none fails, and gives how its run ended and the watch, which saw
/// its journal.
pub(crate) fn watch_script<R: Threads + Wait + Sync, W: Watch<ServerNote> + Drop + Send>(
    rt: &R,
    alloc: Global,
    script: &str,
    asked: Asked,
    watch: W,
) -> Result<(Ending, W), Fail>
    requires { W.stands (terms_of asked) watch [] }
{
    play(rt, alloc, script, asked, NONE_FAILS, watch, DropVolumes)
}

//! How a script is played: on a reactor of its own, with the acceptor.
ghost use Rattle.std.specs.Prelude.{◌≡◌, ◌≤◌, [], IfOk, true};
ghost use Rattle.ev_base.specs.Net.{IsNew};
ghost use Rattle.ev_base.specs.Host.{GivesListener};
ghost use Rattle.ev_base.specs.Terms.{open_terms};
ghost use Rattle.reactor_core.specs.Stands.{Stands};
ghost use Rattle.acceptor.specs.Idle.{IsIdleTime};
ghost use Rattle.script_net.specs.NetContent.{script_net_facts, script_net_keeps};
ghost use Rattle.script_net.specs.ScriptEnd.{script_end_facts, ScriptEndKeeps};
ghost use Rattle.core_loop.specs.Idle.{IsIdle, MayTake};

use acceptor::{Acceptor, ServerHandler};
use core_loop::{RunEnd, close, post, register, run};
use ev_base::{Handle, Host, Kind, Mask, Why};
use log_handler::ServerNote;
use reactor_core::{Core, Means, Parts, PostRefused};
use reactor_model::{DropVolumes, EventHandler, Watch};
use script_net::{ScriptEnd, ScriptHost, ScriptNet};
use script_text::parse_script;
use std::alloc::Global;
use std::sync::Wait;
use std::test::Fail;
use timer_queue::SortedTimers;

/// What a script is played with.
#[derive(Clone, Copy)]
pub(crate) struct Asked {
    /// How many handlers may be live at once, the acceptor with them: from 1 to 4,097.
    pub most: u64,
    /// After how many quiet milliseconds a connection is closed, from 1 to 4,294,967,295, or that
    /// it never is.
    pub idle: Option<u64>,
    /// After how many closings and refusals the reactor is stopped by a notice, if it is.
    pub until: Option<u64>,
}

/// A reactor that plays a script. It hands its journal over in volumes of 512 entries, and lets
/// them go.
type Player<W> = Core<ServerHandler<ScriptEnd>, ScriptNet, SortedTimers, W, DropVolumes>;

/// How many entries a volume has at least.
const VOLUME: u64 = 512;

/// Whether a reactor can be made so.
fn is_fine(asked: Asked) -> bool
    ensures least { result ≡ true → 1 ≤ asked.most }
    ensures greatest { result ≡ true → asked.most ≤ 4097 }
    ensures idle { result ≡ true → IsIdleTime asked.idle }
{
    is_idle_time(asked.idle) && 1 <= asked.most && asked.most <= 4_097
}

/// Whether a connection may be closed after so many quiet milliseconds.
fn is_idle_time(idle: Option<u64>) -> bool
    ensures { result ≡ true → IsIdleTime idle }
{
    match idle {
        None => true,
        Some(idle) => 1 <= idle && idle <= 4_294_967_295,
    }
}

/// Takes a reactor apart, and gives its watch.
fn watch_of<W: Watch<ServerNote> + Drop>(core: Player<W>) -> W
    requires { IsIdle ⟦<Player<W> as Means>⟧.m core }
{
    let Parts {
        journal,
        first: _,
        net,
        timers,
        watch,
        volumes: _,
    } = close(core);
    drop(journal);
    drop(net);
    drop(timers);
    watch
}

/// A reactor on which the acceptor was registered, if it was taken.
fn registered<W: Watch<ServerNote> + Drop>(
    core: Player<W>,
    acceptor: ServerHandler<ScriptEnd>,
) -> Result<Player<W>, Fail>
    requires { MayTake ⟦<Player<W> as Means>⟧.m core acceptor }
    ensures { IfOk result (λ core. IsIdle ⟦<Player<W> as Means>⟧.m core) }
{
    let mut core = core;
    match register(&mut core, acceptor, Mask::READ) {
        Ok(_) => Ok(core),
        Err((back, _)) => {
            back.handle_close(Why::Refused);
            watch_of(core);
            Err("the acceptor was not registered".into())
        }
    }
}

/// A reactor over a net that made no call.
fn begin<W: Watch<ServerNote> + Drop>(
    alloc: Global,
    net: ScriptNet,
    most: u64,
    watch: W,
) -> Result<Player<W>, Fail>
    requires net_new { IsNew (script_net_facts net) }
    requires net { script_net_keeps (open_terms most) net }
    requires least { 1 ≤ most }
    requires greatest { most ≤ 4097 }
    requires watch { W.stands (open_terms most) watch [] }
    ensures { IfOk result (λ core. Stands ⟦<Player<W> as Means>⟧.m (open_terms most) core 0 []) }
{
    let timers = SortedTimers::new(alloc);
    match Core::new(alloc, most, VOLUME, net, timers, watch, DropVolumes) {
        Ok(core) => Ok(core),
        Err(back) => {
            drop(back);
            Err("no memory".into())
        }
    }
}

/// A reactor over a net that made no call, on which the acceptor of its listener is registered.
fn open<W: Watch<ServerNote> + Drop>(
    alloc: Global,
    net: ScriptNet,
    listener: ScriptEnd,
    asked: Asked,
    watch: W,
) -> Result<Player<W>, Fail>
    requires given { GivesListener script_net_facts script_end_facts (net, listener) }
    requires net { script_net_keeps (open_terms asked.most) net }
    requires listener { ScriptEndKeeps (open_terms asked.most) listener }
    requires least { 1 ≤ asked.most }
    requires greatest { asked.most ≤ 4097 }
    requires idle { IsIdleTime asked.idle }
    requires watch { W.stands (open_terms asked.most) watch [] }
    ensures { IfOk result (λ core. IsIdle ⟦<Player<W> as Means>⟧.m core) }
{
    let taker = Acceptor::new(alloc, listener, asked.idle);
    let acceptor = ServerHandler::Listen(taker);
    match begin(alloc, net, asked.most, watch) {
        Ok(core) => registered(core, acceptor),
        Err(why) => {
            acceptor.handle_close(Why::Refused);
            Err(why)
        }
    }
}

/// The net and the listener of a script.
fn listen(alloc: Global, script: &str, most: u64) -> Result<(ScriptNet, ScriptEnd), Fail>
    ensures given { IfOk result (λ given. GivesListener script_net_facts script_end_facts given) }
    ensures net { IfOk result (λ given. script_net_keeps (open_terms most) given.0) }
    ensures listener { IfOk result (λ given. ScriptEndKeeps (open_terms most) given.1) }
{
    let script = parse_script(alloc, script.as_bytes(), 0)?;
    let mut host = ScriptHost::new(Some(script), false);
    let given = host.listen(alloc, 7000);
    drop(host);
    match given {
        Ok((net, listener, _)) => Ok((net, listener)),
        Err(_) => Err("the host did not listen".into()),
    }
}

/// Plays a script, and gives how its run ended and the watch, which saw its journal.
pub(crate) fn play<R: Wait, W: Watch<ServerNote> + Drop>(
    rt: &R,
    alloc: Global,
    script: &str,
    asked: Asked,
    watch: W,
) -> Result<(RunEnd, W), Fail>
    requires { W.stands (open_terms asked.most) watch [] }
{
    if !is_fine(asked) {
        return Err("no such reactor".into());
    }
    let (net, listener) = listen(alloc, script, asked.most)?;
    let core = open(alloc, net, listener, asked, watch)?;
    Ok(serve(rt, core, asked.until))
}

/// Serves what a net reports until it is over, or was stopped by a notice after so many closings
/// and refusals.
fn serve<R: Wait, W: Watch<ServerNote> + Drop>(
    rt: &R,
    core: Player<W>,
    until: Option<u64>,
) -> (RunEnd, W)
    requires { IsIdle ⟦<Player<W> as Means>⟧.m core }
{
    let mut core = core;
    let end = run_until(rt, &mut core, until);
    (end, watch_of(core))
}

/// Runs a reactor. If that ended since so many handlers were closed or refused, it posts the
/// notice, and runs it again.
fn run_until<R: Wait, W: Watch<ServerNote> + Drop>(
    rt: &R,
    core: &mut Player<W>,
    until: Option<u64>,
) -> RunEnd
    requires { IsIdle ⟦<Player<W> as Means>⟧.m core.old }
    ensures { IsIdle ⟦<Player<W> as Means>⟧.m core.new }
{
    let end = run(rt, core, None, until);
    if end != RunEnd::Enough {
        return end;
    }
    match post(core, Handle(0), Kind::Except, 0, 0) {
        Ok(()) | Err(PostRefused::Stopped) => run(rt, core, None, None),
        Err(PostRefused::NoMemory) => RunEnd::NoMemory,
    }
}

//! Scripts that the server plays: what each connection got back, and how it ended.
ghost use Rattle.std.specs.Prelude.{◌≤◌, IfOk};
ghost use Rattle.ev_base.specs.Host.{GivesListener};
ghost use Rattle.script_net.specs.NetContent.{script_net_facts, script_net_keeps};
ghost use Rattle.script_net.specs.ScriptEnd.{script_end_facts, ScriptEndKeeps};
ghost use Rattle.reactor_model.specs.Turns.{most_milliseconds};
ghost use Rattle.echo_server.specs.Runs.{IsOpened, run_terms};

use crate::asserts::assert_same;
use core_loop::{RunEnd, run};
use echo_server::{EchoCore, EchoNote, EchoParts, Ending, MOST, finish, open, run_pool};
use ev_base::{Handle, Host};
use reactor_core::Means;
use reactor_model::{Entry, Journal, check};
use script_net::{Script, ScriptEnd, ScriptHost, ScriptNet, ScriptWake};
use script_text::parse_script;
use std::alloc::Global;
use std::process::Abort;
use std::sync::Wait;
use std::test::Fail;
use std::thread::Threads;
use tp_reactor::Ran;

/// What a script is: its text, how many bytes each end takes, and for each connection of it the
/// handle, the bytes that it got back, and how it ended.
struct Row {
    script: &'static str,
    room: usize,
    echoed: &'static [(u64, &'static [u8], Ending)],
}

/// The idle time of all rows, in milliseconds.
const IDLE: u64 = 100;

/// A connection that sends two pieces and shuts; two whose pieces come by turns; one that sends
/// nothing between 100 and 200 ms; one that does not take back all that it sent, and so is left
/// waiting to write; one that fails, after a failure of the listener; and one that is left open.
static ROWS: &[Row] = &[
    Row {
        script: "open 0\ndata 0 68690a\ndata 0 796f0a\nshut 0\n",
        room: 100,
        echoed: &[(1, b"hi\nyo\n", Ending::End)],
    },
    Row {
        script: "open 0\nopen 1\ndata 0 61\ndata 1 62\ndata 0 63\nshut 1\nshut 0\n",
        room: 100,
        echoed: &[(1, b"ac", Ending::End), (2, b"b", Ending::End)],
    },
    Row {
        script: "open 0\nat 60\ndata 0 6869\nat 150\nquiet\nat 250\nquiet\n",
        room: 100,
        echoed: &[(1, b"hi", Ending::Idle)],
    },
    Row {
        script: "open 0\ndata 0 6162636465\nshut 0\n",
        room: 3,
        echoed: &[(1, b"abc", Ending::Stopped)],
    },
    Row {
        script: "open 0\nfail listener\ndata 0 61\nfail 0\n",
        room: 100,
        echoed: &[(1, b"a", Ending::Failed)],
    },
    Row {
        script: "open 0\ndata 0 6869\n",
        room: 100,
        echoed: &[(1, b"hi", Ending::Stopped)],
    },
];

/// The net and the listener of a script, and what wakes the net.
fn listen(alloc: Global, script: Script) -> Result<(ScriptNet, ScriptEnd, ScriptWake), Fail>
    ensures listener { IfOk result (λ given. GivesListener script_net_facts script_end_facts
        (given.0, given.1)) }
    ensures net_keeps { IfOk result (λ given. script_net_keeps (run_terms 100) given.0) }
    ensures listener_keeps { IfOk result (λ given. ScriptEndKeeps (run_terms 100) given.1) }
{
    let mut host = ScriptHost::new(Some(script), false);
    match host.listen(alloc, 7000) {
        Ok(given) => Ok(given),
        Err(_) => Err("the host did not listen".into()),
    }
}

/// A server that is to play a script, and what wakes its net.
fn start(alloc: Global, row: &Row) -> Result<(EchoCore<ScriptEnd, ScriptNet>, ScriptWake), Fail>
    ensures { IfOk result (λ given. IsOpened ⟦<EchoCore<ScriptEnd, ScriptNet> as Means>⟧.m
        100 given.0) }
{
    let script = parse_script(alloc, row.script.as_bytes(), row.room)?;
    let (net, listener, waker) = listen(alloc, script)?;
    match open(alloc, net, listener, IDLE) {
        Ok(core) => Ok((core, waker)),
        Err(_) => Err("no server".into()),
    }
}

/// Whether a handle was closed with this ending.
fn is_closed(journal: &Journal<EchoNote>, handle: Handle, end: Ending) -> bool {
    let closed = Entry::Closed {
        handle,
        note: EchoNote::Finished { end },
    };
    journal.as_slice().contains(&closed)
}

/// Sees that a connection's handle was closed with this ending, and that its peer got these bytes
/// back.
fn see_echoed(
    rt: &impl Abort,
    parts: &EchoParts<ScriptNet>,
    handle: Handle,
    bytes: &[u8],
    end: Ending,
) {
    assert!(*rt; is_closed(&parts.journal, handle, end));
    match parts.net.retired(handle) {
        Some(peer) => assert_same(rt, peer.held(), bytes),
        None => panic!(*rt; "no end was retired"),
    }
}

/// Compares what a run left with what its script is to come to. Its journal is legal.
fn compare(rt: &impl Abort, alloc: Global, row: &Row, parts: &EchoParts<ScriptNet>) {
    assert!(*rt; check(alloc, parts.journal.as_slice(), MOST).is_ok());
    for (handle, bytes, end) in row.echoed {
        see_echoed(rt, parts, Handle(*handle), bytes, *end);
    }
}

/// Plays a script on one thread, until nothing can be reported any more.
fn play_alone<R: Abort + Wait>(
    rt: &R,
    alloc: Global,
    row: &Row,
) -> Result<EchoParts<ScriptNet>, Fail> {
    let (mut core, _) = start(alloc, row)?;
    let end = run(rt, &mut core, None, None);
    assert_same(rt, end, RunEnd::Over);
    Ok(finish(core))
}

fn see_alone<R: Abort + Wait>(rt: &R, alloc: Global, row: &Row) -> Result<(), Fail> {
    let parts = play_alone(rt, alloc, row)?;
    compare(rt, alloc, row, &parts);
    Ok(())
}

#[test]
fn scripts_are_echoed_on_one_thread(rt: HostRuntime) -> Result<(), Fail> {
    for row in ROWS {
        see_alone(&rt, rt.alloc(), row)?;
    }
    Ok(())
}

/// Plays a script by four workers, until nothing can be reported any more.
fn play_by_four<R: Abort + Threads + Wait + Sync>(
    rt: &R,
    alloc: Global,
    row: &Row,
) -> Result<EchoParts<ScriptNet>, Fail> {
    let (core, waker) = start(alloc, row)?;
    let (ran, core) = run_pool(rt, alloc, core, waker, 4);
    assert_same(rt, ran, Ran::Over);
    Ok(finish(core))
}

fn see_by_four<R: Abort + Threads + Wait + Sync>(
    rt: &R,
    alloc: Global,
    row: &Row,
) -> Result<(), Fail> {
    let parts = play_by_four(rt, alloc, row)?;
    compare(rt, alloc, row, &parts);
    Ok(())
}

#[test]
fn scripts_are_echoed_by_a_pool(rt: HostRuntime) -> Result<(), Fail> {
    for row in ROWS {
        see_by_four(&rt, rt.alloc(), row)?;
    }
    Ok(())
}

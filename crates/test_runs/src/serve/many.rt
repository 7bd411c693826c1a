//! Many connections that send many records, served by one worker and by four.
use crate::asserts::assert_in;
use crate::many_records::{CONNECTIONS, grouped, script, wanted};
use crate::serve::playing::watch_script;
use ev_base::MemSink;
use log_handler::LineSink;
use server_run::{Asked, Ending};
use std::alloc::Global;
use std::sync::Wait;
use std::test::Fail;
use std::thread::Threads;

/// Whether these are the lines that are wanted, whatever the order of the connections.
fn are_wanted(alloc: Global, lines: &[u8]) -> Result<bool, Fail> {
    let wanted = wanted(alloc)?;
    let lines = str::from_utf8(lines)?;
    Ok(grouped(alloc, lines)? == wanted)
}

/// Whether the lines that are wanted come of a script that so many workers serve.
fn come<R: Threads + Wait + Sync>(
    rt: &R,
    alloc: Global,
    script: &str,
    workers: usize,
) -> Result<bool, Fail> {
    let asked = Asked {
        workers,
        connections: CONNECTIONS,
        idle: None,
        until: None,
        limit: Some(1_000),
        volume: 512,
    };
    let output = MemSink::new(alloc, 200_000, None).map_err(|_| Fail::from("no room"))?;
    let (ending, watch) = watch_script(rt, alloc, script, asked, LineSink::new(output))?;
    let written = watch.into_output();
    Ok(are_wanted(alloc, written.bytes())? && ending == Ending::Over)
}

/// Whether they come of the script of many connections.
fn come_of_many<R: Threads + Wait + Sync>(
    rt: &R,
    alloc: Global,
    workers: usize,
) -> Result<bool, Fail> {
    let script = script(alloc)?;
    come(rt, alloc, &script, workers)
}

#[test]
fn many_connections_are_read_to_their_ends(rt: HostRuntime) -> Result<(), Fail> {
    for workers in [1, 4] {
        assert_in(&rt, workers, come_of_many(&rt, rt.alloc(), workers)?);
    }
    Ok(())
}

//! Many connections that send many records.
use crate::many_records::{CONNECTIONS, grouped, script, wanted};
use crate::play::playing::{Asked, play};
use core_loop::RunEnd;
use ev_base::MemSink;
use log_handler::LineSink;
use std::alloc::Global;
use std::sync::Wait;
use std::test::Fail;

/// Whether these are the lines that are wanted, whatever the order of the connections.
fn are_wanted(alloc: Global, lines: &[u8]) -> Result<bool, Fail> {
    let wanted = wanted(alloc)?;
    let lines = str::from_utf8(lines)?;
    Ok(grouped(alloc, lines)? == wanted)
}

/// Plays a script of many connections.
fn play_many<R: Wait>(
    rt: &R,
    alloc: Global,
    script: &str,
) -> Result<(RunEnd, LineSink<MemSink>), Fail> {
    let asked = Asked {
        most: CONNECTIONS + 1,
        idle: None,
        until: None,
    };
    let output = MemSink::new(alloc, 200_000, None).map_err(|_| Fail::from("no room"))?;
    play(rt, alloc, script, asked, LineSink::new(output))
}

/// Whether the lines that are wanted come of many connections.
fn come<R: Wait>(rt: &R, alloc: Global) -> Result<bool, Fail> {
    let script = script(alloc)?;
    let (ran, watch) = play_many(rt, alloc, &script)?;
    let written = watch.into_output();
    Ok(are_wanted(alloc, written.bytes())? && ran == RunEnd::Over)
}

#[test]
fn many_connections_are_read_to_their_ends(rt: HostRuntime) -> Result<(), Fail> {
    assert!(rt; come(&rt, rt.alloc())?);
    Ok(())
}

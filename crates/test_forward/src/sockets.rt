//! The top call of the forwarding daemon over sockets.
use crate::peers::{fill_queue, listen, read_slowly, reset};
use cmd_forward::{Forwarded, forward_main};
use demux_mio::{MioDialer, MioNet};
use ev_base::{MemSink, SteadySource};
use std::alloc::Global;
use std::net::Net;
use std::sync::Wait;
use std::test::Fail;
use std::thread;
use std::time::Clock;

/// A record in its canonical spelling: type 4, process 7, time 1 s 2 us, and the message `hi`.
static RECORD: [u8; 30] = [
    0, 0, 0, 0, 0, 0, 0, 22, 0, 0, 0, 4, 0, 0, 0, 7, 0, 0, 0, 1, 0, 0, 0, 2, 0, 0, 0, 2, 104, 105,
];

/// How many records overrun what a system holds of a connection whose peer does not read.
const MANY: usize = 300_000;

/// What a run is made of.
#[derive(Drop)]
struct Prepared {
    words: Vec<String>,
    input: SteadySource,
    output: MemSink,
}

/// So many records for a port, for whose connection at most so many milliseconds are waited.
fn prepare(alloc: Global, port: u16, wait: &str, count: usize) -> Result<Prepared, Fail> {
    let mut words = Vec::new(alloc);
    for word in ["forward", "--wait", wait, "--port"] {
        words.push(String::from_str(alloc, word)?)?;
    }
    words.push(format!(in alloc; "{port}")?)?;
    let mut bytes = Vec::new(alloc);
    for _ in 0..count {
        bytes.extend_from_slice(&RECORD)?;
    }
    let output = MemSink::new(alloc, 1_000, None).map_err(|_| Fail::from("no room"))?;
    Ok(Prepared {
        words,
        input: SteadySource::new(bytes),
        output,
    })
}

fn run<R: Net + Clock + Wait + Copy>(
    rt: R,
    alloc: Global,
    prepared: Prepared,
) -> Forwarded<MioNet<R>, SteadySource, MemSink> {
    let Prepared {
        words,
        input,
        output,
    } = prepared;
    let mut dialer = MioDialer::new(rt);
    forward_main(&rt, alloc, &words, &mut dialer, input, output)
}

#[test]
fn a_slow_peer_gets_all_records(rt: HostRuntime) -> Result<(), Fail> {
    let alloc = rt.alloc();
    let (listener, port) = listen(&rt)?;
    let prepared = prepare(alloc, port, "5000", MANY)?;
    let (left, came) = thread::join(
        &rt,
        || run(rt, alloc, prepared),
        || read_slowly(&rt, &listener, &RECORD),
    );
    assert!(rt; left.status == 0);
    assert!(rt; came? == (30 * MANY, true));
    assert!(rt; left.output.bytes() == b"records 300000\nbytes 9000000\n".as_slice());
    Ok(())
}

#[test]
fn a_peer_that_resets_ends_it(rt: HostRuntime) -> Result<(), Fail> {
    let alloc = rt.alloc();
    let (listener, port) = listen(&rt)?;
    let prepared = prepare(alloc, port, "5000", MANY)?;
    let (left, came) = thread::join(&rt, || run(rt, alloc, prepared), || reset(&listener));
    came?;
    assert!(rt; left.status == 13);
    assert!(rt; left.output.bytes().is_empty());
    Ok(())
}

#[test]
fn nobody_listens(rt: HostRuntime) -> Result<(), Fail> {
    let alloc = rt.alloc();
    let port = listen(&rt)?.1;
    let left = run(rt, alloc, prepare(alloc, port, "5000", 1)?);
    assert!(rt; left.status == 13);
    assert!(rt; left.output.bytes().is_empty());
    Ok(())
}

#[test]
fn a_connection_that_is_not_made_times_out(rt: HostRuntime) -> Result<(), Fail> {
    let alloc = rt.alloc();
    let (listener, port) = listen(&rt)?;
    let held = fill_queue(&rt, alloc, port)?;
    let left = run(rt, alloc, prepare(alloc, port, "200", 1)?);
    assert!(rt; left.status == 14);
    assert!(rt; (200..5_000).contains(&left.at));
    assert!(rt; left.output.bytes().is_empty());
    drop(held);
    drop(listener);
    Ok(())
}

//! The server over sockets.
ghost use Rattle.std.specs.Prelude.{IfOk};
ghost use Rattle.core_loop.specs.Idle.{IsIdle};

use crate::asserts::assert_same;
use core_loop::{RunEnd, run};
use demux_mio::{MioEnd, MioHost, MioNet};
use echo_server::{EchoCore, finish, open};
use ev_base::Host;
use reactor_core::Means;
use std::alloc::Global;
use std::io::{Read, Write};
use std::net::{Ipv4Addr, Net, Shutdown, SocketAddr, TcpListener, TcpStream};
use std::process::Abort;
use std::sync::Wait;
use std::test::Fail;
use std::thread::{JoinHandle, Threads};
use std::time::{Clock, Duration};
use std::{io, thread};

/// A peer connects.
fn connect<R: Net<Listener = TcpListener, Stream = TcpStream>>(
    rt: &R,
    port: u16,
) -> io::Result<TcpStream> {
    TcpStream::connect(rt, SocketAddr::from((Ipv4Addr::LOCALHOST, port)))
}

/// A peer sends this, and ends its side.
fn send(peer: TcpStream, bytes: &[u8]) -> io::Result<TcpStream> {
    let mut peer = peer;
    peer.write_all(bytes)?;
    peer.shutdown(Shutdown::Write)?;
    Ok(peer)
}

/// What a peer reads until the server ends its side.
fn receive(alloc: Global, peer: TcpStream) -> io::Result<Vec<u8>> {
    let mut peer = peer;
    let mut back = Vec::new(alloc);
    peer.read_to_end(&mut back)?;
    Ok(back)
}

/// A server over sockets, and the port that it listens on.
fn start<R: Net<Listener = TcpListener, Stream = TcpStream> + Clock + Copy>(
    rt: R,
    alloc: Global,
) -> Result<(EchoCore<MioEnd, MioNet<R>>, u16), Fail>
    ensures { IfOk result (λ given. IsIdle ⟦<EchoCore<MioEnd, MioNet<R>> as Means>⟧.m given.0) }
{
    let mut host = MioHost::new(rt);
    match host.listen(alloc, 0) {
        Ok((net, listener, _)) => {
            let port = listener.port();
            match open(alloc, net, listener, 10_000) {
                Ok(core) => Ok((core, port.unwrap_or(0))),
                Err(_) => Err("no server".into()),
            }
        }
        Err(_) => Err("no listener".into()),
    }
}

/// Runs a server until one connection was closed.
fn serve_one<R: Net<Listener = TcpListener, Stream = TcpStream> + Clock + Copy, W: Abort + Wait>(
    rt: &W,
    core: EchoCore<MioEnd, MioNet<R>>,
)
    requires { IsIdle ⟦<EchoCore<MioEnd, MioNet<R>> as Means>⟧.m core }
{
    let mut core = core;
    let end = run(rt, &mut core, Some(10_000), Some(1));
    finish(core);
    assert_same(rt, end, RunEnd::Enough);
}

/// A peer that sends a few bytes to this port.
fn greet<R: Net<Listener = TcpListener, Stream = TcpStream>>(
    rt: &R,
    port: u16,
) -> io::Result<TcpStream> {
    send(connect(rt, port)?, b"hello over loopback")
}

#[test]
fn a_peer_gets_back_what_it_sent(rt: HostRuntime) -> Result<(), Fail> {
    let (core, port) = start(rt, rt.alloc())?;
    match greet(&rt, port) {
        Ok(peer) => {
            serve_one(&rt, core);
            let back = receive(rt.alloc(), peer)?;
            assert_same(&rt, back.as_slice(), b"hello over loopback".as_slice());
            Ok(())
        }
        Err(_) => {
            finish(core);
            Err("no peer".into())
        }
    }
}

/// How many bytes a peer sends that begins to read late: more than its sockets hold at once.
const MANY: usize = 8 << 20;

/// So many bytes, which repeat only after 251 of them.
fn many(alloc: Global) -> Result<Vec<u8>, Fail> {
    let mut bytes = Vec::with_capacity(alloc, MANY)?;
    for at in 0..MANY {
        bytes.push((at % 251) as u8)?;
    }
    Ok(bytes)
}

/// What a peer reads that waits for a while first.
fn receive_late<R: Clock>(rt: &R, alloc: Global, peer: TcpStream) -> io::Result<Vec<u8>> {
    thread::sleep(rt, Duration::from_millis(300));
    receive(alloc, peer)
}

/// The threads of a peer that sends many bytes, and begins to read late.
type Talk = (JoinHandle<bool>, JoinHandle<io::Result<Vec<u8>>>);

/// The threads of a peer that sends these bytes.
fn talk_over<R: Clock + Threads + Copy + Send + 'static>(
    rt: R,
    alloc: Global,
    peer: TcpStream,
    bytes: Vec<u8>,
) -> Result<Talk, Fail> {
    let theirs = peer.try_clone()?;
    let writer = thread::spawn(&rt, move || send(peer, &bytes).is_ok())?;
    let reader = thread::spawn(&rt, move || receive_late(&rt, alloc, theirs))?;
    Ok((writer, reader))
}

/// Those of a peer that sends many to this port.
fn talk<
    R: Net<Listener = TcpListener, Stream = TcpStream> + Clock + Threads + Copy + Send + 'static,
>(rt: R, alloc: Global, port: u16) -> Result<Talk, Fail> {
    let bytes = many(alloc)?;
    talk_over(rt, alloc, connect(&rt, port)?, bytes)
}

/// Sees that all was sent, and came back.
fn see_all_back<R: Abort + Threads>(rt: &R, alloc: Global, talk: Talk) -> Result<(), Fail> {
    let (writer, reader) = talk;
    let is_sent = writer.join(rt);
    let back = reader.join(rt)?;
    assert!(*rt; is_sent);
    let sent = many(alloc)?;
    assert!(*rt; back.as_slice() == sent.as_slice());
    Ok(())
}

#[test]
fn a_peer_that_reads_late_gets_all_back(rt: HostRuntime) -> Result<(), Fail> {
    let (core, port) = start(rt, rt.alloc())?;
    match talk(rt, rt.alloc(), port) {
        Ok(talk) => {
            serve_one(&rt, core);
            see_all_back(&rt, rt.alloc(), talk)
        }
        Err(why) => {
            finish(core);
            Err(why)
        }
    }
}

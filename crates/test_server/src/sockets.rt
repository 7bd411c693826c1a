//! The program's top call over sockets, beside a client on a thread of its own.
use crate::asserts::assert_same;
use demux_mio::MioHost;
use ev_base::{MemSink, SteadySource};
use logging_server::logd_main;
use reactor_model::DropVolumes;
use std::io::Write;
use std::net::{Ipv4Addr, Net, SocketAddr, TcpListener, TcpStream};
use std::test::Fail;
use std::time::{Clock, Duration};
use std::{io, thread};

/// A record: type 4, process 7, time 1 s 2 us, and the message `hi`.
const RECORD: [u8; 30] = [
    0, 0, 0, 0, 0, 0, 0, 22, 0, 0, 0, 4, 0, 0, 0, 7, 0, 0, 0, 1, 0, 0, 0, 2, 0, 0, 0, 2, 104, 105,
];

/// How often a client tries to connect, each time a millisecond later.
const TRIES: u32 = 10_000;

/// The address of a port on this machine.
fn address(port: u16) -> SocketAddr {
    SocketAddr::from((Ipv4Addr::LOCALHOST, port))
}

/// A port that nobody listened on a moment ago.
fn free_port<R: Net<Listener = TcpListener, Stream = TcpStream>>(rt: &R) -> io::Result<u16> {
    let listener = TcpListener::bind(rt, address(0))?;
    Ok(listener.local_addr()?.port())
}

/// A client connects once somebody listens, sends the record and closes. Tells whether it could.
fn send<R: Net<Listener = TcpListener, Stream = TcpStream> + Clock>(rt: &R, port: u16) -> bool {
    for _ in 0..TRIES {
        if let Ok(mut peer) = TcpStream::connect(rt, address(port)) {
            return peer.write_all(&RECORD).is_ok();
        }
        thread::sleep(rt, Duration::from_millis(1));
    }
    false
}

#[test]
fn a_connection_is_served(rt: HostRuntime) -> Result<(), Fail> {
    let alloc = rt.alloc();
    for workers in ["1", "4"] {
        let port = free_port(&rt)?;
        let mut words = Vec::new(alloc);
        for word in ["serve", "--until", "1", "--workers", workers, "--port"] {
            words.push(String::from_str(alloc, word)?)?;
        }
        words.push(format!(in alloc; "{port}")?)?;
        let output = MemSink::new(alloc, 1_000, None).map_err(|_| Fail::from("no room"))?;
        let serve = || {
            let mut host = if workers == "1" {
                MioHost::new(rt)
            } else {
                MioHost::with_closer(rt, alloc)
            };
            let input = SteadySource::new(Vec::new(alloc));
            logd_main(&rt, alloc, &words, &mut host, input, output, DropVolumes)
        };
        let (served, sent) = thread::join(&rt, serve, || send(&rt, port));
        assert!(rt; sent);
        assert_same(&rt, served.status, 0);
        assert_same(
            &rt,
            served.output.bytes(),
            b"0 1,2 7 LM_DEBUG: hi\n0 closed: end\n".as_slice(),
        );
    }
    Ok(())
}

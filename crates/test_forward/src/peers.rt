//! Peers of a forwarding daemon, each on a thread of its own.
use std::alloc::Global;
use std::io::Read;
use std::net::{Ipv4Addr, Net, SocketAddr, TcpListener, TcpStream};
use std::time::{Clock, Duration};
use std::{io, thread};

/// How many connections are tried at most to fill the queue of a listener.
const TRIES: usize = 300;

/// The address of a port on this machine.
pub fn address(port: u16) -> SocketAddr {
    SocketAddr::from((Ipv4Addr::LOCALHOST, port))
}

/// A listener on a port of its own, with that port.
pub fn listen<R: Net<Listener = TcpListener, Stream = TcpStream>>(
    rt: &R,
) -> io::Result<(TcpListener, u16)> {
    let listener = TcpListener::bind(rt, address(0))?;
    let port = listener.local_addr()?.port();
    Ok((listener, port))
}

/// Accepts one connection, waits, and reads all that comes, with a pause before each of the first
/// reads. Tells how many bytes came, and whether each was that of the pattern.
pub fn read_slowly<R: Net<Listener = TcpListener, Stream = TcpStream> + Clock>(
    rt: &R,
    listener: &TcpListener,
    pattern: &[u8],
) -> io::Result<(usize, bool)> {
    let (mut peer, _) = listener.accept()?;
    let mut buffer = [0; 4096];
    let mut came = 0;
    let mut same = true;
    for turn in 0..u64::MAX {
        if turn < 20 {
            thread::sleep(rt, Duration::from_millis(5));
        }
        let count = peer.read(&mut buffer)?;
        if count == 0 {
            break;
        }
        same = same && is_pattern(pattern, came, &buffer[..count]);
        came = count.saturating_add(came);
    }
    Ok((came, same))
}

/// Whether a piece is that of the repeated pattern from a place on.
fn is_pattern(pattern: &[u8], at: usize, piece: &[u8]) -> bool {
    let mut wanted = pattern.iter().cycle().skip(at % pattern.len().max(1));
    piece.iter().all(|byte| wanted.next() == Some(byte))
}

/// Accepts one connection, reads a few bytes, and lets it go with the others unread: so it is
/// reset.
pub fn reset(listener: &TcpListener) -> io::Result<()> {
    let (mut peer, _) = listener.accept()?;
    let mut buffer = [0; 100];
    peer.read(&mut buffer)?;
    Ok(())
}

/// Connects until the queue of a listener is full, and gives the connections.
pub fn fill_queue<R: Net<Listener = TcpListener, Stream = TcpStream>>(
    rt: &R,
    alloc: Global,
    port: u16,
) -> io::Result<Vec<TcpStream>> {
    let mut held = Vec::new(alloc);
    let mut refused = 0u32;
    for _ in 0..TRIES {
        match TcpStream::connect_timeout(rt, &address(port), Duration::from_millis(100)) {
            Ok(stream) => held.push(stream)?,
            Err(_) => refused = refused.saturating_add(1),
        }
        if refused >= 2 {
            break;
        }
    }
    Ok(held)
}

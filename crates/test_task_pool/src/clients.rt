//! Clients that send records, and what is written for these.
use std::alloc::{AllocError, Global};
use std::io::Write;
use std::net::{Ipv4Addr, Net, SocketAddr, TcpListener, TcpStream};
use std::time::{Clock, Duration};
use std::{io, thread};

/// How often a client tries to connect, each time a millisecond later.
const TRIES: u32 = 10_000;

/// The front of a record: its order, its length and the type 4. The process and the seconds follow.
const FRONT: [u8; 12] = [0, 0, 0, 0, 0, 0, 0, 22, 0, 0, 0, 4];

/// Its end: 2 microseconds, and the message `hi`.
const END: [u8; 10] = [0, 0, 0, 2, 0, 0, 0, 2, 104, 105];

/// The address of a port on this machine.
fn address(port: u16) -> SocketAddr {
    SocketAddr::from((Ipv4Addr::LOCALHOST, port))
}

/// A port that nobody listened on a moment ago.
pub(crate) fn free_port<R>(rt: &R) -> io::Result<u16>
where
    R: Net<Listener = TcpListener, Stream = TcpStream>,
{
    let listener = TcpListener::bind(rt, address(0))?;
    Ok(listener.local_addr()?.port())
}

/// Connects once somebody listens.
fn connect<R: Net<Listener = TcpListener, Stream = TcpStream> + Clock>(
    rt: &R,
    port: u16,
) -> io::Result<TcpStream> {
    for _ in 0..TRIES {
        if let Ok(stream) = TcpStream::connect(rt, address(port)) {
            return Ok(stream);
        }
        thread::sleep(rt, Duration::from_millis(1));
    }
    TcpStream::connect(rt, address(port))
}

/// The records of a client, whose process is the client's number and whose seconds count them.
fn records_of(alloc: Global, client: u32, records: u32) -> Result<Vec<u8>, AllocError> {
    let mut bytes = Vec::new(alloc);
    for number in 0..records {
        bytes.extend_from_slice(&FRONT)?;
        bytes.extend_from_slice(&client.to_be_bytes())?;
        bytes.extend_from_slice(&number.to_be_bytes())?;
        bytes.extend_from_slice(&END)?;
    }
    Ok(bytes)
}

/// So many clients connect one after another. Then each sends the first half of its records, and
/// after all have, each sends the rest and goes.
pub(crate) fn send_all<R: Net<Listener = TcpListener, Stream = TcpStream> + Clock>(
    rt: &R,
    alloc: Global,
    port: u16,
    clients: u32,
    records: u32,
) -> io::Result<()> {
    let mut streams = Vec::new(alloc);
    for client in 0..clients {
        streams.push((connect(rt, port)?, records_of(alloc, client, records)?))?;
    }
    for (stream, bytes) in &mut streams {
        stream.write_all(bytes.split_at(bytes.len() / 2).0)?;
    }
    for (stream, bytes) in &mut streams {
        stream.write_all(bytes.split_at(bytes.len() / 2).1)?;
    }
    Ok(())
}

/// The lines of so many clients, client after client.
pub(crate) fn expected(alloc: Global, clients: u32, records: u32) -> Result<Vec<u8>, AllocError> {
    let mut lines = String::new(alloc);
    for client in 0..clients {
        for number in 0..records {
            let line = format!(in alloc; "{client} {number},2 {client} LM_DEBUG: hi\n")?;
            lines.push_str(line.as_str())?;
        }
        let line = format!(in alloc; "{client} closed: end\n")?;
        lines.push_str(line.as_str())?;
    }
    Ok(lines.into_bytes())
}

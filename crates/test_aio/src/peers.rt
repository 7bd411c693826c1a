//! Peers of an echo service, on a thread of their own.
use std::alloc::Global;
use std::fs::{File, Files};
use std::io::{Read, Write};
use std::net::{Ipv4Addr, Net, Shutdown, SocketAddr, TcpListener, TcpStream};
use std::time::{Clock, Duration};
use std::{io, thread};

/// How often a peer tries to connect, each time a millisecond later.
const TRIES: u32 = 10_000;

/// What a peer does once all are connected.
#[derive(Clone, Copy)]
pub enum Course {
    /// It goes without a word.
    Leave,
    /// It sends so many bytes, reads as many, and goes.
    Send(usize),
    /// It sends five bytes, ends its side, and reads to the end.
    HalfClose,
    /// It sends five bytes and goes with four of theirs unread: so it is reset.
    Reset,
}

/// The address of a port on this machine.
fn address(port: u16) -> SocketAddr {
    SocketAddr::from((Ipv4Addr::LOCALHOST, port))
}

/// A port that nobody listened on a moment ago.
pub fn free_port<R: Net<Listener = TcpListener, Stream = TcpStream>>(rt: &R) -> io::Result<u16> {
    let listener = TcpListener::bind(rt, address(0))?;
    Ok(listener.local_addr()?.port())
}

/// Whether so many descriptors more can be had.
pub fn has_descriptors<R: Files>(rt: &R, alloc: Global, count: usize) -> bool {
    let mut files = Vec::new(alloc);
    for _ in 0..count {
        let Ok(file) = File::open(rt, "/dev/null") else {
            return false;
        };
        if files.push(file).is_err() {
            return false;
        }
    }
    true
}

/// Connects once somebody listens.
fn connect<R: Net<Listener = TcpListener, Stream = TcpStream> + Clock>(
    rt: &R,
    port: u16,
) -> io::Result<TcpStream> {
    for _ in 0..TRIES {
        if let Ok(stream) = TcpStream::connect(rt, address(port)) {
            return Ok(stream);
        }
        thread::sleep(rt, Duration::from_millis(1));
    }
    TcpStream::connect(rt, address(port))
}

/// So many connections, one after another.
fn connect_all<R: Net<Listener = TcpListener, Stream = TcpStream> + Clock>(
    rt: &R,
    alloc: Global,
    port: u16,
    count: usize,
) -> io::Result<Vec<TcpStream>> {
    let mut streams = Vec::new(alloc);
    for _ in 0..count {
        streams.push(connect(rt, port)?)?;
    }
    Ok(streams)
}

/// The byte at a place of what a peer sends.
fn byte_at(place: usize) -> u8 {
    (place % 251) as u8
}

/// Sends so many bytes, and tells whether as many come back, the same.
fn echoes(alloc: Global, stream: &mut TcpStream, count: usize) -> io::Result<bool> {
    let mut sent = Vec::new(alloc);
    for place in 0..count {
        sent.push(byte_at(place))?;
    }
    stream.write_all(&sent)?;
    let mut came = Vec::new(alloc);
    came.resize(count, 0)?;
    stream.read_exact(&mut came)?;
    Ok(came.as_slice() == sent.as_slice())
}

/// Whether nothing more comes.
fn is_over(stream: &mut TcpStream) -> io::Result<bool> {
    Ok(stream.read(&mut [0; 8])? == 0)
}

/// Takes a course, and tells whether what came back is what was to come.
fn take(alloc: Global, stream: TcpStream, course: Course) -> io::Result<bool> {
    let mut stream = stream;
    match course {
        Course::Leave => Ok(true),
        Course::Send(count) => echoes(alloc, &mut stream, count),
        Course::HalfClose => {
            stream.write_all(b"hello")?;
            stream.shutdown(Shutdown::Write)?;
            let mut came = [0; 5];
            stream.read_exact(&mut came)?;
            Ok(came == *b"hello" && is_over(&mut stream)?)
        }
        Course::Reset => {
            stream.write_all(b"hello")?;
            let mut first = [0];
            stream.read_exact(&mut first)?;
            Ok(first == *b"h")
        }
    }
}

/// Connects a peer for each course, and then takes these one after another. Tells whether all came
/// to what they have to.
pub fn take_all<R: Net<Listener = TcpListener, Stream = TcpStream> + Clock>(
    rt: &R,
    alloc: Global,
    port: u16,
    courses: &[Course],
) -> io::Result<bool> {
    let streams = connect_all(rt, alloc, port, courses.len())?;
    let mut are_well = true;
    for (stream, course) in streams.into_iter().zip(courses) {
        are_well &= take(alloc, stream, *course)?;
    }
    Ok(are_well)
}

/// So many peers are connected at once. Then so many others are, each of which is refused. Each of
/// the first sends, and then each gets its bytes back. Tells whether all did.
pub fn crowd<R: Net<Listener = TcpListener, Stream = TcpStream> + Clock>(
    rt: &R,
    alloc: Global,
    port: u16,
    count: usize,
    refused: usize,
) -> io::Result<bool> {
    let mut streams = connect_all(rt, alloc, port, count)?;
    let mut others = connect_all(rt, alloc, port, refused)?;
    let mut are_well = true;
    for other in &mut others {
        are_well &= is_over(other)?;
    }
    for stream in &mut streams {
        stream.write_all(b"hello")?;
    }
    for stream in &mut streams {
        let mut came = [0; 5];
        stream.read_exact(&mut came)?;
        are_well &= came == *b"hello";
    }
    Ok(are_well)
}

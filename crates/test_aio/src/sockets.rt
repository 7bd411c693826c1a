//! The command over sockets, beside peers on a thread of their own.
use crate::peers::{Course, crowd, free_port, has_descriptors, take_all};
use cmd_aio::{AioServed, aio_main};
use demux_mio::{MioHost, MioNet};
use ev_base::MemSink;
use std::alloc::Global;
use std::fs::Files;
use std::net::{Net, TcpListener, TcpStream};
use std::sync::Wait;
use std::test::Fail;
use std::thread::Threads;
use std::time::Clock;
use std::{str, thread};

/// Peers that are connected at once and take their courses one after another, and the lines of
/// their connections.
struct Row {
    courses: &'static [Course],
    written: &'static [u8],
}

static ROWS: [Row; 5] = [
    Row {
        courses: &[Course::Leave],
        written: b"0 read 0 wrote 0 cancelled 0\n",
    },
    Row {
        courses: &[Course::Send(10_000)],
        written: b"0 read 10000 wrote 10000 cancelled 0\n",
    },
    Row {
        courses: &[Course::HalfClose],
        written: b"0 read 5 wrote 5 cancelled 0\n",
    },
    Row {
        courses: &[Course::Reset],
        written: b"0 read 5 wrote 5 cancelled 0\n",
    },
    Row {
        courses: &[Course::Reset, Course::Send(100_000), Course::HalfClose],
        written: b"0 read 5 wrote 5 cancelled 0\n\
            1 read 100000 wrote 100000 cancelled 0\n\
            2 read 5 wrote 5 cancelled 0\n",
    },
];

/// The words of a run on a port, which ends when so many connections were closed or refused.
fn words_of(alloc: Global, port: u16, until: usize) -> Result<Vec<String>, Fail> {
    let mut words = Vec::new(alloc);
    for word in ["aio", "--port"] {
        words.push(String::from_str(alloc, word)?)?;
    }
    words.push(format!(in alloc; "{port}")?)?;
    words.push(String::from_str(alloc, "--until")?)?;
    words.push(format!(in alloc; "{until}")?)?;
    Ok(words)
}

fn run<R: Net + Clock + Wait + Copy>(
    rt: R,
    alloc: Global,
    words: &[String],
    output: MemSink,
) -> AioServed<MioNet<R>, MemSink> {
    let mut host = MioHost::new(rt);
    aio_main(&rt, alloc, words, &mut host, output)
}

/// Runs the command beside the peers of a row. Tells whether all came to what it has to.
fn is_served<R>(rt: R, alloc: Global, row: &Row) -> Result<bool, Fail>
where
    R: Net<Listener = TcpListener, Stream = TcpStream>
        + Clock
        + Wait
        + Threads
        + Copy
        + Send
        + Sync,
{
    let port = free_port(&rt)?;
    let words = words_of(alloc, port, row.courses.len())?;
    let output = MemSink::new(alloc, 1_000, None)?;
    let courses = row.courses;
    let (served, well) = thread::join(
        &rt,
        || run(rt, alloc, &words, output),
        || take_all(&rt, alloc, port, courses),
    );
    Ok(well? && served.status == 0 && served.output.bytes() == row.written)
}

#[test]
fn peers_get_back_what_they_send(rt: HostRuntime) -> Result<(), Fail> {
    let alloc = rt.alloc();
    for row in &ROWS {
        assert!(rt; is_served(rt, alloc, row)?);
    }
    Ok(())
}

/// The lines of a text, sorted.
fn sorted(alloc: Global, text: &[u8]) -> Result<Vec<String>, Fail> {
    let mut lines = Vec::new(alloc);
    for line in str::from_utf8(text)?.lines() {
        lines.push(String::from_str(alloc, line)?)?;
    }
    lines.sort()?;
    Ok(lines)
}

/// The lines of so many connections that sent five bytes each, and of so many others that were
/// refused after them.
fn crowd_lines(alloc: Global, count: usize, refused: usize) -> Result<Vec<String>, Fail> {
    let mut lines = Vec::new(alloc);
    for conn in 0..count {
        lines.push(format!(in alloc; "{conn} read 5 wrote 5 cancelled 0")?)?;
    }
    for conn in count..count.saturating_add(refused) {
        lines.push(format!(in alloc; "{conn} read 0 wrote 0 cancelled 1")?)?;
    }
    lines.sort()?;
    Ok(lines)
}

/// How many are connected at once, and how many others are refused: all that may be live, unless
/// there are too few descriptors, of which each connection has two here.
fn crowd_of<R: Files>(rt: &R, alloc: Global) -> (usize, usize) {
    if has_descriptors(rt, alloc, 2_050) {
        (1_000, 2)
    } else {
        (100, 0)
    }
}

#[test]
fn a_thousand_are_served_at_once_and_no_more(rt: HostRuntime) -> Result<(), Fail> {
    let alloc = rt.alloc();
    let (count, refused) = crowd_of(&rt, alloc);
    let port = free_port(&rt)?;
    let words = words_of(alloc, port, count.saturating_add(refused))?;
    let output = MemSink::new(alloc, 100_000, None)?;
    let (served, well) = thread::join(
        &rt,
        || run(rt, alloc, &words, output),
        || crowd(&rt, alloc, port, count, refused),
    );
    assert!(rt; well?);
    assert!(rt; served.status == 0);
    let lines = sorted(alloc, served.output.bytes())?;
    assert!(rt; lines.as_slice() == crowd_lines(alloc, count, refused)?.as_slice());
    Ok(())
}

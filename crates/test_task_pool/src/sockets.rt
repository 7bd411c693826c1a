//! The command over sockets, beside clients on a thread of their own.
use crate::clients::{expected, free_port, send_all};
use crate::rows::words_of;
use cmd_pool::{Pooled, pool_main};
use demux_mio::{MioHost, MioNet};
use ev_base::MemSink;
use std::alloc::Global;
use std::net::{Net, TcpListener, TcpStream};
use std::sync::Wait;
use std::test::Fail;
use std::thread::{self, Threads};
use std::time::Clock;

/// A run: how many threads lead and how many make lines, how many clients connect and how many
/// records each sends, after how many bytes the output fails, and the status.
struct Row {
    workers: u32,
    writers: u32,
    clients: u32,
    records: u32,
    fail_after: Option<u64>,
    status: u8,
}

/// One client sends more than the queue of 1,024 holds; 8 workers have 8 clients; and the output
/// fails.
static ROWS: [Row; 3] = [
    Row {
        workers: 1,
        writers: 2,
        clients: 1,
        records: 20_000,
        fail_after: None,
        status: 0,
    },
    Row {
        workers: 8,
        writers: 16,
        clients: 8,
        records: 50,
        fail_after: None,
        status: 0,
    },
    Row {
        workers: 2,
        writers: 2,
        clients: 2,
        records: 50,
        fail_after: Some(100),
        status: 4,
    },
];

/// The words of a run on a port.
fn line_of(alloc: Global, port: u16, row: &Row) -> Result<String, Fail> {
    let Row {
        workers,
        writers,
        clients,
        ..
    } = row;
    Ok(format!(in alloc;
        "pool --port {port} --workers {workers} --writers {writers} --until {clients}"
    )?)
}

fn run<R>(rt: R, alloc: Global, words: &[String], output: MemSink) -> Pooled<MioNet<R>, MemSink>
where
    R: Net + Clock + Threads + Wait + Copy + Send + Sync + 'static,
{
    let mut host = MioHost::with_closer(rt, alloc);
    pool_main(&rt, alloc, words, &mut host, output)
}

/// Runs the command beside the clients of a row. Tells whether it came to what it has to.
fn is_served<R>(rt: R, alloc: Global, row: &Row) -> Result<bool, Fail>
where
    R: Net<Listener = TcpListener, Stream = TcpStream>
        + Clock
        + Wait
        + Threads
        + Copy
        + Send
        + Sync
        + 'static,
{
    let port = free_port(&rt)?;
    let words = words_of(alloc, &line_of(alloc, port, row)?)?;
    let output = MemSink::new(alloc, 1 << 20, row.fail_after)?;
    let (pooled, sent) = thread::join(
        &rt,
        || run(rt, alloc, &words, output),
        || send_all(&rt, alloc, port, row.clients, row.records),
    );
    sent?;
    let lines = expected(alloc, row.clients, row.records)?;
    let written = match row.fail_after {
        Some(count) => lines.get(..count as usize),
        None => Some(lines.as_slice()),
    };
    Ok(pooled.status == row.status && written == Some(pooled.output.bytes()))
}

#[test]
fn records_over_sockets_are_written(rt: HostRuntime) -> Result<(), Fail> {
    let alloc = rt.alloc();
    for row in &ROWS {
        assert!(rt; is_served(rt, alloc, row)?);
    }
    Ok(())
}

//! A run of the logging server's handlers on a one-thread reactor over sockets: what a peer sends
//! comes out as lines, and the journal is legal.
ghost use Rattle.std.specs.Prelude.{◌≡◌, true, IfSome};
ghost use Rattle.ev_base.specs.End.{IsFresh};
ghost use Rattle.ev_base.specs.Net.{IsNew};
ghost use Rattle.demux_mio.specs.Ends.{mio_end_facts};
ghost use Rattle.demux_mio.specs.Nets.{mio_net_facts};
ghost use Rattle.core_loop.specs.Idle.{IsIdle};

use crate::asserts::assert_same;
use acceptor::{Acceptor, ServerHandler};
use core_loop::{RunEnd, close, register, run};
use demux_mio::{MioEnd, MioHost, MioNet};
use ev_base::{Host, Mask, MemSink, Why};
use log_handler::{LineSink, ServerNote};
use reactor_core::{Core, Means, Parts};
use reactor_model::{DropVolumes, EventHandler, Journal, check};
use std::alloc::Global;
use std::io;
use std::io::Write;
use std::net::{Ipv4Addr, Net, SocketAddr, TcpListener, TcpStream};
use std::test::Fail;
use std::time::Clock;
use timer_queue::SortedTimers;

/// A reactor of the server's handlers over sockets.
type ServerCore<R> = Core<
    ServerHandler<MioEnd>,
    MioNet<R>,
    SortedTimers,
    LineSink<MemSink>,
    DropVolumes,
>;

/// How many handlers may be live: the acceptor and one connection.
const MOST: u64 = 2;

/// More entries than the journal gets, so that none is handed over.
const VOLUME: u64 = 1 << 40;

/// A reactor with its acceptor.
fn open<R: Clock + Copy>(
    alloc: Global,
    net: MioNet<R>,
    listener: MioEnd,
    output: MemSink,
) -> Option<ServerCore<R>>
    requires net { IsNew (mio_net_facts net) }
    requires listener { (mio_end_facts listener).listener ≡ true }
    requires fresh { IsFresh (mio_end_facts listener) }
    ensures { IfSome result (λ core. IsIdle ⟦<ServerCore<R> as Means>⟧.m core) }
{
    let made = Core::new(
        alloc,
        MOST,
        VOLUME,
        net,
        SortedTimers::new(alloc),
        LineSink::new(output),
        DropVolumes,
    );
    let Ok(mut core) = made else {
        return None;
    };
    let acceptor = Acceptor::new(alloc, listener, None);
    match register(&mut core, ServerHandler::Listen(acceptor), Mask::READ) {
        Ok(_) => Some(core),
        Err((back, _)) => {
            let _ = back.handle_close(Why::Refused);
            let _ = finish(core);
            None
        }
    }
}

/// What a run leaves: its journal, and the lines of its notes.
#[derive(Drop)]
struct Left {
    journal: Journal<ServerNote>,
    output: MemSink,
}

/// Stops a reactor and takes it apart.
fn finish<R: Clock + Copy>(core: ServerCore<R>) -> Left
    requires { IsIdle ⟦<ServerCore<R> as Means>⟧.m core }
{
    let Parts {
        journal,
        first: _,
        net: _,
        timers: _,
        watch,
        volumes: _,
    } = close(core);
    Left {
        journal,
        output: watch.into_output(),
    }
}

/// A record: type 4, process 7, time 1 s 2 us, and the message `hi`.
const RECORD: [u8; 30] = [
    0, 0, 0, 0, 0, 0, 0, 22, 0, 0, 0, 4, 0, 0, 0, 7, 0, 0, 0, 1, 0, 0, 0, 2, 0, 0, 0, 2, 104, 105,
];

/// A peer connects, sends the record and closes.
fn send<R: Net<Listener = TcpListener, Stream = TcpStream>>(rt: &R, port: u16) -> io::Result<()> {
    let mut peer = TcpStream::connect(rt, SocketAddr::from((Ipv4Addr::LOCALHOST, port)))?;
    peer.write_all(&RECORD)
}

#[test]
fn a_connection_is_served(rt: HostRuntime) -> Result<(), Fail> {
    let alloc = rt.alloc();
    let mut host = MioHost::new(rt);
    let Ok((net, listener, _waker)) = host.listen(alloc, 0) else {
        return Err("no listener".into());
    };
    let port = listener.port().ok_or("no port")?;
    let output = MemSink::new(alloc, 1_000, None)?;
    let Some(mut core) = open(alloc, net, listener, output) else {
        return Err("no reactor".into());
    };
    let sent = send(&rt, port);
    let end = run(&rt, &mut core, Some(10_000), Some(1));
    let left = finish(core);
    assert!(rt; sent.is_ok());
    assert_same(&rt, end, RunEnd::Enough);
    assert_same(
        &rt,
        left.output.bytes(),
        b"0 1,2 7 LM_DEBUG: hi\n0 closed: end\n".as_slice(),
    );
    assert!(rt; check(alloc, left.journal.as_slice(), MOST).is_ok());
    Ok(())
}

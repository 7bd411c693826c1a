//! What an echo service wrote back, by scripts of its one connection.
use crate::turns::{listener_of, make_turns};
use ev_base::{Upcall, Why};
use proactor::{AioHandler, AioNote, AsynchAcceptor};
use reactor_model::{Act, EventHandler, Turn};
use script_net::ScriptEnd;
use std::alloc::Global;
use std::process::Abort;
use std::test::Fail;

struct Row {
    script: &'static str,
    room: usize,
    turns: usize,
    closed: bool,
    sums: (u64, u64, u64),
    held: &'static [u8],
}

/// A peer that sends two pieces and ends its side; one that takes two bytes of three; one that
/// takes none; one that fails; one that stays; and one that is refused before its first turn.
static ROWS: [Row; 6] = [
    Row {
        script: "open 0\ndata 0 6869\ndata 0 6a\nshut 0\n",
        room: 100,
        turns: 20,
        closed: true,
        sums: (3, 3, 0),
        held: b"hij",
    },
    Row {
        script: "open 0\ndata 0 686970\nshut 0\n",
        room: 2,
        turns: 20,
        closed: false,
        sums: (3, 2, 1),
        held: b"hi",
    },
    Row {
        script: "open 0\ndata 0 6869\n",
        room: 0,
        turns: 20,
        closed: false,
        sums: (2, 0, 1),
        held: b"",
    },
    Row {
        script: "open 0\ndata 0 61\nfail 0\n",
        room: 100,
        turns: 20,
        closed: true,
        sums: (1, 1, 0),
        held: b"a",
    },
    Row {
        script: "open 0\ndata 0 6869\n",
        room: 100,
        turns: 20,
        closed: false,
        sums: (2, 2, 1),
        held: b"hi",
    },
    Row {
        script: "open 0\ndata 0 6869\n",
        room: 100,
        turns: 0,
        closed: false,
        sums: (0, 0, 1),
        held: b"",
    },
];

/// The handler of the connection that an acceptor takes.
fn taken(acceptor: &mut AioHandler<ScriptEnd>) -> Option<AioHandler<ScriptEnd>> {
    let Turn {
        answer: _,
        note: _,
        act,
    } = acceptor.upcall(Upcall::Input, 0);
    match act {
        Some(
            Act::Install {
                handler,
                mask: _mask,
                timer: _timer,
            },
        ) => Some(handler),
        Some(Act::MaskMine(_mask)) => None,
        Some(Act::CancelMine { timer: _timer }) => None,
        Some(Act::Stop) => None,
        None => None,
    }
}

/// How the connection ended: whether it closed itself, its last note, and its end.
fn serve(connection: AioHandler<ScriptEnd>, turns: usize) -> (bool, AioNote, ScriptEnd) {
    let mut connection = connection;
    let closed = make_turns(&mut connection, turns);
    let why = if closed { Why::Own } else { Why::Removed };
    let (end, note) = connection.handle_close(why);
    (closed, note, end)
}

fn sums_of(note: AioNote) -> (u64, u64, u64) {
    match note {
        AioNote::End(note) => (note.read, note.wrote, note.cancelled),
        _ => (9, 9, 9),
    }
}

fn see(rt: &impl Abort, row: &Row, connection: AioHandler<ScriptEnd>) {
    let (closed, note, end) = serve(connection, row.turns);
    assert!(*rt; closed == row.closed);
    assert!(*rt; sums_of(note) == row.sums);
    assert!(*rt; end.held() == row.held);
}

fn see_row(rt: &impl Abort, alloc: Global, row: &Row) -> Result<(), Fail> {
    let listener = listener_of(alloc, row.script, row.room)?;
    let mut acceptor = AioHandler::Listen(AsynchAcceptor::new(alloc, listener));
    let connection = taken(&mut acceptor);
    acceptor.handle_close(Why::Removed);
    match connection {
        Some(connection) => {
            see(rt, row, connection);
            Ok(())
        }
        None => Err("no connection".into()),
    }
}

#[test]
fn an_echo_service_writes_back_what_it_reads(rt: HostRuntime) -> Result<(), Fail> {
    for row in &ROWS {
        see_row(&rt, rt.alloc(), row)?;
    }
    Ok(())
}

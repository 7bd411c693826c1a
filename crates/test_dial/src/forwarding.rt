//! The turns of the forwarding service over an end in memory.
use crate::lists::{list_of, source_of};
use connector::{ConnectNote, Connector};
use dial_memory::MemDialEnd;
use ev_base::{Answer, Finish, MemSource, Upcall, Why};
use forwarder::{ForwardEnd, ForwardEnding, Forwarder};
use reactor_model::{EventHandler, Turn};
use std::alloc::Global;
use std::test::Fail;

struct Row {
    pieces: &'static [&'static [u8]],
    read_fails: &'static [u64],
    takes: &'static [u64],
    write_fails: &'static [u64],
    // The answer, the totals of records and bytes, and how it ended.
    turns: &'static [(Answer, u64, u64, Option<ForwardEnding>)],
    held: &'static [u8],
}

/// A record of a two byte message, little-endian, and as it is sent.
const LITTLE: &[u8] = &[
    1, 0, 0, 0, 22, 0, 0, 0, 4, 0, 0, 0, 7, 0, 0, 0, 1, 0, 0, 0, 2, 0, 0, 0, 2, 0, 0, 0, 104, 105,
];

const BIG: &[u8] = &[
    0, 0, 0, 0, 0, 0, 0, 22, 0, 0, 0, 4, 0, 0, 0, 7, 0, 0, 0, 1, 0, 0, 0, 2, 0, 0, 0, 2, 104, 105,
];

/// One whose seconds do not fit version 1, with slack, and as it is sent.
const WIDE: &[u8] = &[
    3, 9, 9, 9, 28, 0, 0, 0, 4, 0, 0, 0, 7, 0, 0, 0, 0, 0, 0, 0, 1, 0, 0, 0, 2, 0, 0, 0, 2, 0, 0,
    0, 104, 105, 5, 5,
];

const WIDE_BIG: &[u8] = &[
    2, 0, 0, 0, 0, 0, 0, 26, 0, 0, 0, 4, 0, 0, 0, 7, 0, 0, 0, 1, 0, 0, 0, 0, 0, 0, 0, 2, 0, 0, 0,
    2, 104, 105,
];

static ROWS: [Row; 7] = [
    // A write takes a part, the next one pauses, and the rest is sent before the source is read on.
    Row {
        pieces: &[LITTLE],
        read_fails: &[],
        takes: &[10, 0, 20],
        write_fails: &[],
        turns: &[
            (Answer::Again, 1, 10, None),
            (Answer::Keep, 1, 10, None),
            (Answer::Again, 1, 30, None),
            (Answer::Close, 1, 30, Some(ForwardEnding::End)),
        ],
        held: BIG,
    },
    Row {
        pieces: &[WIDE],
        read_fails: &[],
        takes: &[],
        write_fails: &[],
        turns: &[
            (Answer::Again, 1, 34, None),
            (Answer::Close, 1, 34, Some(ForwardEnding::End)),
        ],
        held: WIDE_BIG,
    },
    // A record that comes in two pieces.
    Row {
        pieces: &[
            &[1, 0, 0],
            &[
                0, 22, 0, 0, 0, 4, 0, 0, 0, 7, 0, 0, 0, 1, 0, 0, 0, 2, 0, 0, 0, 2, 0, 0, 0, 104,
                105, 9,
            ],
        ],
        read_fails: &[],
        takes: &[],
        write_fails: &[],
        turns: &[
            (Answer::Again, 0, 0, None),
            (
                Answer::Close,
                1,
                30,
                Some(ForwardEnding::BadRecord { at: 30 }),
            ),
        ],
        held: BIG,
    },
    // An unfinished record.
    Row {
        pieces: &[LITTLE, &[1]],
        read_fails: &[],
        takes: &[],
        write_fails: &[],
        turns: &[
            (Answer::Again, 1, 30, None),
            (Answer::Again, 1, 30, None),
            (
                Answer::Close,
                1,
                30,
                Some(ForwardEnding::BadRecord { at: 30 }),
            ),
        ],
        held: BIG,
    },
    Row {
        pieces: &[LITTLE],
        read_fails: &[1],
        takes: &[],
        write_fails: &[],
        turns: &[
            (Answer::Again, 1, 30, None),
            (Answer::Close, 1, 30, Some(ForwardEnding::ReadFailed)),
        ],
        held: BIG,
    },
    Row {
        pieces: &[LITTLE],
        read_fails: &[],
        takes: &[12],
        write_fails: &[1],
        turns: &[
            (Answer::Again, 1, 12, None),
            (Answer::Close, 1, 12, Some(ForwardEnding::PeerFailed)),
        ],
        held: &[0, 0, 0, 0, 0, 0, 0, 22, 0, 0, 0, 4],
    },
    // No input.
    Row {
        pieces: &[],
        read_fails: &[],
        takes: &[],
        write_fails: &[],
        turns: &[(Answer::Close, 0, 0, Some(ForwardEnding::End))],
        held: &[],
    },
];

type Forwarding = Connector<ForwardEnd<MemDialEnd, MemSource>, Forwarder<MemDialEnd, MemSource>>;

/// The answer of a turn, and what the service noted of it, if it was one of the service's.
type Told = (Answer, Option<(u64, u64, Option<ForwardEnding>)>);

/// Makes a turn at moment 7. The first asks whether the connection is made.
fn turn(connector: &mut Forwarding) -> Result<Told, Fail> {
    let Turn { answer, note, act } = connector.upcall(Upcall::Output, 7);
    match act {
        None => {}
        Some(_) => unreachable!("no turn of a connector carries an act"),
    }
    match note {
        ConnectNote::Live(said) => Ok((answer, Some((said.records, said.bytes, said.ended)))),
        _ => Ok((answer, None)),
    }
}

fn make_turns(connector: &mut Forwarding, row: &Row) -> Result<bool, Fail> {
    let mut right = turn(connector)? == (Answer::Again, None);
    for (answer, records, bytes, ended) in row.turns {
        right = turn(connector)? == (*answer, Some((*records, *bytes, *ended))) && right;
    }
    Ok(right)
}

#[test]
fn records_are_forwarded_as_the_peer_takes_them(rt: HostRuntime) -> Result<(), Fail> {
    let alloc = rt.alloc();
    for row in &ROWS {
        let end = MemDialEnd::new(
            alloc,
            64,
            list_of(alloc, &[Finish::Done])?,
            list_of(alloc, row.takes)?,
            list_of(alloc, row.write_fails)?,
        )?;
        let end = ForwardEnd::new(end, source_of(alloc, row.pieces, row.read_fails)?);
        let mut connector = Connector::new(end, Forwarder::new(alloc));
        let made = make_turns(&mut connector, row);
        let (end, _note) = connector.handle_close(Why::Removed);
        let (peer, _input) = end.into_parts();
        assert!(rt; made?);
        assert!(rt; peer.held() == row.held);
    }
    Ok(())
}

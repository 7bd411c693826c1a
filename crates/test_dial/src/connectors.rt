//! The turns of a connector, by the answers of its end.
use crate::lists::list_of;
use connector::{ConnectNote, Connector, Service};
use dial_memory::MemDialEnd;
use ev_base::{Answer, DialEnd, Finish, PeerEnd, Sent, Upcall, Why};
use reactor_model::{EventHandler, Turn};
use std::alloc::Global;
use std::test::Fail;

/// What the service sends.
static BYTES: &[u8] = b"8 bytes.";

/// A service that writes eight bytes and ends.
#[derive(Drop)]
struct Sender {
    at: usize,
}

impl Service for Sender {
    type End = MemDialEnd;

    type Note = u64;

    ghost serves = { λ t service end had. Unit {0} };

    fn live(&mut self, end: &mut MemDialEnd, up: Upcall, _now: u64) -> (Answer, u64) {
        let (answer, count) = match BYTES.get(self.at..) {
            Some(rest) if !rest.is_empty() => match end.write(rest) {
                Sent::Bytes(count) => (Answer::Again, count),
                Sent::Pause => (Answer::Keep, 0),
                Sent::Failed => (Answer::Close, 0),
            },
            _ => (Answer::Close, 0),
        };
        self.at = self.at.saturating_add(count).min(8);
        match up {
            Upcall::Timeout { .. } => (Answer::Keep, count as u64),
            _ => (answer, count as u64),
        }
    }

    ghost finished = { λ t service old new answer had done keeps served. tt };

    ghost attached = { λ t service old new had told keeps served. tt };
}

struct Row {
    finishes: &'static [Finish],
    takes: &'static [u64],
    upcalls: &'static [Upcall],
    told: &'static str,
    held: &'static [u8],
}

const WRITE: Upcall = Upcall::Output;

const TIME: Upcall = Upcall::Timeout { timer: 0 };

static ROWS: [Row; 6] = [
    Row {
        finishes: &[Finish::Done],
        takes: &[3, 0, 5],
        upcalls: &[WRITE, WRITE, WRITE, WRITE, WRITE],
        told: "connected again, sent again, sent keep, sent again, sent close, ",
        held: b"8 bytes.",
    },
    Row {
        finishes: &[Finish::Pause],
        takes: &[],
        upcalls: &[WRITE, TIME],
        told: "waiting keep, timed out close, ",
        held: b"",
    },
    Row {
        finishes: &[Finish::Pause, Finish::Failed],
        takes: &[],
        upcalls: &[WRITE, Upcall::Input, WRITE],
        told: "waiting keep, waiting keep, failed close, ",
        held: b"",
    },
    Row {
        finishes: &[Finish::Pause, Finish::Done],
        takes: &[2],
        upcalls: &[WRITE, WRITE, TIME, WRITE, WRITE, WRITE],
        told: "waiting keep, connected again, waiting keep, sent again, sent again, sent close, ",
        held: b"8 bytes.",
    },
    Row {
        finishes: &[],
        takes: &[],
        upcalls: &[WRITE, Upcall::Except, WRITE],
        told: "waiting keep, waiting keep, waiting keep, ",
        held: b"",
    },
    Row {
        finishes: &[Finish::Done],
        takes: &[3],
        upcalls: &[WRITE, WRITE],
        told: "connected again, sent again, ",
        held: b"8 b",
    },
];

fn word_of(note: &ConnectNote<u64>) -> &'static str {
    match note {
        ConnectNote::Waiting => "waiting ",
        ConnectNote::Connected => "connected ",
        ConnectNote::Live(_) => "sent ",
        ConnectNote::Failed => "failed ",
        ConnectNote::TimedOut { now: 7 } => "timed out ",
        ConnectNote::TimedOut { .. } => "timed out at another moment ",
        ConnectNote::Shut => "shut ",
    }
}

fn answer_word(answer: Answer) -> &'static str {
    match answer {
        Answer::Keep => "keep, ",
        Answer::Again => "again, ",
        Answer::Close => "close, ",
    }
}

/// Makes a turn at moment 7, and adds what it told.
fn tell(
    connector: &mut Connector<MemDialEnd, Sender>,
    up: Upcall,
    told: &mut String,
) -> Result<(), Fail> {
    let Turn { answer, note, act } = connector.upcall(up, 7);
    match act {
        None => {}
        Some(_) => unreachable!("no turn of a connector carries an act"),
    }
    told.push_str(word_of(&note))?;
    told.push_str(answer_word(answer))?;
    Ok(())
}

fn make_turns(
    connector: &mut Connector<MemDialEnd, Sender>,
    upcalls: &[Upcall],
    told: &mut String,
) -> Result<(), Fail> {
    for up in upcalls {
        tell(connector, *up, told)?;
    }
    Ok(())
}

#[test]
fn connectors_ask_until_their_connection_is_made(rt: HostRuntime) -> Result<(), Fail> {
    let alloc = rt.alloc();
    for row in &ROWS {
        let end = MemDialEnd::new(
            alloc,
            8,
            list_of(alloc, row.finishes)?,
            list_of(alloc, row.takes)?,
            Vec::new(alloc),
        )?;
        let mut connector = Connector::new(end, Sender { at: 0 });
        let mut told = String::new(alloc);
        let made = make_turns(&mut connector, row.upcalls, &mut told);
        let (end, _note) = connector.handle_close(Why::Removed);
        made?;
        assert!(rt; told.as_str() == row.told);
        assert!(rt; end.held() == row.held);
    }
    Ok(())
}

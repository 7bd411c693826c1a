//! Other completion handlers: one with two reads at once, and one with two writes for a read.
ghost use Rattle.std.specs.Prelude.{◌≡◌, IfOk, false};
ghost use Rattle.ev_base.specs.End.{IsFresh};
ghost use Rattle.script_net.specs.ScriptEnd.{script_end_facts};
ghost use Rattle.proactor.specs.Operations.{AreOps, IsOpOrNone};

use crate::turns::{listener_of, make_turns};
use cdr_record::Bytes;
use ev_base::{NoMemory, PeerEnd, Taken, Why};
use proactor::{AsynchEnd, Completed, CompletionHandler, Next, Op, Ops, Outcome};
use reactor_model::EventHandler;
use script_net::ScriptEnd;
use std::alloc::Global;
use std::process::Abort;
use std::test::Fail;

fn asks(first: Option<Op>, second: Option<Op>, done: bool) -> Next
    requires first { IsOpOrNone first }
    requires second { IsOpOrNone second }
    ensures { AreOps result.ops }
{
    Next {
        ops: Ops { first, second },
        done,
    }
}

fn read(id: u64) -> Option<Op>
    ensures { IsOpOrNone result }
{
    Some(Op::Read { id, want: 2 })
}

/// It asks for two reads after the first one, so that two stand at once, and writes what each gave.
#[derive(Drop)]
struct Pairs;

impl CompletionHandler for Pairs {
    ghost follows = { λ handler first list. Unit {0} };

    fn completed(&mut self, completed: Completed) -> Result<Next, NoMemory> {
        let Completed { id, outcome } = completed;
        match outcome {
            Outcome::Read(bytes) => Ok(pair_of(id, bytes)),
            Outcome::Wrote if id == 0 => Ok(asks(read(1), None, false)),
            Outcome::Over => Ok(asks(None, None, true)),
            _ => Ok(asks(None, None, false)),
        }
    }
}

/// A write of what a read gave; for the second one, also the next two reads.
fn pair_of(id: u64, bytes: Bytes) -> Next
    ensures { AreOps result.ops }
{
    if bytes.as_slice().is_empty() {
        return asks(None, None, true);
    }
    asks(
        Some(Op::Write { id, bytes }),
        read(id.wrapping_add(2)),
        false,
    )
}

/// It writes what a read gave in two pieces.
#[derive(Drop)]
struct Halves {
    alloc: Global,
}

impl CompletionHandler for Halves {
    ghost follows = { λ handler first list. Unit {0} };

    fn completed(&mut self, completed: Completed) -> Result<Next, NoMemory> {
        let Completed { id, outcome } = completed;
        match outcome {
            Outcome::Read(bytes) => halves_of(self.alloc, bytes),
            Outcome::Wrote if id == 2 => Ok(asks(read(0), None, false)),
            Outcome::Over => Ok(asks(None, None, true)),
            _ => Ok(asks(None, None, false)),
        }
    }
}

/// A write of some bytes, if there are any.
fn write(id: u64, bytes: Vec<u8>) -> Option<Op>
    ensures { IsOpOrNone result }
{
    if bytes.is_empty() {
        return None;
    }
    Some(Op::Write {
        id,
        bytes: Bytes::new(bytes),
    })
}

fn halves_of(alloc: Global, bytes: Bytes) -> Result<Next, NoMemory>
    ensures { IfOk result (λ next. AreOps next.ops) }
{
    let (front, rest) = match bytes.as_slice() {
        [first, rest @ ..] => (
            Vec::from_slice(alloc, &[*first])?,
            Vec::from_slice(alloc, rest)?,
        ),
        [] => (Vec::new(alloc), Vec::new(alloc)),
    };
    if rest.is_empty() {
        return Ok(asks(write(2, front), None, false));
    }
    Ok(asks(write(1, front), write(2, rest), false))
}

fn see<C: CompletionHandler + Drop>(
    rt: &impl Abort,
    handler: AsynchEnd<ScriptEnd, C>,
    sums: (u64, u64, u64),
    held: &[u8],
) {
    let mut handler = handler;
    let closed = make_turns(&mut handler, 30);
    assert!(*rt; closed);
    let (end, note) = handler.handle_close(Why::Own);
    assert!(*rt; (note.read, note.wrote, note.completed) == sums);
    assert!(*rt; end.held() == held);
}

/// The end of the connection of a script.
fn end_of(alloc: Global, script: &str, room: usize) -> Result<ScriptEnd, Fail>
    ensures no_listener { IfOk result (λ end. (script_end_facts end).listener ≡ false) }
    ensures fresh { IfOk result (λ end. IsFresh (script_end_facts end)) }
{
    let mut listener = listener_of(alloc, script, room)?;
    match listener.accept() {
        Taken::One(end) => Ok(end),
        _ => Err("no connection".into()),
    }
}

#[test]
fn two_reads_complete_in_their_order(rt: HostRuntime) -> Result<(), Fail> {
    let script = "open 0\ndata 0 616263\ndata 0 64\ndata 0 65\nshut 0\n";
    let end = end_of(rt.alloc(), script, 100)?;
    let first = Op::Read { id: 0, want: 2 };
    let handler = AsynchEnd::new(rt.alloc(), 0, end, Pairs, first);
    see(&rt, handler, (5, 5, 10), b"abcde");
    Ok(())
}

#[test]
fn a_read_is_written_in_two_pieces(rt: HostRuntime) -> Result<(), Fail> {
    let script = "open 0\ndata 0 616263\ndata 0 646566\nshut 0\n";
    let end = end_of(rt.alloc(), script, 100)?;
    let first = Op::Read { id: 0, want: 3 };
    let handler = Halves { alloc: rt.alloc() };
    let handler = AsynchEnd::new(rt.alloc(), 0, end, handler, first);
    see(&rt, handler, (6, 6, 9), b"abcdef");
    Ok(())
}

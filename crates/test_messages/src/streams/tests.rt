//! Streams of modules: worked examples.

ghost use Rattle.std.specs.Prelude.{◌≡◌, ◌≤◌, false, length};
ghost use Rattle.module_stream.specs.Streams.{has_started};

use crate::asserts::assert_same;
use crate::streams::KeepTask;
use crate::streams::queues::message_of;
use ev_base::NoMemory;
use message_block::Message;
use module_stream::{
    FormatTask, Messages, Module, PassTask, Passed, PushRefused, SeparateTask, Stream,
    StreamRefused,
};
use std::alloc::Global;
use std::process::Abort;
use std::test::Fail;

/// Pushes a module, and tells the refusal with the name of the module that came back.
fn push(stream: &mut Stream, module: Module) -> Option<(u32, PushRefused)>
    requires { has_started stream.old ≡ false }
    ensures { has_started stream.new ≡ false }
{
    match stream.push(module) {
        Ok(()) => None,
        Err((back, refused)) => Some((back.name, refused)),
    }
}

/// Pushes a module, and finds that the stream takes it.
fn push_one(rt: &impl Abort, stream: &mut Stream, module: Module)
    requires { has_started stream.old ≡ false }
    ensures { has_started stream.new ≡ false }
{
    assert_same(rt, push(stream, module), None);
}

/// The name of the module just below the head, which is taken.
fn pop_name(stream: &mut Stream) -> Option<u32>
    requires { has_started stream.old ≡ false }
{
    match stream.pop() {
        Some(module) => Some(module.name),
        None => None,
    }
}

/// A module that passes messages on both ways.
fn passing(alloc: Global, name: u32) -> Result<Module, NoMemory> {
    Ok(Module {
        name,
        writer: Box::new(alloc, PassTask::new(alloc))?,
        reader: Box::new(alloc, PassTask::new(alloc))?,
    })
}

/// A module that ends each message on the way down with a line feed.
fn separating(alloc: Global, name: u32) -> Result<Module, NoMemory> {
    Ok(Module {
        name,
        writer: Box::new(alloc, SeparateTask::new(alloc))?,
        reader: Box::new(alloc, PassTask::new(alloc))?,
    })
}

/// A module that makes the text of each record on the way down.
fn formatting(alloc: Global, name: u32) -> Result<Module, NoMemory> {
    Ok(Module {
        name,
        writer: Box::new(alloc, FormatTask::new(alloc))?,
        reader: Box::new(alloc, PassTask::new(alloc))?,
    })
}

/// A module that keeps the messages on the way down.
fn keeping_down(alloc: Global, name: u32) -> Result<Module, NoMemory> {
    Ok(Module {
        name,
        writer: Box::new(alloc, KeepTask::new(alloc))?,
        reader: Box::new(alloc, PassTask::new(alloc))?,
    })
}

/// A module that keeps the messages on the way up.
fn keeping_up(alloc: Global, name: u32) -> Result<Module, NoMemory> {
    Ok(Module {
        name,
        writer: Box::new(alloc, PassTask::new(alloc))?,
        reader: Box::new(alloc, KeepTask::new(alloc))?,
    })
}

/// How many messages there are, and the number of blocks and bytes of the first.
type Sizes = Result<(usize, usize, u64), StreamRefused>;

/// The sizes of messages.
fn sizes(messages: Result<Messages, StreamRefused>) -> Sizes {
    let messages = messages?;
    let list = messages.as_slice();
    match list.first() {
        Some(message) => Ok((list.len(), message.blocks().len(), message.total_length())),
        None => Ok((0, 0, 0)),
    }
}

/// A message of these bytes, of priority 1.
fn text(alloc: Global, bytes: &[u8]) -> Result<Message, StreamRefused>
    requires { length bytes.now ≤ 1048576 }
{
    match message_of(alloc, bytes, 1) {
        Ok(message) => Ok(message),
        Err(NoMemory) => Err(StreamRefused::NoMemory),
    }
}

/// The sizes of what comes out when a message of these bytes is put at the head.
fn put(alloc: Global, stream: &mut Stream, bytes: &[u8]) -> Sizes
    requires { length bytes.now ≤ 1048576 }
{
    let message = text(alloc, bytes)?;
    sizes(stream.put(message))
}

/// The sizes of what comes out when a message of these bytes is put at the tail.
fn put_up(alloc: Global, stream: &mut Stream, bytes: &[u8]) -> Sizes
    requires { length bytes.now ≤ 1048576 }
{
    let message = text(alloc, bytes)?;
    sizes(stream.put_up(message))
}

/// The sizes of what was passed on.
fn passed_sizes(alloc: Global, passed: Passed) -> Sizes {
    match passed.into_messages(alloc) {
        Ok(messages) => sizes(Ok(messages)),
        Err(NoMemory) => Err(StreamRefused::NoMemory),
    }
}

/// The sizes of what comes out when a message of these bytes is passed at the head.
fn pass(alloc: Global, stream: &mut Stream, bytes: &[u8]) -> Sizes
    requires { length bytes.now ≤ 1048576 }
{
    let message = text(alloc, bytes)?;
    passed_sizes(alloc, stream.pass(message)?)
}

/// The sizes of what comes out when a message of these bytes is passed at the tail.
fn pass_up(alloc: Global, stream: &mut Stream, bytes: &[u8]) -> Sizes
    requires { length bytes.now ≤ 1048576 }
{
    let message = text(alloc, bytes)?;
    passed_sizes(alloc, stream.pass_up(message)?)
}

/// The name of the module that is pushed in a turn, and the refusal: sixteen are taken, and after
/// them none.
fn turn_of(turn: u32) -> (u32, Option<(u32, PushRefused)>) {
    match turn {
        16 => (16, Some((16, PushRefused::Full { modules: 16 }))),
        17 => (7, Some((7, PushRefused::SameName))),
        name => (name, None),
    }
}

#[test]
fn modules(rt: HostRuntime) -> Result<(), Fail> {
    let alloc = rt.alloc();
    let mut stream = Stream::new(alloc);
    for turn in 0..18 {
        let (name, refused) = turn_of(turn);
        let module = passing(alloc, name)?;
        assert_same(&rt, push(&mut stream, module), refused);
    }
    assert_same(&rt, pop_name(&mut stream), Some(15));
    Ok(())
}

/// Puts and passes messages both ways through a stream of one module that passes them on, and
/// finishes it.
fn go_through(rt: &impl Abort, alloc: Global, stream: &mut Stream) {
    assert_same(rt, put(alloc, stream, b"down"), Ok((1, 1, 4)));
    assert_same(rt, put_up(alloc, stream, b"up"), Ok((1, 1, 2)));
    assert_same(rt, pass(alloc, stream, b"past"), Ok((1, 1, 4)));
    assert_same(rt, pass_up(alloc, stream, b"back"), Ok((1, 1, 4)));
    assert_same(rt, sizes(stream.finish()), Ok((0, 0, 0)));
    assert_same(rt, put(alloc, stream, b"late"), Err(StreamRefused::Spent));
}

#[test]
fn messages(rt: HostRuntime) -> Result<(), Fail> {
    let module = passing(rt.alloc(), 1)?;
    let mut stream = Stream::new(rt.alloc());
    push_one(&rt, &mut stream, module);
    go_through(&rt, rt.alloc(), &mut stream);
    Ok(())
}

/// The priority of the only message, and its two blocks are this text and a line feed, without
/// space.
fn line_priority(messages: &[Message], text: &[u8]) -> Option<u32> {
    let [message] = messages else {
        return None;
    };
    let [first, second] = message.blocks() else {
        return None;
    };
    let is_line = first.bytes() == text
        && second.bytes() == b"\n".as_slice()
        && first.space() == 0
        && second.space() == 0;
    if is_line {
        Some(message.priority())
    } else {
        None
    }
}

/// Puts a record into a stream that makes lines of records, and finishes it.
fn put_record(rt: &impl Abort, stream: &mut Stream, record: Message) -> Result<(), Fail> {
    let given = stream.put(record).ok().ok_or("a message")?;
    assert_same(
        rt,
        line_priority(given.as_slice(), b"1,2 7 LM_DEBUG: hi"),
        Some(3),
    );
    assert_same(rt, sizes(stream.finish()), Ok((0, 0, 0)));
    Ok(())
}

#[test]
fn a_record_becomes_its_line(rt: HostRuntime) -> Result<(), Fail> {
    let alloc = rt.alloc();
    let separating = separating(alloc, 1)?;
    let formatting = formatting(alloc, 2)?;
    let bytes = b"\x00\x00\x00\x00\x00\x00\x00\x16\x00\x00\x00\x04\x00\x00\x00\x07\x00\
          \x00\x00\x01\x00\x00\x00\x02\x00\x00\x00\x02hi";
    let record = message_of(alloc, bytes, 3)?;
    let mut stream = Stream::new(alloc);
    push_one(&rt, &mut stream, separating);
    push_one(&rt, &mut stream, formatting);
    put_record(&rt, &mut stream, record)
}

/// Passes a message down and puts one that is kept on its way up, and finishes the stream.
fn go_past(rt: &impl Abort, alloc: Global, stream: &mut Stream) {
    assert_same(rt, pass(alloc, stream, b"down"), Ok((1, 2, 5)));
    assert_same(rt, put_up(alloc, stream, b"up"), Ok((0, 0, 0)));
    assert_same(rt, sizes(stream.finish()), Ok((0, 0, 0)));
}

#[test]
fn passing_tasks_are_passed_by(rt: HostRuntime) -> Result<(), Fail> {
    let passing = passing(rt.alloc(), 1)?;
    assert_same(&rt, passing.writer.is_passing(), true);
    let separating = separating(rt.alloc(), 2)?;
    assert_same(&rt, separating.writer.is_passing(), false);
    let keeping = keeping_up(rt.alloc(), 3)?;
    let mut stream = Stream::new(rt.alloc());
    push_one(&rt, &mut stream, passing);
    push_one(&rt, &mut stream, separating);
    push_one(&rt, &mut stream, keeping);
    go_past(&rt, rt.alloc(), &mut stream);
    Ok(())
}

/// Puts messages into a stream that keeps them, and finishes it.
fn keep_two(rt: &impl Abort, alloc: Global, stream: &mut Stream) {
    for bytes in [b"one", b"two"] {
        assert_same(rt, put(alloc, stream, bytes.as_slice()), Ok((0, 0, 0)));
    }
    assert_same(rt, sizes(stream.finish()), Ok((2, 2, 4)));
}

#[test]
fn kept_messages_come_at_the_end(rt: HostRuntime) -> Result<(), Fail> {
    let separating = separating(rt.alloc(), 1)?;
    let keeping = keeping_down(rt.alloc(), 2)?;
    let mut stream = Stream::new(rt.alloc());
    push_one(&rt, &mut stream, separating);
    push_one(&rt, &mut stream, keeping);
    keep_two(&rt, rt.alloc(), &mut stream);
    Ok(())
}

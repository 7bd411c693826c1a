//! Marks, priorities and blocks: worked examples.

ghost use Rattle.std.specs.Prelude.{◌≡◌, ◌≤◌, [], length, IfOk};

use crate::asserts::assert_same;
use ev_base::NoMemory;
use message_block::*;
use std::alloc::Global;
use std::process::Abort;
use std::test::Fail;

/// A message of one block with these bytes.
pub(crate) fn message_of(alloc: Global, bytes: &[u8], priority: u32) -> Result<Message, NoMemory>
    requires { length bytes.now ≤ 1048576 }
    ensures { IfOk result (λ message. length message.blocks ≡ 1) }
{
    let mut block = Block::new(alloc, bytes.len())?;
    let _ = block.write(bytes);
    match Message::new(alloc, block, priority) {
        Ok(message) => Ok(message),
        Err((_, refused)) => Err(refused),
    }
}

/// Puts a message at the tail, and tells the refusal with the length of the message that came back.
fn put_tail(queue: &mut MessageQueue, message: Message) -> Option<(u64, EnqueueRefused)> {
    match queue.enqueue_tail(message) {
        Ok(()) => None,
        Err((back, refused)) => Some((back.total_length(), refused)),
    }
}

/// Puts a message by its priority, and tells whether it was taken.
fn put_prio(queue: &mut MessageQueue, message: Message) -> bool {
    match queue.enqueue_prio(message) {
        Ok(()) => true,
        Err(_) => false,
    }
}

/// Takes the first message: its priority, its first byte, and whether the queue was relieved.
fn take(queue: &mut MessageQueue) -> Result<(u32, Option<u8>, bool), DequeueRefused> {
    let taken = queue.dequeue_head()?;
    let first = match taken.message.blocks().first() {
        Some(block) => block.bytes().first().copied(),
        None => None,
    };
    Ok((taken.message.priority(), first, taken.relieved))
}

/// Puts a message of these bytes at the tail, and tells the refusal with the length of the message
/// that came back.
fn put_text(
    alloc: Global,
    queue: &mut MessageQueue,
    bytes: &[u8],
) -> Result<Option<(u64, EnqueueRefused)>, NoMemory>
    requires { length bytes.now ≤ 1048576 }
{
    let message = message_of(alloc, bytes, 0)?;
    Ok(put_tail(queue, message))
}

/// Fills a queue to its high mark, and takes its messages until it is empty.
fn fill_and_empty(
    rt: &impl Abort,
    alloc: Global,
    queue: &mut MessageQueue,
) -> Result<(), NoMemory> {
    for bytes in [b"first.", b"second"] {
        assert_same(rt, put_text(alloc, queue, bytes)?, None);
    }
    assert_same(
        rt,
        put_text(alloc, queue, b"third.")?,
        Some((6, EnqueueRefused::Full { bytes: 12 })),
    );
    for wanted in [
        Ok((0, Some(b'f'), false)),
        Ok((0, Some(b's'), true)),
        Err(DequeueRefused::Empty),
    ] {
        assert_same(rt, take(queue), wanted);
    }
    Ok(())
}

/// Makes a queue refuse messages, and take them again.
fn stop_and_go(rt: &impl Abort, alloc: Global, queue: &mut MessageQueue) -> Result<(), NoMemory> {
    queue.deactivate();
    assert_same(
        rt,
        put_text(alloc, queue, b"fourth")?,
        Some((6, EnqueueRefused::Inactive)),
    );
    assert_same(rt, take(queue), Err(DequeueRefused::Inactive));
    queue.activate();
    let message = message_of(alloc, b"fourth", 0)?;
    assert!(rt; queue.enqueue_head(message).is_ok());
    Ok(())
}

#[test]
fn marks(rt: HostRuntime) -> Result<(), Fail> {
    let mut queue = MessageQueue::new(rt.alloc(), 10, 4);
    let mut ended = fill_and_empty(&rt, rt.alloc(), &mut queue);
    if ended.is_ok() {
        ended = stop_and_go(&rt, rt.alloc(), &mut queue);
    }
    drop(queue);
    Ok(ended?)
}

/// Puts messages by their priorities, and takes them by falling ones.
fn take_by_priority(
    rt: &impl Abort,
    alloc: Global,
    queue: &mut MessageQueue,
) -> Result<(), NoMemory> {
    for (bytes, priority) in [(b"l", 1), (b"o", 5), (b"t", 5), (b"m", 3)] {
        let message = message_of(alloc, bytes, priority)?;
        assert!(rt; put_prio(queue, message));
    }
    for (byte, priority) in [(b'o', 5), (b't', 5), (b'm', 3), (b'l', 1)] {
        assert_same(rt, take(queue), Ok((priority, Some(byte), false)));
    }
    Ok(())
}

#[test]
fn priorities(rt: HostRuntime) -> Result<(), Fail> {
    let mut queue = MessageQueue::new(rt.alloc(), HIGH, LOW);
    let ended = take_by_priority(&rt, rt.alloc(), &mut queue);
    drop(queue);
    Ok(ended?)
}

/// Writes a block of four bytes, and reads the first.
fn write_and_read(rt: &impl Abort, block: &mut Block)
    requires { block.old ≡ record { bytes = []; space = 4 } }
{
    assert_same(rt, block.write(b"hello"), Err(NoSpace { space: 4 }));
    assert_same(rt, block.write(b"hey"), Ok(()));
    block.advance(1);
    assert_same(rt, block.bytes(), b"ey".as_slice());
    assert_same(rt, block.space(), 1);
}

/// A block of four bytes that was written and of which the first byte was read.
fn read_block(rt: &impl Abort, alloc: Global) -> Result<Block, NoMemory> {
    let mut block = Block::new(alloc, 4)?;
    write_and_read(rt, &mut block);
    Ok(block)
}

#[test]
fn blocks(rt: HostRuntime) -> Result<(), Fail> {
    let block = read_block(&rt, rt.alloc())?;
    let mut message = message_of(rt.alloc(), b"sixsix", 0)?;
    assert!(rt; message.cont(block).is_ok());
    assert_same(&rt, message.total_length(), 8);
    Ok(())
}

/// How many blocks and bytes a message has.
fn sizes_of(message: &Message) -> (usize, u64) {
    (message.blocks().len(), message.total_length())
}

/// Adds a block to a message, and puts other bytes in the place of all its blocks.
fn lengthen_and_rewrite(
    rt: &impl Abort,
    alloc: Global,
    message: &mut Message,
) -> Result<(), NoMemory> {
    if message.blocks().len() < 1024 {
        message.cont_bytes(alloc, b"\n")?;
    }
    assert_same(rt, sizes_of(message), (2, 3));
    message.rewrite(b"again", 7)?;
    assert_same(rt, sizes_of(message), (1, 5));
    assert_same(rt, message.priority(), 7);
    Ok(())
}

/// Puts a block in the place of those of a message.
fn put_alone(rt: &impl Abort, message: &mut Message, block: Block) {
    let memory = message.put_alone(block);
    assert!(rt; memory.is_empty());
    assert_same(rt, message.total_length(), 3);
}

#[test]
fn a_message_is_written_anew(rt: HostRuntime) -> Result<(), Fail> {
    let block = Block::from_vec(Vec::from_slice(rt.alloc(), b"now")?);
    let mut message = message_of(rt.alloc(), b"hi", 3)?;
    lengthen_and_rewrite(&rt, rt.alloc(), &mut message)?;
    put_alone(&rt, &mut message, block);
    Ok(())
}

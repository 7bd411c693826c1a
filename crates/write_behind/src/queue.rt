//! A queue of bytes from the caller to whoever writes.
ghost use Rattle.std.specs.Prelude.{◌≡◌, ◌≤◌, ◌<◌, ◌++◌, [], length, take, vec_len};
ghost use Rattle.rtrb.specs.Ring.{sent, received, producer_capacity, IsPair, SameConsumer};
ghost use Rattle.rtrb.specs.Ring.{SameProducer};
ghost use Rattle.write_behind.specs.Queues.{PutsSo};

use doorbell::Doorbell;
use ev_base::{NoMemory, Wrote};
use rtrb::{Consumer, Producer, RingBuffer};
use std::alloc::Global;
use std::sync::Wait;

/// How many bytes a queue has room for, and how many are written together: 64 KiB.
pub(crate) const ROOM: usize = 65_536;

/// An empty queue of bytes, and room for what is written together.
#[derive(Drop)]
pub struct ByteQueue {
    pub producer: Producer<u8>,
    pub consumer: Consumer<u8>,
    pub(crate) room: Vec<u8>,
    ghost pair: { IsPair producer consumer },
    ghost empty: { (sent producer ≡ []) × (received consumer ≡ []) },
    ghost size: { (producer_capacity producer ≡ 65536) × (vec_len room ≡ 65536) },
}

impl ByteQueue {
    /// An empty queue. Only this takes memory for bytes.
    pub fn new(alloc: Global) -> Result<ByteQueue, NoMemory> {
        let mut room = Vec::new(alloc);
        room.resize(ROOM, 0)?;
        match RingBuffer::new(alloc, ROOM) {
            Ok((producer, consumer)) => Ok(ByteQueue {
                producer,
                consumer,
                room,
            }),
            Err(_) => Err(NoMemory),
        }
    }
}

/// Takes out as many bytes as there are, or as there is room for, and tells how many those are.
pub(crate) fn dequeue(consumer: &mut Consumer<u8>, room: &mut Vec<u8>) -> usize
    ensures consumer { SameConsumer consumer.old consumer.new }
    ensures within { result ≤ vec_len room.new }
    ensures received { received consumer.new ≡ received consumer.old ++ take result room.new.items }
    ensures room { vec_len room.new ≡ vec_len room.old }
{
    consumer.pop_partial_slice(room.as_mut_slice())
}

/// Puts bytes into an empty queue, and takes them out again: so the queue tells them too when they
/// were written without it.
pub(crate) fn pass_through(
    producer: &mut Producer<u8>,
    consumer: &mut Consumer<u8>,
    room: &mut [u8],
    bytes: &[u8],
)
    requires pair { IsPair producer.old consumer.old }
    requires empty { received consumer.old ≡ sent producer.old }
    requires fits { length bytes.now ≤ producer_capacity producer.old }
    requires room { length bytes.now ≤ length room.old }
    ensures producer { SameProducer producer.old producer.new }
    ensures consumer { SameConsumer consumer.old consumer.new }
    ensures sent { sent producer.new ≡ sent producer.old ++ bytes.now }
    ensures received { received consumer.new ≡ received consumer.old ++ bytes.now }
    ensures length { length room.new ≡ length room.old }
{
    producer.slots_beside(consumer);
    let pushed = producer.push_entire_slice(bytes);
    consumer.slots_beside(producer);
    let popped = consumer.pop_entire_slice(&mut room[..bytes.len()]);
    match (pushed, popped) {
        (Ok(()), Ok(())) => {}
        _ => unreachable!(),
    }
}

/// Puts bytes into a queue, as many as there is room for, and waits when there is none. The bell is
/// that of whoever makes room.
pub(crate) fn enqueue<R: Wait>(
    rt: &R,
    room: &Doorbell,
    producer: &mut Producer<u8>,
    bytes: &[u8],
) -> usize
    requires { 0 < length bytes.now }
    ensures producer { SameProducer producer.old producer.new }
    ensures sent { PutsSo (sent producer.old) bytes.now (Wrote.Bytes result) (sent producer.new) }
{
    for _ in rt.forever() {
        let count = room.count();
        let (now, _) = producer.push_partial_slice(bytes);
        if !now.is_empty() {
            return now.len();
        }
        room.rest(rt, count, 0);
    }
    unreachable!()
}

//! Who writes to the sink below.
ghost use Rattle.std.specs.Prelude.{◌≡◌, ◌<◌, [], length, true, false, vec_len};
ghost use Rattle.sink_buffer.specs.Written.{WritesAll};
ghost use Rattle.rtrb.specs.Ring.{sent, received, producer_capacity, SameProducer};
ghost use Rattle.write_behind.specs.Queues.{IsProducerOf, IsConsumerOf, PutsSo};

use crate::queue::{ROOM, dequeue, pass_through};
use crate::start::Start;
use doorbell::Doorbell;
use ev_base::{Sink, Wrote};
use rtrb::{Consumer, Producer};
use sink_buffer::write_all;
use std::marker::{Model, PhantomData};
use std::sync::Wait;

/// The sink below, and the end of the queue from which it gets what was put. Whoever has the writer
/// writes. The sink has what came out of the queue, or, after a write failed, a front of it.
#[derive(Drop)]
pub(crate) struct Writer<K: Sink, S: Start> {
    sink: K,
    consumer: Consumer<u8>,
    room: Vec<u8>,
    // Whether no write failed.
    whole: bool,
    start: PhantomData<S>,
}

impl<K: Sink, S: Start> Model for Writer<K, S> {
    ghost use Rattle.std.specs.Prelude.{◌≡◌, vec_len};
    ghost use Rattle.sink_buffer.specs.Written.{WritesAll};
    ghost use Rattle.rtrb.specs.Ring.{received};
    ghost use Rattle.write_behind.specs.Queues.{IsConsumerOf};
    ghost use Rattle.write_behind.specs.Writers.{WriterState};

    ghost Value = { WriterState K };

    ghost view = { λ w. record { sink = w.sink; consumer = w.consumer; whole = w.whole } };

    ghost invariant = { λ w. IsConsumerOf S.consumer w.consumer
        × WritesAll S.facts (received w.consumer) w.whole (K.facts w.sink)
        × (vec_len w.room ≡ 65536) };
}

impl<K: Sink, S: Start> Writer<K, S> {
    /// The writer of a sink, at an end of a queue of which nothing was taken.
    pub(crate) fn new(sink: K, consumer: Consumer<u8>, room: Vec<u8>) -> Writer<K, S>
        requires consumer { IsConsumerOf S.consumer consumer }
        requires facts { K.facts sink ≡ S.facts }
        requires empty { received consumer ≡ [] }
        requires size { vec_len room ≡ 65536 }
        ensures { result ≡ record { sink = sink; consumer = consumer; whole = true } }
    {
        Writer {
            sink,
            consumer,
            room,
            whole: true,
            start: PhantomData,
        }
    }

    /// Whether no write failed.
    pub(crate) fn is_whole(&self) -> bool
        ensures { result ≡ self.now.whole }
    {
        self.whole
    }

    /// Takes what the queue holds, up to 64 KiB, and writes it, in one write if the sink takes all
    /// of it. After a failed write it writes nothing. Tells whether there was anything, and before
    /// the write whoever waits for room.
    pub(crate) fn write_next(&mut self, room: Option<&Doorbell>) -> bool
        ensures { self.old.whole ≡ false → self.new.whole ≡ false }
    {
        let count = dequeue(&mut self.consumer, &mut self.room);
        if count == 0 {
            return false;
        }
        if let Some(room) = room {
            room.ring();
            room.wake();
        }
        if self.whole {
            self.whole = write_all(&mut self.sink, &self.room[..count]);
        }
        true
    }

    /// Writes out what the queue holds, with its other end beside.
    pub(crate) fn drain<R: Wait>(&mut self, rt: &R, producer: &mut Producer<u8>)
        requires { IsProducerOf S.consumer producer.old }
        ensures same { SameProducer producer.old producer.new }
        ensures sent { sent producer.new ≡ sent producer.old }
        ensures empty { received self.new.consumer ≡ sent producer.new }
        ensures failed { self.old.whole ≡ false → self.new.whole ≡ false }
    {
        for _ in rt.forever() {
            if self.consumer.slots_beside(producer) == 0 {
                return;
            }
            self.write_next(None);
        }
        unreachable!()
    }

    /// Writes a piece at once, or a front of it, after all that the queue holds. After a failed
    /// write it writes nothing.
    pub(crate) fn write_now<R: Wait>(
        &mut self,
        rt: &R,
        producer: &mut Producer<u8>,
        piece: &[u8],
    ) -> Wrote
        requires producer { IsProducerOf S.consumer producer.old }
        requires capacity { producer_capacity producer.old ≡ 65536 }
        requires some { 0 < length piece.now }
        ensures producer { SameProducer producer.old producer.new }
        ensures wrote { PutsSo (sent producer.old) piece.now result (sent producer.new) }
        ensures failed { result ≡ Wrote.Failed → self.new.whole ≡ false }
        ensures refused { self.old.whole ≡ false → result ≡ Wrote.Failed }
    {
        if self.is_whole() {
            self.drain(rt, producer);
        }
        if !self.is_whole() {
            return Wrote::Failed;
        }
        self.write(producer, piece)
    }

    /// Writes a piece, or a front of it, when the queue is empty and no write failed.
    fn write(&mut self, producer: &mut Producer<u8>, piece: &[u8]) -> Wrote
        requires producer { IsProducerOf S.consumer producer.old }
        requires capacity { producer_capacity producer.old ≡ 65536 }
        requires empty { received self.old.consumer ≡ sent producer.old }
        requires whole { self.old.whole ≡ true }
        requires some { 0 < length piece.now }
        ensures producer { SameProducer producer.old producer.new }
        ensures wrote { PutsSo (sent producer.old) piece.now result (sent producer.new) }
        ensures failed { result ≡ Wrote.Failed → self.new.whole ≡ false }
    {
        let part = &piece[..piece.len().min(ROOM)];
        let wrote = self.sink.write(part);
        match wrote {
            Wrote::Bytes(count) => {
                pass_through(producer, &mut self.consumer, &mut self.room, &part[..count]);
            }
            Wrote::Failed => self.whole = false,
        }
        wrote
    }

    /// The sink below, and whether no write failed.
    pub(crate) fn into_sink(self) -> (K, bool)
        ensures whole { WritesAll S.facts (received self.consumer) result.1 (K.facts result.0) }
        ensures told { result.1 ≡ self.whole }
    {
        let Writer {
            sink,
            consumer: _,
            room: _,
            whole,
            start: _,
        } = self;
        (sink, whole)
    }
}

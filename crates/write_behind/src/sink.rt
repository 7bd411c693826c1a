//! The sink.
ghost use Rattle.std.specs.Prelude.{◌≡◌, true, [], Some};
ghost use Rattle.sink_buffer.specs.Written.{WritesAll};

use crate::mode::{Mode, WriterThread};
use crate::pace::Pace;
use crate::queue::ByteQueue;
use crate::start::Start;
use crate::writer::Writer;
use ev_base::{Sink, Wrote};
use rtrb::Producer;
use std::alloc::Global;
use std::marker::Model;
use std::sync::Wait;
use std::thread::Threads;
use std::time::Clock;

/// A sink that writes to another one behind its caller, by a thread of its own. The thread sleeps
/// when few pieces come: then each is written at once. If no thread is to be had each piece is
/// written at once.
#[derive(Drop)]
pub struct WriteBehind<R, K: Sink + Drop, S: Start> {
    rt: R,
    producer: Producer<u8>,
    mode: Mode<K, S>,
    pace: Pace,
    // How many writes were refused. The first of them found that a write below failed.
    refused: u64,
}

impl<R, K: Sink + Drop, S: Start> Model for WriteBehind<R, K, S> {
    ghost use Rattle.std.specs.Prelude.{◌≡◌, ◌<◌};
    ghost use Rattle.rtrb.specs.Ring.{sent, producer_capacity};
    ghost use Rattle.write_behind.specs.Facts.{Taken};
    ghost use Rattle.write_behind.specs.Modes.{HasFailed, writer_of};
    ghost use Rattle.write_behind.specs.Queues.{IsProducerOf};

    ghost Value = { Taken };

    ghost view = { λ w. record { put = sent w.producer; refused = w.refused } };

    ghost invariant = { λ w. IsProducerOf S.consumer w.producer
        × (producer_capacity w.producer ≡ 65536)
        × (0 < w.refused → HasFailed (writer_of w.mode)) };
}

impl<
    R: Clock + Threads + Wait + Copy + Send + 'static,
    K: Sink + Send + Drop + 'static,
    S: Start + Send + 'static,
> WriteBehind<R, K, S> {
    /// A sink into which nothing was put, whose thread writes to this one. If there is no memory
    /// for the thread, or none is to be had, the caller writes.
    pub fn start(
        rt: R,
        alloc: Global,
        queue: ByteQueue,
        sink: K,
    ) -> (WriteBehind<R, K, S>, WriterThread)
        requires facts { K.facts sink ≡ S.facts }
        requires consumer { S.consumer ≡ Some queue.consumer }
        ensures { result.0 ≡ record { put = []; refused = 0 } }
    {
        let ByteQueue {
            producer,
            consumer,
            room,
        } = queue;
        let (mode, thread) = Mode::start(rt, alloc, Writer::new(sink, consumer, room));
        let sink = WriteBehind {
            rt,
            producer,
            mode,
            pace: Pace::new(),
            refused: 0,
        };
        (sink, thread)
    }

    /// Waits for the end of the thread, and writes out what was put and is not written yet. Gives
    /// the sink below, and whether no write failed: then it has all that was put, and else a front
    /// of it, after which nothing was written.
    pub fn finish(self, thread: WriterThread) -> (K, bool)
        ensures written { WritesAll S.facts self.put result.1 (K.facts result.0) }
        ensures refused { result.1 ≡ true → self.refused ≡ 0 }
    {
        let WriteBehind {
            rt,
            mut producer,
            mode,
            pace: _,
            refused: _,
        } = self;
        let mut writer = mode.end(&rt, thread);
        writer.drain(&rt, &mut producer);
        writer.into_sink()
    }
}

impl<R: Clock + Wait, K: Sink + Drop, S: Start> Sink for WriteBehind<R, K, S> {
    ghost use Rattle.write_behind.specs.Facts.{behind_facts};

    ghost facts = { behind_facts S.facts };

    fn write(&mut self, piece: &[u8]) -> Wrote {
        let soon = self.pace.begin(&self.rt);
        self.mode.choose(&self.rt, soon);
        let at_once = self.mode.has_writer();
        let wrote = self.mode.write(&self.rt, &mut self.producer, piece);
        match wrote {
            Wrote::Bytes(_) => {
                if at_once {
                    self.pace.end(&self.rt);
                }
            }
            Wrote::Failed => self.refused = self.refused.saturating_add(1),
        }
        wrote
    }
}

//! Whether the caller writes alone, or a thread helps it.
ghost use Rattle.std.specs.Prelude.{◌≡◌, ◌<◌, length, Some, IfSome};
ghost use Rattle.rtrb.specs.Ring.{sent, producer_capacity, SameProducer};
ghost use Rattle.write_behind.specs.Modes.{HasFailed, writer_of};
ghost use Rattle.write_behind.specs.Queues.{IsProducerOf, PutsSo};

use crate::helper::Helper;
use crate::queue::enqueue;
use crate::start::Start;
use crate::writer::Writer;
use ev_base::{Sink, Wrote};
use rtrb::Producer;
use std::alloc::Global;
use std::sync::Wait;
use std::thread::{JoinHandle, Threads};

/// The thread that writes, if there is one. Who started the sink keeps it until the end.
#[derive(Drop)]
pub struct WriterThread {
    thread: Option<JoinHandle<()>>,
}

/// Whether the caller writes alone, or a thread helps it.
#[derive(Drop)]
pub(crate) enum Mode<K: Sink + Drop, S: Start> {
    /// The caller writes each piece at once.
    Alone(Writer<K, S>),
    /// A thread helps it. The caller may have the writer.
    Helped {
        writer: Option<Writer<K, S>>,
        helper: Helper<K, S>,
    },
}

impl<K: Sink + Send + Drop + 'static, S: Start + Send + 'static> Mode<K, S> {
    /// A thread helps if there is memory for it and one is to be had. The caller has the writer.
    pub(crate) fn start<R: Threads + Wait + Copy + Send + 'static>(
        rt: R,
        alloc: Global,
        writer: Writer<K, S>,
    ) -> (Mode<K, S>, WriterThread)
        ensures { writer_of result.0 ≡ Some writer }
    {
        match Helper::start(rt, alloc) {
            Some((helper, thread)) => {
                let writer = Some(writer);
                let thread = Some(thread);
                (Mode::Helped { writer, helper }, WriterThread { thread })
            }
            None => (Mode::Alone(writer), WriterThread { thread: None }),
        }
    }
}

impl<K: Sink + Drop, S: Start> Mode<K, S> {
    /// Gives the thread the writer when a piece comes soon after another, unless a write failed.
    /// Takes it back when a write of the thread failed, or when the thread sleeps and a piece comes
    /// not soon.
    pub(crate) fn choose<R: Wait>(&mut self, rt: &R, soon: bool)
        ensures { HasFailed (writer_of self.old) → HasFailed (writer_of self.new) }
    {
        let Mode::Helped { writer, helper } = self else {
            return;
        };
        match writer {
            Some(mine) => {
                if soon
                    && mine.is_whole()
                    && let Some(mine) = writer.take()
                {
                    helper.give(rt, mine);
                }
            }
            None => {
                if helper.has_failed() {
                    *writer = Some(helper.wait_for_writer(rt));
                } else if !soon && helper.is_asleep() {
                    *writer = helper.take(rt);
                }
            }
        }
    }

    /// Whether the caller has the writer.
    pub(crate) fn has_writer(&self) -> bool {
        match self {
            Mode::Alone(_) => true,
            Mode::Helped { writer, helper: _ } => writer.is_some(),
        }
    }

    /// Writes a piece at once, or puts it into the queue if the caller does not have the writer:
    /// all of it or a front of it.
    pub(crate) fn write<R: Wait>(
        &mut self,
        rt: &R,
        producer: &mut Producer<u8>,
        piece: &[u8],
    ) -> Wrote
        requires producer { IsProducerOf S.consumer producer.old }
        requires capacity { producer_capacity producer.old ≡ 65536 }
        requires some { 0 < length piece.now }
        ensures producer { SameProducer producer.old producer.new }
        ensures wrote { PutsSo (sent producer.old) piece.now result (sent producer.new) }
        ensures refused { result ≡ Wrote.Failed → HasFailed (writer_of self.new) }
        ensures failed { HasFailed (writer_of self.old) → result ≡ Wrote.Failed }
    {
        match self {
            Mode::Alone(writer) => writer.write_now(rt, producer, piece),
            Mode::Helped { writer, helper } => match writer {
                Some(writer) => writer.write_now(rt, producer, piece),
                None => {
                    let count = enqueue(rt, helper.room(), producer, piece);
                    helper.tell_put();
                    Wrote::Bytes(count)
                }
            },
        }
    }

    /// The writer, after the end of the thread.
    pub(crate) fn end<R: Threads + Wait>(self, rt: &R, thread: WriterThread) -> Writer<K, S>
        ensures { IfSome (writer_of self) (λ writer. result ≡ writer) }
    {
        match self {
            Mode::Alone(writer) => writer,
            Mode::Helped { writer, helper } => {
                helper.end();
                if let Some(thread) = thread.thread {
                    thread.join(rt);
                }
                match writer {
                    Some(writer) => writer,
                    None => helper.wait_for_writer(rt),
                }
            }
        }
    }
}

//! A thread that writes.

use crate::start::Start;
use crate::writer::Writer;
use doorbell::Doorbell;
use ev_base::Sink;
use std::alloc::Global;
use std::sync::atomic::{AtomicBool, Ordering};
use std::sync::{Arc, Mutex, Wait};
use std::thread::{JoinHandle, Threads, spawn, yield_now};

/// How often the thread looks for more before it sleeps: some 10 microseconds.
const LOOKS: u32 = 200;

/// What the caller and the thread share.
#[derive(Drop)]
struct Shared<K: Sink + Drop, S: Start> {
    // Lies there while neither writes.
    writer: Mutex<Option<Writer<K, S>>>,
    // Is rung with each piece that is put into the queue, and when no more will be. The thread
    // watches it.
    put: Doorbell,
    // Is rung each time when the thread takes bytes out of the queue. The caller watches it.
    room: Doorbell,
    failed: AtomicBool,
    ended: AtomicBool,
}

impl<K: Sink + Drop, S: Start> Shared<K, S> {
    /// No writer lies there.
    fn new() -> Shared<K, S> {
        Shared {
            writer: Mutex::new(None),
            put: Doorbell::new(),
            room: Doorbell::new(),
            failed: AtomicBool::new(false),
            ended: AtomicBool::new(false),
        }
    }

    /// Takes the writer if it lies there.
    fn take<R: Wait>(&self, rt: &R) -> Option<Writer<K, S>> {
        let mut writer = self.writer.lock(rt);
        writer.take()
    }

    /// Lays it down.
    fn give<R: Wait>(&self, rt: &R, given: Writer<K, S>) {
        let mut writer = self.writer.lock(rt);
        *writer = Some(given);
    }

    /// The thread: writes what is put when it finds the writer, until no more will be.
    fn run<R: Wait>(&self, rt: &R) {
        for _ in rt.forever() {
            // Both are read before the look: what is put after a look in vain ends the sleep.
            let put = self.put.count();
            let ended = self.ended.load(Ordering::SeqCst);
            if self.write_some(rt) {
                continue;
            }
            if ended {
                return;
            }
            self.put.rest(rt, put, LOOKS);
        }
    }

    /// Writes some of what the queue holds. Tells whether there was anything.
    fn write_some<R: Wait>(&self, rt: &R) -> bool {
        let Some(writer) = self.take(rt) else {
            return false;
        };
        let mut writer = writer;
        let some = writer.write_next(Some(&self.room));
        if !writer.is_whole() {
            self.failed.store(true, Ordering::SeqCst);
        }
        self.give(rt, writer);
        some
    }
}

/// The caller's side of a thread that writes. After it is dropped the thread writes what was put,
/// and ends.
pub(crate) struct Helper<K: Sink + Drop, S: Start> {
    shared: Arc<Shared<K, S>, Global>,
}

impl<K: Sink + Send + Drop + 'static, S: Start + Send + 'static> Helper<K, S> {
    /// Starts a thread that writes, if there is memory for it and one is to be had.
    pub(crate) fn start<R: Threads + Wait + Copy + Send + 'static>(
        rt: R,
        alloc: Global,
    ) -> Option<(Helper<K, S>, JoinHandle<()>)> {
        let shared = Arc::new(alloc, Shared::new()).ok()?;
        let theirs = Arc::try_clone(&shared).ok()?;
        let thread = spawn(&rt, move || theirs.run(&rt)).ok()?;
        Some((Helper { shared }, thread))
    }
}

impl<K: Sink + Drop, S: Start> Helper<K, S> {
    /// Whether the thread sleeps.
    pub(crate) fn is_asleep(&self) -> bool {
        self.shared.put.is_asleep()
    }

    /// Whether a write of the thread failed.
    pub(crate) fn has_failed(&self) -> bool {
        self.shared.failed.load(Ordering::SeqCst)
    }

    /// Takes the writer if the thread does not have it.
    pub(crate) fn take<R: Wait>(&self, rt: &R) -> Option<Writer<K, S>> {
        self.shared.take(rt)
    }

    /// Takes the writer, and waits until the thread does not have it.
    pub(crate) fn wait_for_writer<R: Wait>(&self, rt: &R) -> Writer<K, S> {
        for _ in rt.forever() {
            if let Some(writer) = self.take(rt) {
                return writer;
            }
            yield_now();
        }
        unreachable!()
    }

    /// Gives the thread the writer.
    pub(crate) fn give<R: Wait>(&self, rt: &R, writer: Writer<K, S>) {
        self.shared.give(rt, writer);
    }

    /// Is called after each piece that is put into the queue.
    pub(crate) fn tell_put(&self) {
        self.shared.put.ring();
        self.shared.put.wake();
    }

    /// The bell that is rung each time when the thread takes bytes out of the queue.
    pub(crate) fn room(&self) -> &Doorbell {
        &self.shared.room
    }

    /// No more will be put.
    pub(crate) fn end(&self) {
        self.shared.ended.store(true, Ordering::SeqCst);
        self.tell_put();
    }
}

impl<K: Sink + Drop, S: Start> Drop for Helper<K, S> {
    fn drop(self) {
        self.end();
        let Helper { shared: _ } = self;
    }
}

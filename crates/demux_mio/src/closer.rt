//! A thread that closes connections.

use doorbell::Doorbell;
use ev_base::NoMemory;
use mio::net::TcpStream;
use std::alloc::{AllocError, Global};
use std::collections::VecDeque;
use std::sync::atomic::{AtomicBool, AtomicU64, Ordering};
use std::sync::{Arc, Mutex, Wait};
use std::thread::{Threads, spawn};

/// How many retired connections wait for their close at most.
pub(crate) const MOST_RETIRED: usize = 64;

/// How often the thread looks for one before it sleeps: some 20 microseconds, in which a busy net
/// retires the next.
const LOOKS: u32 = 500;

/// Connections that were retired and are not closed yet, the first in front, and the thread that
/// closes them.
#[derive(Drop)]
struct Retired {
    streams: Mutex<VecDeque<TcpStream>>,
    // Whether there are any, so that nobody has to look further if there are none.
    has_any: AtomicBool,
    // Is rung with each that is retired, and with each owner that leaves.
    bell: Doorbell,
    owners: AtomicU64,
}

impl Retired {
    // For one owner.
    fn new(alloc: Global) -> Result<Retired, NoMemory> {
        Ok(Retired {
            streams: Mutex::new(VecDeque::with_capacity(alloc, MOST_RETIRED)?),
            has_any: AtomicBool::new(false),
            bell: Doorbell::new(),
            owners: AtomicU64::new(1),
        })
    }

    // Keeps a connection if there is a place for it and nobody takes one just now, and else
    // closes it. If another waits already the thread is to go on.
    fn keep(&self, stream: TcpStream) {
        let Some(mut streams) = self.streams.try_lock() else {
            return;
        };
        if streams.len() >= MOST_RETIRED {
            return;
        }
        let _ = streams.push_back(stream);
        let several = streams.len() > 1;
        self.has_any.store(true, Ordering::SeqCst);
        drop(streams);
        self.bell.ring();
        if several {
            self.bell.wake();
        }
    }

    // Takes the next one, but not if another thread does.
    fn try_next(&self) -> Option<TcpStream> {
        let mut streams = self.streams.try_lock()?;
        let stream = streams.pop_front();
        self.has_any.store(!streams.is_empty(), Ordering::SeqCst);
        stream
    }

    // Takes the next one.
    fn next<R: Wait>(&self, rt: &R) -> Option<TcpStream> {
        let mut streams = self.streams.lock(rt);
        let stream = streams.pop_front();
        self.has_any.store(!streams.is_empty(), Ordering::SeqCst);
        stream
    }

    // Closes connections until every owner has left.
    fn close_all<R: Wait>(&self, rt: &R) {
        for _ in rt.forever() {
            let count = self.bell.count();
            match self.next(rt) {
                Some(stream) => drop(stream),
                None if self.owners.load(Ordering::SeqCst) == 0 => return,
                None => self.bell.rest(rt, count, LOOKS),
            }
        }
    }
}

/// An owner of a thread that closes connections. It ends once all its owners have gone and it has
/// closed what waits.
pub(crate) struct Closer {
    retired: Arc<Retired, Global>,
}

impl Closer {
    /// Starts one, if there is memory for it and a thread to be had.
    pub(crate) fn start<R: Threads + Wait + Copy + Send + 'static>(
        rt: R,
        alloc: Global,
    ) -> Option<Closer> {
        let Ok(retired) = Retired::new(alloc) else {
            return None;
        };
        let Ok(retired) = Arc::new(alloc, retired) else {
            return None;
        };
        let Ok(theirs) = Arc::try_clone(&retired) else {
            return None;
        };
        match spawn(&rt, move || theirs.close_all(&rt)) {
            Ok(_) => Some(Closer { retired }),
            Err(_) => None,
        }
    }

    /// Hands a connection over to be closed soon.
    pub(crate) fn hand_over(&self, stream: TcpStream) {
        self.retired.keep(stream);
    }

    /// Whether there are connections that wait for their close.
    pub(crate) fn is_behind(&self) -> bool {
        self.retired.has_any.load(Ordering::SeqCst)
    }

    /// Closes the next one in the caller's thread.
    pub(crate) fn close_one(&self) {
        drop(self.retired.try_next());
    }

    /// Whether its thread sleeps, and nobody has woken it.
    pub(crate) fn sleeps(&self) -> bool {
        self.retired.bell.is_asleep()
    }

    /// One more owner.
    pub(crate) fn try_clone(&self) -> Result<Closer, AllocError> {
        let retired = Arc::try_clone(&self.retired)?;
        retired.owners.fetch_add(1, Ordering::SeqCst);
        Ok(Closer { retired })
    }
}

impl Drop for Closer {
    fn drop(self) {
        let Self { retired } = self;
        retired.owners.fetch_sub(1, Ordering::SeqCst);
        retired.bell.ring();
        retired.bell.wake();
    }
}

//! What a net, its ends and its waker share.

use mio::{Registry, Waker};
use std::alloc::Global;
use std::hint::spin_loop;
use std::sync::Arc;
use std::sync::atomic::{AtomicBool, Ordering};

/// How often a look at the system is followed by one at the wakes.
const TURNS: u32 = 50;

/// The set of watched sockets, whether an accept failed since the net looked, and how the net's
/// wait stands.
#[derive(Drop)]
pub(crate) struct Shared {
    pub(crate) registry: Registry,
    waker: Waker,
    accept_failed: AtomicBool,
    waits: AtomicBool,
    woken: AtomicBool,
}

/// An owner of it.
pub(crate) type Sharing = Arc<Shared, Global>;

impl Shared {
    pub(crate) fn new(registry: Registry, waker: Waker) -> Shared {
        Shared {
            registry,
            waker,
            accept_failed: AtomicBool::new(false),
            waits: AtomicBool::new(false),
            woken: AtomicBool::new(false),
        }
    }

    /// An accept failed, as when too many files are open.
    pub(crate) fn note_failed_accept(&self) {
        self.accept_failed.store(true, Ordering::SeqCst);
    }

    /// Whether an accept failed since this was asked last.
    pub(crate) fn take_failed_accept(&self) -> bool {
        self.accept_failed.swap(false, Ordering::SeqCst)
    }

    /// A wait begins. It may last only if nobody woke the net since the last one ended.
    pub(crate) fn begin_wait(&self) -> bool {
        self.waits.store(true, Ordering::SeqCst);
        !self.woken.swap(false, Ordering::SeqCst)
    }

    /// A wait ends, and with it all that woke it. Tells whether anybody did.
    pub(crate) fn end_wait(&self) -> bool {
        self.waits.store(false, Ordering::SeqCst);
        self.woken.swap(false, Ordering::SeqCst)
    }

    /// Whether somebody woke the net since a wait ended last.
    pub(crate) fn is_woken(&self) -> bool {
        self.woken.load(Ordering::SeqCst)
    }

    /// Looks some times whether somebody woke the net.
    pub(crate) fn is_woken_soon(&self) -> bool {
        for _ in 0..TURNS {
            if self.is_woken() {
                return true;
            }
            spin_loop();
        }
        false
    }

    /// The wait that is under way, or else the next, is not to last. The system is called only
    /// if a wait is under way that nobody woke yet: a wait that begins meanwhile sees that it is
    /// woken, or is seen here to have begun.
    pub(crate) fn wake(&self) {
        if !self.woken.swap(true, Ordering::SeqCst) && self.waits.load(Ordering::SeqCst) {
            let _ = self.waker.wake();
        }
    }
}

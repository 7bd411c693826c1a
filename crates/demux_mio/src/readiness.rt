//! What a socket is ready for.
ghost use Rattle.std.specs.Prelude.{◌≡◌, false, IsNone};

use ev_base::Kind;
use std::alloc::Global;
use std::sync::Arc;
use std::sync::atomic::{AtomicBool, Ordering};

/// For which kinds of call a socket was reported ready by the system since a call of that kind
/// paused last. The net that watches it notes what the system says; its end, which may be in a call
/// in another thread, takes it back.
///
/// An end takes a kind back before it tries the call and notes it again if the call did not
/// pause. So what becomes ready after a call that pauses is noted after that too, and stays.
#[derive(Drop)]
pub(crate) struct Readiness {
    read: AtomicBool,
    write: AtomicBool,
}

/// An owner of it: the net or the end.
pub(crate) type Signs = Arc<Readiness, Global>;

impl Readiness {
    /// Nothing was reported.
    pub(crate) fn nothing() -> Readiness {
        Readiness {
            read: AtomicBool::new(false),
            write: AtomicBool::new(false),
        }
    }

    // The flag of a kind. No socket is ready for exceptional data, which is not watched.
    fn flag(&self, kind: Kind) -> Option<&AtomicBool>
        ensures { kind ≡ Kind.Except → IsNone result }
    {
        match kind {
            Kind::Read => Some(&self.read),
            Kind::Write => Some(&self.write),
            Kind::Except => None,
        }
    }

    fn set(&self, kind: Kind, ready: bool) {
        if let Some(flag) = self.flag(kind) {
            flag.store(ready, Ordering::SeqCst);
        }
    }

    /// It is ready for this kind.
    pub(crate) fn note(&self, kind: Kind) {
        self.set(kind, true);
    }

    /// A call of this kind may pause now.
    pub(crate) fn take_back(&self, kind: Kind) {
        self.set(kind, false);
    }

    /// Whether it is ready for this kind.
    pub(crate) fn has(&self, kind: Kind) -> bool
        ensures { kind ≡ Kind.Except → result ≡ false }
    {
        match self.flag(kind) {
            Some(flag) => flag.load(Ordering::SeqCst),
            None => false,
        }
    }
}

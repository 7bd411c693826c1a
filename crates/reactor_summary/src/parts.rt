//! The parts of a summary.

ghost use Rattle.std.specs.Prelude.{ℕ};

use ev_types::{Handle, Mask, Upcall};
use handle_search::HasHandle;

/// A registration that was opened and not closed.
#[derive(Clone, Copy, PartialEq, Eq, Debug)]
pub struct LiveHandle {
    /// Its handle.
    pub handle: Handle,
    /// The reports that it wants.
    pub mask: Mask,
    /// Whether it is suspended by hand.
    pub suspended: bool,
    /// Whether it is alive. One that is not waits for its upcall to end, and then for its close.
    pub alive: bool,
}

impl HasHandle for LiveHandle {
    ghost number = { λ h. h.handle.0 };

    fn handle(&self) -> Handle {
        self.handle
    }
}

/// A timer that came due.
#[derive(Clone, Copy, PartialEq, Eq, Debug)]
pub struct DueTimer {
    /// Its number.
    pub timer: u64,
    /// The deadline that was reached, in milliseconds.
    pub deadline: u64,
    /// Its period in milliseconds, 0 for once.
    pub every: u64,
}

/// An event that was neither started nor dropped.
#[derive(Clone, Copy, PartialEq, Eq, Debug)]
pub struct WaitingEvent {
    /// The number of the entry that is the event.
    pub event: u64,
    /// The handle that it is for.
    pub handle: Handle,
    /// The upcall that it asks for.
    pub upcall: Upcall,
    /// The timer whose coming due the event is. An event that asks for a timeout once more has
    /// none.
    pub due: Option<DueTimer>,
}

/// An event whose upcall began and is not settled.
#[derive(Clone, Copy, PartialEq, Eq, Debug)]
pub struct OpenEvent {
    /// The number of the entry that is the event.
    pub event: u64,
    /// The handle that it is for.
    pub handle: Handle,
    /// The upcall.
    pub upcall: Upcall,
    /// The moment at which it began, in milliseconds.
    pub moment: u64,
}

/// A timer that is armed.
#[derive(Clone, Copy, PartialEq, Eq, Debug)]
pub struct ArmedTimer {
    /// Its next deadline, in milliseconds.
    pub deadline: u128,
    /// Its number.
    pub timer: u64,
    /// The handle of its handler.
    pub handle: Handle,
    /// Its period in milliseconds, 0 for once.
    pub every: u64,
}

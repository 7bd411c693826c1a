//! How much room a state has, and the event that it picks.

use reactor_summary::WaitingEvent;

/// How many more of each a state can take without memory.
#[derive(Clone, Copy, PartialEq, Eq, Debug)]
pub struct Places {
    /// Live handles.
    pub handles: usize,
    /// Armed timers.
    pub timers: usize,
    /// Waiting timeouts.
    pub timeouts: usize,
    /// Waiting events of each of the four other classes.
    pub events: usize,
    /// Open events.
    pub opens: usize,
}

/// The event to be started next, and where it stands in the queue of its class.
#[derive(Clone, Copy, PartialEq, Eq, Debug)]
pub struct Pick {
    /// The event.
    pub event: WaitingEvent,
    /// Its place in the queue.
    pub(crate) place: usize,
}

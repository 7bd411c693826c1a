//! The entries of a journal.

use ev_types::{Answer, Handle, Kind, Mask};

/// One step of a reactor, as its journal records it. `N` is what a handler notes of its turns. The
/// number of an entry is its place in the journal, from 0; moments, deadlines and periods are
/// milliseconds.
#[derive(PartialEq, Eq, Debug, Drop)]
pub enum Entry<N> {
    /// A handler was registered.
    Opened {
        /// Its handle: the number of handles registered before.
        handle: Handle,
        /// The reports that it wants.
        mask: Mask,
    },
    /// A timer was set for a handler.
    Scheduled {
        /// Its number: the number of timers set before.
        timer: u64,
        /// The handle of its handler.
        handle: Handle,
        /// Its first deadline.
        first: u64,
        /// Its period, 0 for once.
        every: u64,
    },
    /// A timer was taken away, and with it the timeouts of it that wait.
    Cancelled {
        /// The timer's number.
        timer: u64,
    },
    /// The demultiplexer answered a wait.
    Polled {
        /// The moment at which it did.
        now: u64,
    },
    /// A deadline was reached.
    Due {
        /// The timer's number.
        timer: u64,
    },
    /// The demultiplexer reported on a handle.
    Ready {
        /// The handle.
        handle: Handle,
        /// What it is ready for.
        kind: Kind,
    },
    /// A notification was delivered.
    Posted {
        /// The handle that it is for.
        handle: Handle,
        /// The kind that the poster gave.
        kind: Kind,
        /// The poster's number.
        from: u64,
        /// The poster's own number for it, from 0.
        seq: u64,
    },
    /// A notification was for a handle that was not alive.
    Stale {
        /// The handle that it was for.
        handle: Handle,
        /// The poster's number.
        from: u64,
        /// The poster's own number for it, from 0.
        seq: u64,
    },
    /// An upcall began.
    Started {
        /// The number of the entry that is its event.
        event: u64,
    },
    /// That upcall was settled.
    Returned {
        /// The number of the entry that is its event.
        event: u64,
        /// What the handler answered.
        answer: Answer,
        /// What it noted.
        note: N,
    },
    /// The mask of a handle changed. Reports that wait and are of a kind that it lacks are dropped.
    Masked {
        /// The handle.
        handle: Handle,
        /// The reports that it wants from now on.
        mask: Mask,
    },
    /// A handle was suspended by hand: none of its events is started.
    Suspended {
        /// The handle.
        handle: Handle,
    },
    /// A handle is suspended no longer.
    Resumed {
        /// The handle.
        handle: Handle,
    },
    /// A handler that an upcall offered was not registered.
    Refused {
        /// How many handles were live.
        live: u64,
        /// Whether the demultiplexer failed to take its end in.
        fault: bool,
        /// What the handler noted when it was closed.
        note: N,
    },
    /// A handler was removed by a caller, or by the end of the reactor.
    Removed {
        /// Its handle.
        handle: Handle,
    },
    /// A handler was closed: its `handle_close` ran.
    Closed {
        /// Its handle.
        handle: Handle,
        /// What it noted then.
        note: N,
    },
    /// The reactor was stopped.
    Ended,
}

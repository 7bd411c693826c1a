//! What a run of the server is asked for, and what it works on.

/// What a run of the server is asked for.
#[derive(Clone, Copy, PartialEq, Eq, Debug)]
pub struct Asked {
    /// How many workers make it: from 1 to 64.
    pub workers: usize,
    /// How many connections may be live at once: from 1 to 4,096. The acceptor is one handler more.
    pub connections: u64,
    /// After how many quiet milliseconds a connection is closed, from 1 to 4,294,967,295, or that
    /// it never is.
    pub idle: Option<u64>,
    /// After how many closings and refusals the run is ended by a notice to the acceptor, if it
    /// is.
    pub until: Option<u64>,
    /// For how many milliseconds a wait goes on at most, if there is a limit.
    pub limit: Option<u64>,
    /// How many entries a volume of the journal has at least: from 1.
    pub volume: u64,
}

/// What a run of the server works on, before it began.
pub struct Ground<E, M, Q, W, V> {
    /// The net. It has made no call.
    pub net: M,
    /// The listener. It has given nothing and made no accept.
    pub listener: E,
    /// The timer queue. It is empty.
    pub timers: Q,
    /// The watch. It has seen nothing.
    pub watch: W,
    /// The volumes. They begin another journal.
    pub volumes: V,
}

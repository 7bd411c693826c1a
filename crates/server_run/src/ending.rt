//! How a run of the server ended, and what it leaves.
use log_handler::ServerNote;
use tp_reactor::Parts;

/// How a run of the server ended. Of several causes the first in this order is told. A failed watch
/// hides every other cause, also if it failed only when the reactor was stopped: so with every
/// other ending it has not failed.
#[derive(Clone, Copy, PartialEq, Eq, Debug)]
pub enum Ending {
    /// The watch failed.
    Broken,
    /// The net could not take the listener in, and its count of failed attaches rose. No handler
    /// was registered.
    NotAttached,
    /// A wait failed, and the net's count of failed waits rose.
    NetFault,
    /// There was no memory.
    NoMemory,
    /// A volume was not taken, and the volumes' count of faults rose.
    VolumeFault,
    /// A notice ended it, after as many closings and refusals as were asked for.
    Notified,
    /// Nothing could be reported any more, nothing could be started, and nothing was open.
    Over,
}

/// What a run of the server leaves.
#[derive(Drop)]
pub struct Served<M, Q, W, V> {
    /// How it ended.
    pub ending: Ending,
    /// The entries that were not handed over, how many were, and what the run worked on.
    pub parts: Parts<ServerNote, M, Q, W, V>,
}

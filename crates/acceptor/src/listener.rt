//! The listener of an acceptor, and the idle time of its connections.
ghost use Rattle.std.specs.Prelude.{◌≡◌, true};
ghost use Rattle.reactor_model.specs.Turns.{IsTimer};
ghost use Rattle.acceptor.specs.Idle.{IsIdleTime, idle_timer};

use ev_base::PeerEnd;

/// An end that is a listener.
pub(crate) struct Listener<E: PeerEnd> {
    pub(crate) end: E,
    ghost listens: { (E.tells end).listener ≡ true },
}

/// After how many quiet milliseconds a connection is closed, or that it never is.
#[derive(Clone, Copy)]
pub(crate) struct Idle {
    pub(crate) time: Option<u64>,
    ghost in_range: { IsIdleTime time },
}

impl Idle {
    /// The timer of a connection, as first delay and period, or none.
    pub(crate) fn timer(&self) -> Option<(u64, u64)>
        ensures timer { result ≡ idle_timer self.now.time }
        ensures in_range { IsTimer result }
    {
        match self.time {
            Some(time) => Some((time, time)),
            None => None,
        }
    }
}

//! What handlers own: the end of a connection, or a listener with the idle time of its connections.
ghost use Rattle.std.specs.Prelude.{◌≡◌, ◌≤◌, true, false};
ghost use Rattle.reactor.specs.reactor_model.specs.Turns.{most_milliseconds};

use reactor::PeerEnd;

/// An end that is no listener.
pub(crate) struct Peer<E: PeerEnd> {
    pub(crate) end: E,
    ghost no_listener: { (E.tells end).listener ≡ false },
}

/// An end that is a listener.
pub(crate) struct Listener<E: PeerEnd> {
    pub(crate) end: E,
    ghost listens: { (E.tells end).listener ≡ true },
}

/// After how many milliseconds without a byte a connection is closed.
#[derive(Clone, Copy)]
pub(crate) struct Idle {
    pub(crate) time: u64,
    ghost some: { 1 ≤ time },
    ghost few: { time ≤ most_milliseconds },
}

//! The end of an acceptor.
ghost use Rattle.std.specs.Prelude.{◌≡◌, true};

use ev_base::PeerEnd;

/// An end that is a listener.
pub(crate) struct Listener<E: PeerEnd> {
    pub(crate) end: E,
    ghost listens: { (E.tells end).listener ≡ true },
}

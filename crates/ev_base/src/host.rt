//! What makes nets and listeners.
ghost use Rattle.std.specs.Prelude.{◌≡◌, ◌++◌, ◌∷◌, [], ℕ, List};
ghost use Rattle.ev_base.specs.Terms.{Terms};
ghost use Rattle.ev_base.specs.Host.{Listens, LeavesHostOpen};

use super::{Net, PeerEnd, Wake};
use ev_types::Handle;
use std::alloc::Global;

/// The handle of a server's acceptor, which is the first to be registered.
pub const ACCEPTOR: Handle = Handle(0);

/// Why there is no listener.
#[derive(Clone, Copy, PartialEq, Eq, Debug)]
pub enum ListenRefused {
    /// The host could not listen, and its count of faults rose.
    Failed,
    /// There was no memory for the net.
    NoMemory,
}

/// A host: it makes a net, a listener on a port, and what wakes the net. It has a count of faults
/// that never falls.
pub trait Host {
    /// The ends of its connections.
    type End: PeerEnd;

    /// Its nets.
    type Net: Net<End = Self::End>;

    /// What wakes them.
    type Waker: Wake;

    /// How often a `listen` failed.
    ghost faults: { Self → ℕ };

    /// The ports on which it was asked to listen, the first first.
    ghost ports: { Self → List ℕ };

    /// What it keeps under the terms that a run starts with.
    ghost keeps: { Terms → Self → Type 0 };

    /// Listens on a port. The net is new, and the listener has given nothing and made no accept.
    fn listen(
        &mut self,
        alloc: Global,
        port: u16,
    ) -> Result<(Self::Net, Self::End, Self::Waker), ListenRefused>
        ensures listens { Listens Self.Net.facts Self.End.tells Self.Net.keeps Self.End.keeps
            (λ t. keeps t self.old) (faults self.old) result (faults self.new) }
        ensures asked { ports self.new ≡ ports self.old ++ port ∷ [] };

    /// It keeps terms that say nothing of it.
    ghost keeps_open: { (t : Terms) (host : Self) → LeavesHostOpen t → keeps t host };
}

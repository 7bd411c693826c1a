//! Ends whose connection is being made, and what makes them.
ghost use Rattle.std.specs.Prelude.{◌≡◌, ◌++◌, ◌∷◌, [], ℕ, List, false};
ghost use Rattle.ev_base.specs.Terms.{Terms, KeepsOn};
ghost use Rattle.ev_base.specs.End.{EndFinishes};
ghost use Rattle.ev_base.specs.Dialer.{Dials, LeavesDialOpen};

use super::{Net, PeerEnd};
use std::alloc::Global;

/// Whether a connection is made.
#[derive(Clone, Copy, PartialEq, Eq, Debug)]
pub enum Finish {
    /// It is made.
    Done,
    /// Not yet. A net that watches the end reports it again once more is known.
    Pause,
    /// It could not be made, and the count of faults rose.
    Failed,
}

/// The end of a connection that this side makes. It counts its calls of `finish` too, and keeps
/// what the last one answered.
pub trait DialEnd: PeerEnd {
    /// Asks whether the connection is made. It never waits.
    fn finish(&mut self) -> Finish
        requires { (Self.tells self.old).listener ≡ false }
        ensures finishes { EndFinishes (Self.tells self.old) result (Self.tells self.new) }
        ensures kept { KeepsOn Self.keeps self.old self.new };
}

/// Why there is no connection to be made.
#[derive(Clone, Copy, PartialEq, Eq, Debug)]
pub enum DialRefused {
    /// The dialler could not begin, and its count of faults rose.
    Failed,
    /// There was no memory for the net or the end.
    NoMemory,
}

/// A dialler: it begins a connection to a port, and makes the net that watches it. It has a count
/// of faults that never falls.
pub trait Dialer {
    /// The ends of its connections.
    type End: DialEnd;

    /// Its nets.
    type Net: Net<End = Self::End>;

    /// How often a `dial` failed.
    ghost faults: { Self → ℕ };

    /// The ports that it was asked for, the first first.
    ghost ports: { Self → List ℕ };

    /// What it keeps under the terms that a run starts with.
    ghost keeps: { Terms → Self → Type 0 };

    /// Begins a connection to a port, which need not be made yet. The net is new, and the end is no
    /// listener and has made no call.
    fn dial(&mut self, alloc: Global, port: u16) -> Result<(Self::Net, Self::End), DialRefused>
        ensures dials { Dials Self.Net.facts Self.End.tells Self.Net.keeps Self.End.keeps
            (λ t. keeps t self.old) (faults self.old) result (faults self.new) }
        ensures asked { ports self.new ≡ ports self.old ++ port ∷ [] };

    /// It keeps terms that say nothing of it.
    ghost keeps_open: { (t : Terms) (dialer : Self) → LeavesDialOpen t → keeps t dialer };
}

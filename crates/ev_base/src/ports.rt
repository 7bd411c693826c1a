//! The ports that a host or a dialler was asked for, which contracts alone see.
ghost use Rattle.std.specs.Prelude.{◌≡◌, ◌++◌, ◌∷◌, []};

use ghost_log::{Entry, GhostLog};
use std::marker::{Model, PhantomData};

/// A port as contracts see it. No such value is ever made.
struct PortSeen {
    marker: PhantomData<()>,
}

impl Model for PortSeen {
    ghost use Rattle.std.specs.Prelude.{ℕ};

    ghost Value = { ℕ };

    ghost view = { λ _. 0 };
}

/// The entry is the port.
struct Port;

impl Entry<u16, PortSeen> for Port {
    ghost entry = { λ port. port };
}

/// The ports that a host or a dialler was asked for, the first first. It takes no memory and no
/// time: nothing of it is there in a run.
#[derive(Drop)]
pub struct PortLog {
    asked: GhostLog<PortSeen>,
}

impl Model for PortLog {
    ghost use Rattle.std.specs.Prelude.{List, ℕ, reverse};

    ghost Value = { List ℕ };

    ghost view = { λ p. reverse p.asked };
}

impl PortLog {
    /// No port was asked for.
    pub fn none() -> PortLog
        ensures { result ≡ [] }
    {
        PortLog {
            asked: GhostLog::none(),
        }
    }

    /// One more port is asked for.
    pub fn add(&mut self, port: u16)
        ensures { self.new ≡ self.old ++ port ∷ [] }
    {
        self.asked.add::<u16, Port>(&port);
    }
}

//! The end of a connection for the tests of a reactor.
ghost use Rattle.std.specs.Prelude.{◌≡◌, false, None};

use ev_base::{Got, PeerEnd, Sent, Taken};

/// An end of a connection that is never ready: each read, accept and write pauses, and is counted.
#[derive(Drop)]
pub struct PlayEnd {
    reads: u64,
    writes: u64,
}

impl PlayEnd {
    ghost use Rattle.ev_base.specs.End.{IsFresh};
    ghost use Rattle.ev_base.specs.Terms.{Terms};
    ghost use Rattle.demux.specs.PlayEnd.{play_end_facts, play_end_keeps};

    /// An end that has made no call. It is no listener and has no serial number.
    pub fn new() -> PlayEnd
        ensures fresh { IsFresh (play_end_facts result) }
        ensures no_listener { (play_end_facts result).listener ≡ false }
        ensures no_serial { (play_end_facts result).serial ≡ None }
        ensures kept { (t : Terms) → play_end_keeps t result }
    {
        PlayEnd {
            reads: 0,
            writes: 0,
        }
    }
}

impl PeerEnd for PlayEnd {
    ghost use Rattle.ev_base.specs.End.{Accepts, KeptByGiven};
    ghost use Rattle.ev_base.specs.Terms.{Terms, KeepsOn};
    ghost use Rattle.demux.specs.PlayEnd.{play_end_facts, play_end_keeps};

    ghost tells = { play_end_facts };

    ghost keeps = { play_end_keeps };

    fn is_listener(&self) -> bool {
        false
    }

    fn read(&mut self, buf: &mut [u8]) -> Got {
        self.reads = self.reads.saturating_add(1);
        Got::Pause
    }

    fn write(&mut self, piece: &[u8]) -> Sent {
        self.writes = self.writes.saturating_add(1);
        Sent::Pause
    }

    // It needs no listener, since it pauses as the other calls do.
    fn accept(&mut self) -> Taken<PlayEnd>
        ensures accepts { Accepts play_end_facts (play_end_facts self.old) result
            (play_end_facts self.new) }
        ensures kept { KeepsOn play_end_keeps self.old self.new }
        ensures given { (t : Terms) → play_end_keeps t self.old
            → KeptByGiven (play_end_keeps t) result }
        ensures pauses { result ≡ Taken.Pause }
    {
        self.reads = self.reads.saturating_add(1);
        Taken::Pause
    }

    ghost keeps_story = { λ t end keeps. keeps };
}

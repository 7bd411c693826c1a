//! The demultiplexer of events on ends.
ghost use Rattle.std.specs.Prelude.{◌≡◌, ◌≤◌, ◌<◌, ◌≢◌, ℕ, true, Contains, length, slice_get, Some};
ghost use Rattle.std.specs.Prelude.{OnOk};
ghost use Rattle.ev_base.specs.Terms.{Terms, KeepsOn, KeepsOnWith};
ghost use Rattle.ev_base.specs.Playing.{FollowsGroups};
ghost use Rattle.ev_base.specs.Net.{NetFacts, IsSound, NetWaits, Reserves, NetAttaches, SetsMaskOf};
ghost use Rattle.ev_base.specs.Net.{RetiresEnd, TurnsAwayEnd};

use super::PeerEnd;
use ev_types::{Handle, Kind, Mask, NetFailed, NoMemory};

/// How many reports a wait gives at most.
pub const MOST_REPORTS: usize = 256;

/// One report of a wait: the end of this handle is ready for this.
#[derive(Clone, Copy, PartialEq, Eq, Debug)]
pub struct Report {
    /// The handle of the end.
    pub handle: Handle,
    /// What it is ready for.
    pub kind: Kind,
}

/// What a wait answered. Moments are milliseconds.
#[derive(Clone, Copy, PartialEq, Eq, Debug)]
pub enum Waited {
    /// There are so many reports, from 1 to 256.
    Reports {
        /// The moment.
        now: u64,
        /// How many reports there are.
        count: usize,
    },
    /// The time is up, or something ended the wait, and there is no report.
    Quiet {
        /// The moment.
        now: u64,
    },
    /// Nothing can be reported any more.
    Over {
        /// The moment.
        now: u64,
    },
    /// The wait failed, and its count of faults rose.
    Failed,
}

/// A demultiplexer. It counts failed waits and failed attaches apart, and has a list of the handles
/// of attached ends.
pub trait Net {
    /// The ends that it watches.
    type End: PeerEnd;

    /// What contracts see of a net.
    ghost facts: { Self → NetFacts Self.End };

    /// What it keeps under the terms that a run starts with.
    ghost keeps: { Terms → Self → Type 0 };

    /// Waits for reports, at most so many milliseconds, or without a limit. The moment is not below
    /// an earlier one and at most 2^62. A report whose kind is not in its handle's mask is held
    /// back until it is, or until the end is retired. A report of an end is owed again after a read
    /// or an accept of it that paused, and after an accept that failed: a later wait gives it once
    /// there is something to read or accept. After `Failed` the reports of the wait before stand as
    /// they were.
    fn wait(&mut self, most_ms: Option<u64>) -> Waited
        ensures waits { NetWaits (facts self.old) most_ms result (facts self.new) }
        ensures kept { KeepsOn keeps self.old self.new };

    /// A report of the last wait.
    fn report(&self, at: usize) -> Report
        requires { at < length (facts self.now).reports }
        ensures { slice_get (facts self.now).reports at ≡ Some result };

    /// Makes at least n places spare. After `NoMemory` there are no fewer than before.
    fn reserve(&mut self, n: usize) -> Result<(), NoMemory>
        ensures same { Reserves (facts self.old) (facts self.new) }
        ensures places { OnOk result (n ≤ (facts self.new).spare) }
        ensures kept { KeepsOn keeps self.old self.new };

    /// Begins to watch an end, which leaves all that the end tells as it is. It uses one place,
    /// which serves the later `retire`. `NetFailed` comes only if the count of failed attaches
    /// rose, and leaves the place. A net that has no memory to watch the end tells that as
    /// `NetFailed` too, with its count.
    fn attach(&mut self, end: &mut Self::End, handle: Handle, mask: Mask) -> Result<(), NetFailed>
        requires place { 1 ≤ (facts self.old).spare }
        requires absent { Contains (facts self.old).attached handle.0 → ⊥ }
        ensures attaches { NetAttaches (facts self.old) handle.0 mask
            (Self.End.tells end.old).serial result (facts self.new) }
        ensures end { Self.End.tells end.new ≡ Self.End.tells end.old }
        ensures kept { KeepsOnWith keeps Self.End.keeps end.old self.old self.new }
        ensures end_kept { (t : Terms) → keeps t self.old → Self.End.keeps t end.old
            → Self.End.keeps t end.new };

    /// Changes the mask of an attached end. It takes no memory and cannot fail.
    fn set_mask(&mut self, handle: Handle, mask: Mask)
        requires { Contains (facts self.old).attached handle.0 }
        ensures sets { SetsMaskOf (facts self.old) handle.0 mask (facts self.new) }
        ensures kept { KeepsOn keeps self.old self.new };

    /// Takes an attached end back for good. It takes no memory and cannot fail.
    fn retire(&mut self, handle: Handle, end: Self::End)
        requires { Contains (facts self.old).attached handle.0 }
        ensures retires { RetiresEnd (facts self.old) handle.0 end (facts self.new) }
        ensures kept { KeepsOnWith keeps Self.End.keeps end self.old self.new };

    /// Takes an end that is not to be watched. It uses one place, takes no memory and cannot fail.
    fn turn_away(&mut self, end: Self::End)
        requires { 1 ≤ (facts self.old).spare }
        ensures turns_away { TurnsAwayEnd (facts self.old) (Self.End.tells end).serial end
            (facts self.new) }
        ensures kept { KeepsOnWith keeps Self.End.keeps end self.old self.new };

    /// One that never fails has no fault.
    ghost sound: { (net : Self) → IsSound (facts net) };

    /// If the terms lay down the groups of a script, one that tells its calls answered each wait
    /// as these groups say.
    ghost keeps_groups: { (t : Terms) (net : Self) → keeps t net
        → FollowsGroups (facts net).calls t.groups };
}

/// What makes a waiting net return early, if it can. It promises nothing.
pub trait Wake {
    /// Asks the net to return from its wait.
    fn wake(&self);
}

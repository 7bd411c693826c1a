//! The calls that a net made, which contracts alone see.
ghost use Rattle.std.specs.Prelude.{◌≡◌, ◌∷◌, []};

use super::{Report, Waited};
use ev_types::{Handle, Mask};
use ghost_log::{Entry, GhostLog};
use std::marker::{Model, PhantomData};

/// A call that a net made and that did not fail.
#[derive(Clone, Copy)]
pub enum Made<'a> {
    /// A wait with its limit, its answer and its reports, each with the number of the wait that it
    /// was laid down for.
    Wait(Option<u64>, Waited, &'a [(usize, Report)]),
    /// A wait with its limit, its answer and its reports.
    WaitForMany(Option<u64>, Waited, &'a [Report]),
    /// A wait with its limit, its answer and its one report, or none.
    WaitForOne(Option<u64>, Waited, Option<Report>),
    /// An attach with the serial number of the end, if it has one.
    Attach(Handle, Mask, Option<u64>),
    /// A mask that was set.
    Mask(Handle, Mask),
    /// An end that was retired.
    Retire(Handle),
    /// An end that was turned away, with its serial number if it has one.
    TurnAway(Option<u64>),
}

/// A call of a net as contracts see it. No such value is ever made.
struct CallSeen {
    marker: PhantomData<()>,
}

impl Model for CallSeen {
    ghost use Rattle.ev_base.specs.Net.{Call, Retires};

    ghost Value = { Call };

    ghost view = { λ _. Retires 0 };
}

/// The entry is the call.
struct Seen;

impl<'a> Entry<Made<'a>, CallSeen> for Seen {
    ghost use Rattle.ev_base.specs.Calls.{call_of};

    ghost entry = { call_of };
}

/// The calls that a net made, the latest first. They take no memory and no time: nothing of them is
/// there in a run.
#[derive(Drop)]
pub struct Calls {
    made: GhostLog<CallSeen>,
}

impl Model for Calls {
    ghost use Rattle.std.specs.Prelude.{List};
    ghost use Rattle.ev_base.specs.Net.{Call};

    ghost Value = { List Call };

    ghost view = { λ c. c.made };
}

impl Calls {
    ghost use Rattle.ev_base.specs.Calls.{call_of};

    /// No call was made.
    pub fn none() -> Calls
        ensures { result ≡ [] }
    {
        Calls {
            made: GhostLog::none(),
        }
    }

    /// One more call was made.
    pub fn add(&mut self, call: Made)
        ensures { self.new ≡ call_of call.entry ∷ self.old }
    {
        self.made.add::<Made, Seen>(&call);
    }
}

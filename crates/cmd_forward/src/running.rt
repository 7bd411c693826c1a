//! The run over a connection that was begun.
ghost use Rattle.std.specs.Prelude.{◌≡◌, ◌≤◌, []};
ghost use Rattle.ev_base.specs.Dialer.{GivesEnd, LeavesDialOpen};
ghost use Rattle.ev_base.specs.Source.{SourceFacts};
ghost use Rattle.ev_base.specs.Terms.{Terms};
ghost use Rattle.reactor_model.specs.Turns.{most_milliseconds};
ghost use Rattle.reactor_core.specs.Ends.{WhereTold};
ghost use Rattle.connector_run.specs.Waits.{AskedUntil};
ghost use Rattle.cmd_forward.specs.Answers.{most_input};
ghost use Rattle.cmd_forward.specs.Statuses.{RunEnds};
ghost use Rattle.cmd_forward.specs.Starting.{HasStarted, IsLeftUnopened};

use crate::outcome::Outcome;
use connector_run::{ConnectCore, OpenRefused, Unopened, finish, open, run};
use ev_base::{DialEnd, Net, Source};
use forwarder::laws::totals_are_exact;
use forwarder::{Connector, ForwardEnd, ForwardNet, Forwarder};
use reactor_core::{Means, Parts};
use std::alloc::Global;
use std::sync::Wait;

/// The reactor of a run.
type ForwardCore<E, M, S> = ConnectCore<ForwardEnd<E, S>, Forwarder<E, S>, ForwardNet<M, S>>;

/// What a run leaves.
pub(crate) struct Ran<M, S> {
    /// How it ended.
    pub(crate) outcome: Outcome,
    /// The net that was handed in.
    pub(crate) net: M,
    /// The source that was handed in.
    pub(crate) input: S,
}

/// Waits for the connection of an end that a dialler gave with its net, at most `wait`
/// milliseconds, from 1 to 4,294,967,295, and then sends the records of the source to it. Each wait
/// of the net is asked with exactly the time that is left of these, and with no limit after them.
pub(crate) fn forward<R: Wait, E: DialEnd + Drop, M: Net<End = E>, S: Source>(
    rt: &R,
    alloc: Global,
    net: M,
    end: E,
    input: S,
    wait: u64,
) -> Ran<M, S>
    requires some { 1 ≤ wait }
    requires few { wait ≤ most_milliseconds }
    requires given { GivesEnd M.facts E.tells (net, end) }
    requires kept { (t : Terms) → LeavesDialOpen t → M.keeps t net × E.keeps t end }
    ensures ends { RunEnds E.tells most_input wait (S.facts input) (S.facts result.input)
        (M.facts result.net) result.outcome }
    ensures asked { WhereTold (AskedUntil wait) (M.facts result.net).calls }
{
    let end = ForwardEnd::new(end, input);
    let handler = Connector::new(end, Forwarder::new(alloc));
    match open(alloc, ForwardNet::new(alloc, net), handler, wait) {
        Ok(core) => serve(rt, core),
        Err(left) => give_up(left),
    }
}

/// Serves the end of a reactor until it closes itself, or nothing can be reported any more.
fn serve<R: Wait, E: DialEnd + Drop, M: Net<End = E>, S: Source>(
    rt: &R,
    core: ForwardCore<E, M, S>,
) -> Ran<M, S>
    requires { (i : SourceFacts) × (wait : _)
        × HasStarted ⟦<ForwardCore<E, M, S> as Means>⟧.m i wait core }
    ensures ends { (i : SourceFacts) (wait : _)
        → HasStarted ⟦<ForwardCore<E, M, S> as Means>⟧.m i wait core
        → RunEnds E.tells most_input wait i (S.facts result.input) (M.facts result.net)
        result.outcome }
    ensures asked { (i : SourceFacts) (wait : _)
        → HasStarted ⟦<ForwardCore<E, M, S> as Means>⟧.m i wait core
        → WhereTold (AskedUntil wait) (M.facts result.net).calls }
{
    let mut core = core;
    let ended = run(rt, &mut core);
    let Parts {
        journal,
        first: _,
        net,
        timers: _,
        watch: _,
        volumes: _,
    } = finish(core);
    let (net, end) = net.into_retired();
    totals_are_exact();
    Ran {
        outcome: Outcome::of(ended, journal.as_slice(), end.has_failed()),
        net,
        input: end.into_input(),
    }
}

/// What is left if the end was not taken in.
fn give_up<E: DialEnd + Drop, M: Net<End = E>, S: Source>(
    left: Unopened<ForwardEnd<E, S>, ForwardNet<M, S>>,
) -> Ran<M, S>
    requires { (i : SourceFacts) × IsLeftUnopened M.facts M.keeps E.tells E.keeps S.facts i left }
    ensures ends { (i : SourceFacts) → IsLeftUnopened M.facts M.keeps E.tells E.keeps S.facts i left
        → (wait : _) → RunEnds E.tells most_input wait i (S.facts result.input)
        (M.facts result.net) result.outcome }
    ensures asked { (i : SourceFacts)
        → IsLeftUnopened M.facts M.keeps E.tells E.keeps S.facts i left
        → WhereTold (λ calls. calls ≡ []) (M.facts result.net).calls }
{
    let Unopened { why, net, end } = left;
    let (_, end) = end.into_parts();
    let outcome = match why {
        OpenRefused::NotAttached => Outcome::NetFault,
        OpenRefused::NoMemory => Outcome::NoMemory,
    };
    Ran {
        outcome,
        net: net.close(),
        input: end.into_input(),
    }
}

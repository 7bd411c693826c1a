//! The run of one connector on a reactor.
ghost use Rattle.std.specs.Prelude.{◌≡◌, ◌≤◌, ◌⊎◌, ℕ, List, None, Some};
ghost use Rattle.ev_base.specs.Terms.{Terms};
ghost use Rattle.connector.specs.declared.note.ConnectNote.{ConnectNote};
ghost use Rattle.reactor_model.specs.reactor_journal.specs.declared.entry.Entry.{Entry};
ghost use Rattle.reactor_model.specs.reactor_journal.specs.Past.{count, past_of};
ghost use Rattle.reactor_core.specs.Ends.{WhereTold};
ghost use Rattle.reactor_core.specs.Marks.{is_polled};
ghost use Rattle.reactor_core.specs.Polling.{FitsLimit};
ghost use Rattle.reactor_core.specs.Stands.{Stands};
ghost use Rattle.reactor_core.specs.Views.{net_of, over_of};
ghost use Rattle.core_loop.specs.Idle.{IsIdle};
ghost use Rattle.core_loop.specs.Leading.{GoesOn, NoneOpen};
ghost use Rattle.connector_run.specs.Leaving.{LastWaitWasOver, LeavesAlive, LeavesClosed};
ghost use Rattle.connector_run.specs.Phases.{ClosedItself, IsAlive, first_entries};
ghost use Rattle.connector_run.specs.Running.{EndsSo, HasCause, IsRegistered};
ghost use Rattle.connector_run.specs.Waits.{AskedUntil};

use connector::{ConnectNote, Connector, Service};
use core_loop::RunEnd;
use ev_base::{DialEnd, Net};
use reactor_core::{Core, Means, Parts};
use reactor_model::{DropVolumes, NoWatch};
use std::sync::Wait;
use timer_queue::{SortedTimers, TimerQueue};

/// The reactor of one connector.
pub type ConnectCore<E, V, M> = Core<Connector<E, V>, M, SortedTimers, NoWatch, DropVolumes>;

/// How a run ended.
#[derive(Clone, Copy, PartialEq, Eq, Debug)]
pub enum Ended {
    /// The connector closed itself.
    Closed,
    /// Nothing can be reported any more, as the last wait was answered, and the connector is alive
    /// and has no upcall to make.
    Over,
    /// A wait failed, and the net's count of failed waits rose.
    NetFault,
    /// There was no memory.
    NoMemory,
}

/// Serves the connector, which was registered with the mask write alone and a timer that comes due
/// once after `wait` milliseconds, until it closed itself, nothing can be reported any more, or
/// something fails. Each wait is asked with exactly the time that is left until the timer comes
/// due, and without a limit once it did.
pub fn run<R: Wait, E: DialEnd, V: Service<End = E> + Drop, M: Net<End = E>>(
    rt: &R,
    core: &mut ConnectCore<E, V, M>,
) -> Ended
where
    V::Note: Drop,
    requires { IsRegistered ⟦<ConnectCore<E, V, M> as Means>⟧.m core.old }
    ensures leads { (t : Terms) (F wait : ℕ)
        → Stands ⟦<ConnectCore<E, V, M> as Means>⟧.m t core.old F (first_entries wait)
        → FitsLimit t None
        → GoesOn ⟦<ConnectCore<E, V, M> as Means>⟧.m t (first_entries wait)
        (EndsSo ⟦<ConnectCore<E, V, M> as Means>⟧.m t wait result (over_of core.new)) core.new }
    ensures asked { (t : Terms) (F wait : ℕ) → t.limit ≡ Some None
        → Stands ⟦<ConnectCore<E, V, M> as Means>⟧.m t core.old F (first_entries wait)
        → WhereTold (AskedUntil wait) (M.facts (net_of core.new)).calls }
    ensures cause { HasCause result (M.facts (net_of core.old)).failed_waits
        (M.facts (net_of core.new)).failed_waits }
{
    match core_loop::run(rt, core, None, Some(1)) {
        RunEnd::Enough => Ended::Closed,
        RunEnd::Over => Ended::Over,
        RunEnd::NetFault => Ended::NetFault,
        RunEnd::NoMemory => Ended::NoMemory,
        RunEnd::Stopped => unreachable!("it was not stopped"),
        RunEnd::Broken => unreachable!("no watch sees it"),
        RunEnd::VolumeFault => unreachable!("its volumes take all"),
    }
}

/// Stops a reactor with no upcall on its way, and takes it apart. Its net has retired one end, that
/// of the connector, and turned none away. If the connector had closed itself, the journal ends
/// with the note of its last turn. If the last wait was answered that nothing can be reported
/// any more, the net tells so, if it tells its calls. No wait is asked.
pub fn finish<E: DialEnd, V: Service<End = E> + Drop, M: Net<End = E>>(
    core: ConnectCore<E, V, M>,
) -> Parts<ConnectNote<V::Note>, M, SortedTimers, NoWatch, DropVolumes>
where
    V::Note: Drop,
    requires { IsIdle ⟦<ConnectCore<E, V, M> as Means>⟧.m core }
    ensures closed { (t : Terms) (F : ℕ) (h : List (Entry (ConnectNote V.Note))) (wait : ℕ)
        → Stands ⟦<ConnectCore<E, V, M> as Means>⟧.m t core F h → NoneOpen h
        → (closed : ClosedItself wait F h) → LeavesClosed ⟦<ConnectCore<E, V, M> as Means>⟧.m
        ⟦<SortedTimers as TimerQueue>⟧.timers t closed result }
    ensures alive { (t : Terms) (F : ℕ) (h : List (Entry (ConnectNote V.Note))) (wait : ℕ)
        → Stands ⟦<ConnectCore<E, V, M> as Means>⟧.m t core F h → NoneOpen h → IsAlive wait h
        → LeavesAlive ⟦<ConnectCore<E, V, M> as Means>⟧.m ⟦<SortedTimers as TimerQueue>⟧.timers t F
        h result }
    ensures over { (t : Terms) (F : ℕ) (h : List (Entry (ConnectNote V.Note)))
        → Stands ⟦<ConnectCore<E, V, M> as Means>⟧.m t core F h → NoneOpen h
        → over_of core ≡ count is_polled (past_of h) → 1 ≤ over_of core
        → WhereTold LastWaitWasOver (M.facts result.net).calls }
    ensures asked { (t : Terms) (F : ℕ) (h : List (Entry (ConnectNote V.Note))) (wait : ℕ)
        → t.limit ≡ Some None → Stands ⟦<ConnectCore<E, V, M> as Means>⟧.m t core F h → NoneOpen h
        → IsAlive wait h ⊎ ClosedItself wait F h
        → WhereTold (AskedUntil wait) (M.facts result.net).calls }
    ensures waits { (M.facts result.net).failed_waits ≡ (M.facts (net_of core)).failed_waits }
{
    let mut core = core;
    core.stop();
    core.into_parts()
}

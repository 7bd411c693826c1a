//! The wait for events, and their entries.
ghost use Rattle.std.specs.Prelude.{◌≡◌, ◌≤◌, ◌<◌, ◌+◌, ◌++◌, ◌↔◌, ℕ, List, map, filter, length};
ghost use Rattle.std.specs.Prelude.{true, None, OnOk, OnErr, IfOk, IfSome, IfNone};
ghost use Rattle.ev_base.specs.Counts.{Rose};
ghost use Rattle.ev_base.specs.Net.{NetWaits, FailsToWait};
ghost use Rattle.ev_base.specs.Terms.{Terms};
ghost use Rattle.ev_base.specs.declared.net.Report.{Report};
ghost use Rattle.reactor_model.specs.reactor_journal.specs.declared.entry.Entry.{Entry};
ghost use Rattle.reactor_model.specs.reactor_journal.specs.Past.{past_of, count};
ghost use Rattle.reactor_summary.specs.Summary.{Summary, summary};
ghost use Rattle.reactor_core.specs.Calls.{least_limit, is_taken};
ghost use Rattle.reactor_core.specs.Rest.{LeavesRest, CountsHold};
ghost use Rattle.reactor_core.specs.Refusals.{NetFails, LeavesPoll};
ghost use Rattle.reactor_core.specs.Stands.{From, Somewhere, Each, Stands, StandsWith};
ghost use Rattle.reactor_core.specs.Stands.{StandsAsBefore, Keeps, HasRoom};
ghost use Rattle.reactor_core.specs.Views.{net_of, volumes_of, marks_of, over_of};
ghost use Rattle.reactor_core.specs.Marks.{is_polled, marks_after, marks_found, marks_polled};
ghost use Rattle.reactor_core.specs.Polling.{FitsLimit, name_of, ready_of, Polls, WaitsOnce};
ghost use Rattle.reactor_core.specs.Taking.{moment_of, count_of, event_places, MayWait, WaitGives};
ghost use Rattle.reactor_core.specs.Taking.{IsTakingDues, TakesDues, IsTakingReports};
ghost use Rattle.reactor_core.specs.Taking.{HasTakenReports};

use crate::Core;
use crate::append::append;
use crate::marks::marked;
use crate::means::Means;
use ev_base::{MOST_REPORTS, Net, NoMemory, Waited};
use reactor_model::{Entry, EventHandler, Volumes, Watch};
use reactor_state::Places;
use timer_queue::TimerQueue;

/// What a wait found.
#[derive(Clone, Copy, PartialEq, Eq, Debug)]
pub enum Polled {
    /// There were reports.
    Events,
    /// The time was up, or something ended the wait, and there was no report.
    Quiet,
    /// Nothing can be reported any more.
    Over,
}

/// Why there was no wait.
#[derive(Clone, Copy, PartialEq, Eq, Debug)]
pub enum PollRefused {
    /// The reactor was stopped.
    Stopped,
    /// There was no memory for the entries and events that a wait may bring.
    NoMemory,
    /// The wait failed, and the net's count of failed waits rose.
    NetFailed,
}

/// The lesser of two limits, where None is no limit.
fn least_limit(limit: Option<u64>, other: Option<u64>) -> Option<u64>
    ensures { result ≡ least_limit limit other }
{
    match (limit, other) {
        (None, other) => other,
        (Some(limit), None) => Some(limit),
        (Some(limit), Some(other)) => Some(limit.min(other)),
    }
}

/// The moment at which a wait was answered, in milliseconds, or None exactly if it failed.
fn moment_of(answer: Waited) -> Option<u64>
    ensures { result ≡ moment_of answer }
{
    match answer {
        Waited::Reports { now, .. } => Some(now),
        Waited::Quiet { now } => Some(now),
        Waited::Over { now } => Some(now),
        Waited::Failed => None,
    }
}

/// What a wait found, or None exactly if it failed.
fn name_of(answer: Waited) -> Option<Polled>
    ensures { result ≡ name_of answer }
{
    match answer {
        Waited::Reports { .. } => Some(Polled::Events),
        Waited::Quiet { .. } => Some(Polled::Quiet),
        Waited::Over { .. } => Some(Polled::Over),
        Waited::Failed => None,
    }
}

/// How many reports a wait has.
fn count_of(answer: Waited) -> usize
    ensures { result ≡ count_of answer }
{
    match answer {
        Waited::Reports { count, .. } => count,
        Waited::Quiet { .. } | Waited::Over { .. } | Waited::Failed => 0,
    }
}

impl<
    H: EventHandler,
    M: Net<End = H::End>,
    Q: TimerQueue,
    W: Watch<H::Note>,
    V: Volumes<H::Note>,
> Core<H, M, Q, W, V> {
    /// Waits once for reports, at most `most_ms` milliseconds and no longer than to the earliest
    /// deadline; None is no limit (C++NPv2 chapter 3, `ACE_Reactor::handle_events`; POSA2,
    /// Reactor). The journal has more entries: `Polled`, a `Due` for each timer whose deadline is
    /// reached, in order, and a `Ready` for each report whose handle is alive and whose kind is in
    /// its mask, in the order of the reports, of which there are at most 256. The answer says what
    /// the wait found. If that is `Over`, `over` tells from then on how many waits there were
    /// with this one, as many as the whole history has `Polled`.
    ///
    /// `Stopped` comes exactly if the reactor was stopped. `NoMemory` comes if there was no
    /// memory for the entries and events that a wait may bring, and leaves all as it was but the
    /// room. `NetFailed` comes only if the net's count of failed waits rose: one wait was made,
    /// which failed. After each Err the journal, the handlers and the timers are as before.
    pub fn poll(&mut self, most_ms: Option<u64>) -> Result<Polled, PollRefused>
        requires stands { StandsWith ⟦<Self as Means>⟧.m (λ t h. FitsLimit t most_ms) self.old }
        ensures ok { IfOk result (λ polled. From ⟦<Self as Means>⟧.m self.old
            (λ t F h. FitsLimit t most_ms
            → Polls ⟦<Self as Means>⟧.m t F h most_ms polled self.old self.new)) }
        ensures err { OnErr result (StandsAsBefore ⟦<Self as Means>⟧.m self.old self.new) }
        ensures refused { LeavesPoll ⟦<Self as Means>⟧.m self.old result self.new }
        ensures stopped { From ⟦<Self as Means>⟧.m self.old (λ t F h.
            (result ≡ Err PollRefused.Stopped) ↔ ((summary (past_of h)).ended ≡ true)) }
        ensures failed { result ≡ Err PollRefused.NetFailed
            → Rose (M.facts (net_of self.old)).failed_waits
            (M.facts (net_of self.new)).failed_waits }
        ensures counts { CountsHold ⟦<Self as Means>⟧.m self.old self.new }
        ensures marks { marks_of self.new ≡ marks_polled result (marks_of self.old) }
        ensures over { over_of self.old ≤ over_of self.new }
        ensures number { From ⟦<Self as Means>⟧.m self.new (λ t F h.
            result ≡ Ok Polled.Over → over_of self.new ≡ count is_polled (past_of h)) }
        ensures volumes { volumes_of self.new ≡ volumes_of self.old }
    {
        if self.state.is_ended() {
            return Err(PollRefused::Stopped);
        }
        let armed = self.state.armed_count();
        match self.make_poll_room(armed) {
            Ok(()) => {}
            Err(_) => return Err(PollRefused::NoMemory),
        }
        let limit = least_limit(most_ms, self.state.time_to_deadline());
        match self.take_events(limit, armed) {
            Some(polled) => Ok(polled),
            None => Err(PollRefused::NetFailed),
        }
    }

    /// Makes room for the entries of a wait, with so many timers, and for their events.
    fn make_poll_room(&mut self, armed: usize) -> Result<(), NoMemory>
        ensures kept { Keeps ⟦<Self as Means>⟧.m self.old self.new }
        ensures room { OnOk result (From ⟦<Self as Means>⟧.m self.old (λ t F h.
            HasRoom ⟦<Self as Means>⟧.m (armed + 257) (event_places armed 256) self.new
            (summary (past_of h)))) }
        ensures rest { LeavesRest ⟦<Self as Means>⟧.m self.old self.new }
    {
        let Some(entries) = armed.checked_add(MOST_REPORTS + 1) else {
            return Err(NoMemory);
        };
        self.make_room(
            entries,
            Places {
                handles: 0,
                timers: 0,
                timeouts: armed,
                events: MOST_REPORTS,
                opens: 0,
            },
        )
    }

    /// Makes one wait, with so many armed timers, and appends its entries. None comes exactly if
    /// the wait failed.
    fn take_events(&mut self, limit: Option<u64>, armed: usize) -> Option<Polled>
        requires may { Somewhere (MayWait ⟦<Self as Means>⟧.m armed limit) self.old }
        ensures waits { IfSome result (λ polled.
            Each (MayWait ⟦<Self as Means>⟧.m armed limit) self.old (λ t F h.
            WaitsOnce ⟦<Self as Means>⟧.m t F h limit polled (M.facts self.old.net) self.new)) }
        ensures stands { IfNone result (StandsAsBefore ⟦<Self as Means>⟧.m self.old self.new) }
        ensures fails { IfNone result
            (NetFails ⟦<Self as Means>⟧.m FailsToWait self.old self.new) }
        ensures counts { CountsHold ⟦<Self as Means>⟧.m self.old self.new }
        ensures marks { self.new.marks ≡ marks_found result self.old.marks }
        ensures volumes { self.new.volumes ≡ self.old.volumes }
    {
        let answer = self.wait_for(limit);
        let Some(polled) = name_of(answer) else {
            return None;
        };
        self.take_dues(armed);
        self.take_reports(count_of(answer));
        Some(polled)
    }

    /// Makes one wait, and appends its `Polled` if it did not fail.
    fn wait_for(&mut self, limit: Option<u64>) -> Waited
        requires may { (armed : ℕ) × Somewhere (MayWait ⟦<Self as Means>⟧.m armed limit) self.old }
        ensures waits { NetWaits (M.facts self.old.net) limit result (M.facts self.new.net) }
        ensures gives { (armed : ℕ) → Each (MayWait ⟦<Self as Means>⟧.m armed limit) self.old
            (λ t F h. WaitGives ⟦<Self as Means>⟧.m armed t F h (moment_of result) self.new) }
        ensures stands { moment_of result ≡ None
            → StandsAsBefore ⟦<Self as Means>⟧.m self.old self.new }
        ensures fails { moment_of result ≡ None
            → NetFails ⟦<Self as Means>⟧.m FailsToWait self.old self.new }
        ensures counts { CountsHold ⟦<Self as Means>⟧.m self.old self.new }
        ensures marks { self.new.marks ≡ marks_after result self.old.marks }
        ensures volumes { self.new.volumes ≡ self.old.volumes }
    {
        let answer = self.net.wait(limit);
        let Some(now) = moment_of(answer) else {
            return answer;
        };
        self.state.poll(now);
        self.marks = marked(answer, self.marks);
        append(&mut self.journal, &mut self.watch, Entry::Polled { now });
        answer
    }

    /// Appends a `Due` for each timer whose deadline is reached, of which there are at most so
    /// many.
    fn take_dues(&mut self, most: usize)
        requires taking { (t : Terms) × (F : ℕ) × (h : List (Entry H.Note)) × (s : Summary)
            × (events : ℕ) × (pending : List Report)
            × IsTakingDues ⟦<Self as Means>⟧.m s most events t self.old F h pending }
        ensures dues { (t : Terms) (F : ℕ) (h : List (Entry H.Note)) (s : Summary) (events : ℕ)
            (pending : List Report)
            → IsTakingDues ⟦<Self as Means>⟧.m s most events t self.old F h pending
            → TakesDues ⟦<Self as Means>⟧.m s events t self.new F h pending }
        ensures net { self.new.net ≡ self.old.net }
        ensures rest { LeavesRest ⟦<Self as Means>⟧.m self.old self.new }
    {
        let mut left = most;
        while left > 0 {
            let Some(timer) = self.state.due() else {
                return;
            };
            append(&mut self.journal, &mut self.watch, Entry::Due { timer });
            left -= 1;
        }
    }

    /// Appends a `Ready` for each report of the wait that is taken.
    fn take_reports(&mut self, count: usize)
        requires stands { (t : Terms) × (F : ℕ) × (h : List (Entry H.Note)) × (s : Summary)
            × (left : ℕ)
            × IsTakingReports ⟦<Self as Means>⟧.m s left t self.old F h
            (filter (is_taken s) (M.facts self.old.net).reports)
            × (count ≤ left) }
        requires all { count ≡ length (M.facts self.old.net).reports }
        ensures stands { (t : Terms) (F : ℕ) (h : List (Entry H.Note)) (s : Summary) (left : ℕ)
            → IsTakingReports ⟦<Self as Means>⟧.m s left t self.old F h
            (filter (is_taken s) (M.facts self.old.net).reports)
            → count ≤ left
            → Stands ⟦<Self as Means>⟧.m t self.new F
            (h ++ map ready_of (filter (is_taken s) (M.facts self.old.net).reports)) }
        ensures net { self.new.net ≡ self.old.net }
        ensures rest { LeavesRest ⟦<Self as Means>⟧.m self.old self.new }
    {
        for at in 0..count {
            self.take_report(at);
        }
    }

    /// Appends a `Ready` for the report, if it is taken.
    fn take_report(&mut self, at: usize)
        requires within { at < length (M.facts self.old.net).reports }
        requires stands { (t : Terms) × (F : ℕ) × (h : List (Entry H.Note)) × (s : Summary)
            × HasTakenReports ⟦<Self as Means>⟧.m s (M.facts self.old.net).reports at t
            self.old F h }
        ensures stands { (t : Terms) (F : ℕ) (h : List (Entry H.Note)) (s : Summary)
            → HasTakenReports ⟦<Self as Means>⟧.m s (M.facts self.old.net).reports at t
            self.old F h
            → HasTakenReports ⟦<Self as Means>⟧.m s (M.facts self.old.net).reports (at + 1) t
            self.new F h }
        ensures net { self.new.net ≡ self.old.net }
        ensures rest { LeavesRest ⟦<Self as Means>⟧.m self.old self.new }
    {
        let report = self.net.report(at);
        if !self.state.is_wanted(report.handle, report.kind) {
            return;
        }
        self.state.ready(report.handle, report.kind);
        append(
            &mut self.journal,
            &mut self.watch,
            Entry::Ready {
                handle: report.handle,
                kind: report.kind,
            },
        );
    }
}

//! The calls of a one-thread reactor whose upcalls are settled as soon as they were made.
ghost use Rattle.std.specs.Prelude.{◌≡◌, ℕ, List, IfErr, IfNone, IfOk, IfSome, None, OnOk, Some};
ghost use Rattle.ev_base.specs.Terms.{Terms};
ghost use Rattle.ev_base.specs.Counts.{Rose};
ghost use Rattle.reactor_model.specs.reactor_journal.specs.declared.entry.Entry.{Entry};
ghost use Rattle.reactor_model.specs.reactor_journal.specs.Past.{past_of};
ghost use Rattle.reactor_core.specs.Faults.{HasNotFallen};
ghost use Rattle.reactor_core.specs.Offering.{RegisterGives};
ghost use Rattle.reactor_core.specs.Polling.{FitsLimit, Polls};
ghost use Rattle.reactor_core.specs.Refusals.{LeavesOffer};
ghost use Rattle.reactor_core.specs.Registering.{IsOffered};
ghost use Rattle.reactor_core.specs.Removing.{StopsOnce};
ghost use Rattle.reactor_core.specs.reactor_summary.specs.Summary.{summary};
ghost use Rattle.reactor_core.specs.Stands.{From, Stands};
ghost use Rattle.reactor_core.specs.Views.{marks_of, net_of, over_of, volumes_of};
ghost use Rattle.core_loop.specs.Idle.{EndsSo, FailsVolume, HasClosed, HasEnded, HasNoUpcall};
ghost use Rattle.core_loop.specs.Idle.{IsIdle, LeavesParts, MayTake};
ghost use Rattle.core_loop.specs.Idle.{StaysIdle, StaysWithin, StepEndsSo, WaitedOver, WasStopped};
ghost use Rattle.core_loop.specs.Leading.{Leads, LeadsWithin, LeavesFrom, NoneOpen, PolledSo};
ghost use Rattle.core_loop.specs.Leading.{PostedSo, RunsSo, TurnedSo, is_enough};

use ev_base::{Handle, Kind, Mask, Net};
use reactor_core::{
    Core, HandOverRefused, Means, Parts, PollRefused, Polled, PostRefused, RegisterRefused,
    StartRefused,
};
use reactor_model::{EventHandler, Volumes, Watch};
use std::sync::Wait;
use timer_queue::TimerQueue;

/// Why a loop ended.
#[derive(Clone, Copy, PartialEq, Eq, Debug)]
pub enum RunEnd {
    /// At least as many handlers were closed or refused as were asked for.
    Enough,
    /// Nothing can be reported any more, as the last wait was answered, and there is no upcall to
    /// make.
    Over,
    /// The reactor was stopped.
    Stopped,
    /// The watch failed.
    Broken,
    /// A wait failed, and the net's count of failed waits rose.
    NetFault,
    /// A volume of the journal was not taken, and the volumes' count of faults rose.
    VolumeFault,
    /// There was no memory.
    NoMemory,
}

/// Registers a handler (`Core::register`), without a timer. Its answers are those of that call.
pub fn register<
    H: EventHandler,
    M: Net<End = H::End>,
    Q: TimerQueue,
    W: Watch<H::Note>,
    V: Volumes<H::Note>,
>(core: &mut Core<H, M, Q, W, V>, handler: H, mask: Mask) -> Result<Handle, (H, RegisterRefused)>
    requires { MayTake ⟦<Core<H, M, Q, W, V> as Means>⟧.m core.old handler }
    ensures idle { IsIdle ⟦<Core<H, M, Q, W, V> as Means>⟧.m core.new }
    ensures gives { From ⟦<Core<H, M, Q, W, V> as Means>⟧.m core.old
        (λ t F h. IsOffered H.means t (past_of h) handler
        → RegisterGives ⟦<Core<H, M, Q, W, V> as Means>⟧.m t F h mask None core.old result
        core.new) }
    ensures refused { LeavesOffer ⟦<Core<H, M, Q, W, V> as Means>⟧.m handler core.old result
        core.new }
{
    core.register(handler, mask, None)
}

/// Makes the next upcall and settles it, and tells how many handlers were closed or refused until
/// then. None comes exactly if there is no upcall to make.
pub fn turn<
    H: EventHandler,
    M: Net<End = H::End>,
    Q: TimerQueue,
    W: Watch<H::Note>,
    V: Volumes<H::Note>,
>(core: &mut Core<H, M, Q, W, V>) -> Result<Option<u64>, StartRefused>
    requires { IsIdle ⟦<Core<H, M, Q, W, V> as Means>⟧.m core.old }
    ensures idle { IsIdle ⟦<Core<H, M, Q, W, V> as Means>⟧.m core.new }
    ensures closed { (closed : ℕ) → result ≡ Ok (Some closed)
        → HasClosed ⟦<Core<H, M, Q, W, V> as Means>⟧.m closed core.new }
    ensures some { (closed : ℕ) → result ≡ Ok (Some closed)
        → HasNoUpcall ⟦<Core<H, M, Q, W, V> as Means>⟧.m core.old → ⊥ }
    ensures none { result ≡ Ok None → HasNoUpcall ⟦<Core<H, M, Q, W, V> as Means>⟧.m core.new }
    ensures stays { StaysIdle ⟦<Core<H, M, Q, W, V> as Means>⟧.m core.old core.new }
    ensures leads { Leads ⟦<Core<H, M, Q, W, V> as Means>⟧.m (TurnedSo H.means result) core.old
        core.new }
    ensures waits { (M.facts (net_of core.new)).failed_waits
        ≡ (M.facts (net_of core.old)).failed_waits }
    ensures volumes { volumes_of core.new ≡ volumes_of core.old }
    ensures marks { marks_of core.new ≡ marks_of core.old }
{
    match core.start() {
        Ok(Some(job)) => {
            let done = job.run();
            Ok(Some(core.settle(done).closed))
        }
        Ok(None) => Ok(None),
        Err(refused) => Err(refused),
    }
}

/// Waits once, at most `most_ms` milliseconds (`Core::poll`), if there is no upcall to make.
pub fn poll<
    H: EventHandler,
    M: Net<End = H::End>,
    Q: TimerQueue,
    W: Watch<H::Note>,
    V: Volumes<H::Note>,
>(core: &mut Core<H, M, Q, W, V>, most_ms: Option<u64>) -> Result<Polled, PollRefused>
    requires { HasNoUpcall ⟦<Core<H, M, Q, W, V> as Means>⟧.m core.old }
    ensures idle { IsIdle ⟦<Core<H, M, Q, W, V> as Means>⟧.m core.new }
    ensures within { StaysWithin ⟦<Core<H, M, Q, W, V> as Means>⟧.m most_ms core.old core.new }
    ensures waits_once { IfOk result (λ polled. From ⟦<Core<H, M, Q, W, V> as Means>⟧.m core.old
        (λ t F h. FitsLimit t most_ms
        → Polls ⟦<Core<H, M, Q, W, V> as Means>⟧.m t F h most_ms polled core.old core.new)) }
    ensures leads { LeadsWithin ⟦<Core<H, M, Q, W, V> as Means>⟧.m most_ms
        (λ t before first h. PolledSo result (over_of core.new) before h) core.old core.new }
    ensures over { result ≡ Ok Polled.Over
        → WaitedOver ⟦<Core<H, M, Q, W, V> as Means>⟧.m core.new }
    ensures stopped { result ≡ Err PollRefused.Stopped → HasEnded ⟦<Core<H, M, Q, W, V> as Means>⟧.m
        core.new }
    ensures failed { result ≡ Err PollRefused.NetFailed
        → Rose (M.facts (net_of core.old)).failed_waits (M.facts (net_of core.new)).failed_waits }
    ensures waits { HasNotFallen (M.facts (net_of core.old)).failed_waits
        (M.facts (net_of core.new)).failed_waits }
    ensures volumes { volumes_of core.new ≡ volumes_of core.old }
{
    core.poll(most_ms)
}

/// Posts a notification (`Core::post`). Its answers are those of that call.
pub fn post<
    H: EventHandler,
    M: Net<End = H::End>,
    Q: TimerQueue,
    W: Watch<H::Note>,
    V: Volumes<H::Note>,
>(
    core: &mut Core<H, M, Q, W, V>,
    handle: Handle,
    kind: Kind,
    from: u64,
    seq: u64,
) -> Result<(), PostRefused>
    requires { IsIdle ⟦<Core<H, M, Q, W, V> as Means>⟧.m core.old }
    ensures idle { IsIdle ⟦<Core<H, M, Q, W, V> as Means>⟧.m core.new }
    ensures leads { Leads ⟦<Core<H, M, Q, W, V> as Means>⟧.m
        (λ t before first h. PostedSo handle kind from seq result before h) core.old core.new }
{
    core.post(handle, kind, from, seq)
}

/// Hands a volume of the journal over if one is due.
fn hand_over<
    H: EventHandler,
    M: Net<End = H::End>,
    Q: TimerQueue,
    W: Watch<H::Note>,
    V: Volumes<H::Note>,
>(core: &mut Core<H, M, Q, W, V>) -> Result<(), RunEnd>
    requires { IsIdle ⟦<Core<H, M, Q, W, V> as Means>⟧.m core.old }
    ensures stays { StaysIdle ⟦<Core<H, M, Q, W, V> as Means>⟧.m core.old core.new }
    ensures leads { Leads ⟦<Core<H, M, Q, W, V> as Means>⟧.m (λ t before first h. h ≡ before)
        core.old core.new }
    ensures net { net_of core.new ≡ net_of core.old }
    ensures ok { OnOk result ((V.facts (volumes_of core.new)).faults
        ≡ (V.facts (volumes_of core.old)).faults) }
    ensures err { IfErr result (λ end. FailsVolume (V.facts (volumes_of core.old)).faults end
        (V.facts (volumes_of core.new)).faults) }
{
    match core.hand_over() {
        Ok(_) => Ok(()),
        Err(HandOverRefused::Failed) => Err(RunEnd::VolumeFault),
        Err(HandOverRefused::NoMemory) => Err(RunEnd::NoMemory),
    }
}

/// Whether as many handlers were closed or refused as are asked for.
fn is_enough(until: Option<u64>, closed: u64) -> bool
    ensures { result ≡ is_enough until closed }
{
    match until {
        Some(enough) => enough <= closed,
        None => false,
    }
}

/// Makes a turn, or waits if there is none to make. Tells why the loop ends, if it does.
fn step<
    H: EventHandler,
    M: Net<End = H::End>,
    Q: TimerQueue,
    W: Watch<H::Note>,
    V: Volumes<H::Note>,
>(core: &mut Core<H, M, Q, W, V>, most_ms: Option<u64>, until: Option<u64>) -> Option<RunEnd>
    requires { IsIdle ⟦<Core<H, M, Q, W, V> as Means>⟧.m core.old }
    ensures idle { IsIdle ⟦<Core<H, M, Q, W, V> as Means>⟧.m core.new }
    ensures within { StaysWithin ⟦<Core<H, M, Q, W, V> as Means>⟧.m most_ms core.old core.new }
    ensures leads { LeadsWithin ⟦<Core<H, M, Q, W, V> as Means>⟧.m most_ms
        (RunsSo H.means until result (over_of core.new)) core.old core.new }
    ensures ends { IfSome result (λ end. StepEndsSo ⟦<Core<H, M, Q, W, V> as Means>⟧.m until
        (M.facts (net_of core.old)).failed_waits end core.new) }
    ensures waits { HasNotFallen (M.facts (net_of core.old)).failed_waits
        (M.facts (net_of core.new)).failed_waits }
    ensures volumes { volumes_of core.new ≡ volumes_of core.old }
{
    match turn(core) {
        Ok(Some(closed)) if is_enough(until, closed) => Some(RunEnd::Enough),
        Ok(Some(_)) => None,
        Ok(None) => match poll(core, most_ms) {
            Ok(Polled::Over) if !core.has_next() => Some(RunEnd::Over),
            Ok(_) => None,
            Err(PollRefused::Stopped) => Some(RunEnd::Stopped),
            Err(PollRefused::NetFailed) => Some(RunEnd::NetFault),
            Err(PollRefused::NoMemory) => Some(RunEnd::NoMemory),
        },
        Err(StartRefused::NoMemory) => Some(RunEnd::NoMemory),
    }
}

/// Looks whether the watch failed, hands a volume over if one is due, and makes one step. Tells
/// why the loop ends, if it does.
fn advance<
    H: EventHandler,
    M: Net<End = H::End>,
    Q: TimerQueue,
    W: Watch<H::Note>,
    V: Volumes<H::Note>,
>(core: &mut Core<H, M, Q, W, V>, most_ms: Option<u64>, until: Option<u64>) -> Option<RunEnd>
    requires { IsIdle ⟦<Core<H, M, Q, W, V> as Means>⟧.m core.old }
    ensures idle { IsIdle ⟦<Core<H, M, Q, W, V> as Means>⟧.m core.new }
    ensures within { StaysWithin ⟦<Core<H, M, Q, W, V> as Means>⟧.m most_ms core.old core.new }
    ensures leads { LeadsWithin ⟦<Core<H, M, Q, W, V> as Means>⟧.m most_ms
        (RunsSo H.means until result (over_of core.new)) core.old core.new }
    ensures ends { IfSome result (λ end. EndsSo ⟦<Core<H, M, Q, W, V> as Means>⟧.m until
        (M.facts (net_of core.old)).failed_waits (V.facts (volumes_of core.old)).faults end
        core.new) }
    ensures waits { HasNotFallen (M.facts (net_of core.old)).failed_waits
        (M.facts (net_of core.new)).failed_waits }
    ensures volumes { IfNone result ((V.facts (volumes_of core.new)).faults
        ≡ (V.facts (volumes_of core.old)).faults) }
{
    if core.is_broken() {
        return Some(RunEnd::Broken);
    }
    match hand_over(core) {
        Ok(()) => step(core, most_ms, until),
        Err(end) => Some(end),
    }
}

/// Makes turns, and waits, at most `most_ms` milliseconds, if there is none to make, until
/// `until` handlers were closed or refused, nothing can be reported any more, the reactor is
/// stopped, or something fails. The history goes on by those turns and waits alone, and a run that
/// ends at `Enough` ends with the turn that brought it there, whose entries are held.
pub fn run<
    R: Wait,
    H: EventHandler,
    M: Net<End = H::End>,
    Q: TimerQueue,
    W: Watch<H::Note>,
    V: Volumes<H::Note>,
>(rt: &R, core: &mut Core<H, M, Q, W, V>, most_ms: Option<u64>, until: Option<u64>) -> RunEnd
    requires { IsIdle ⟦<Core<H, M, Q, W, V> as Means>⟧.m core.old }
    ensures idle { IsIdle ⟦<Core<H, M, Q, W, V> as Means>⟧.m core.new }
    ensures within { StaysWithin ⟦<Core<H, M, Q, W, V> as Means>⟧.m most_ms core.old core.new }
    ensures leads { LeadsWithin ⟦<Core<H, M, Q, W, V> as Means>⟧.m most_ms
        (RunsSo H.means until (Some result) (over_of core.new)) core.old core.new }
    ensures ends { EndsSo ⟦<Core<H, M, Q, W, V> as Means>⟧.m until
        (M.facts (net_of core.old)).failed_waits (V.facts (volumes_of core.old)).faults result
        core.new }
{
    for _ in rt.forever() {
        if let Some(end) = advance(core, most_ms, until) {
            return end;
        }
    }
    unreachable!()
}

/// Stops the reactor.
fn stop<
    H: EventHandler,
    M: Net<End = H::End>,
    Q: TimerQueue,
    W: Watch<H::Note>,
    V: Volumes<H::Note>,
>(core: &mut Core<H, M, Q, W, V>)
    requires { IsIdle ⟦<Core<H, M, Q, W, V> as Means>⟧.m core.old }
    ensures stopped { WasStopped ⟦<Core<H, M, Q, W, V> as Means>⟧.m core.new }
    ensures stops { From ⟦<Core<H, M, Q, W, V> as Means>⟧.m core.old (λ t F h.
        StopsOnce ⟦<Core<H, M, Q, W, V> as Means>⟧.m t F h core.new (summary (past_of h)).ended) }
    ensures waits { (M.facts (net_of core.new)).failed_waits
        ≡ (M.facts (net_of core.old)).failed_waits }
    ensures attaches { (M.facts (net_of core.new)).failed_attaches
        ≡ (M.facts (net_of core.old)).failed_attaches }
{
    core.stop();
}

/// Takes a reactor apart, stopped first if it was not.
pub fn close<
    H: EventHandler,
    M: Net<End = H::End>,
    Q: TimerQueue,
    W: Watch<H::Note>,
    V: Volumes<H::Note>,
>(core: Core<H, M, Q, W, V>) -> Parts<H::Note, M, Q, W, V>
    requires { IsIdle ⟦<Core<H, M, Q, W, V> as Means>⟧.m core }
    ensures leaves { LeavesParts ⟦<Core<H, M, Q, W, V> as Means>⟧.m Q.timers result }
    ensures from { (t : Terms) (F : ℕ) (h : List (Entry H.Note))
        → Stands ⟦<Core<H, M, Q, W, V> as Means>⟧.m t core F h → NoneOpen h
        → LeavesFrom ⟦<Core<H, M, Q, W, V> as Means>⟧.m Q.timers t F h result }
    ensures waits { (M.facts result.net).failed_waits ≡ (M.facts (net_of core)).failed_waits }
    ensures attaches { (M.facts result.net).failed_attaches
        ≡ (M.facts (net_of core)).failed_attaches }
{
    let mut core = core;
    stop(&mut core);
    core.into_parts()
}

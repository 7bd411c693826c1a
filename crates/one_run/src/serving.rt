//! The run of the one connection on a reactor.
ghost use Rattle.std.specs.Prelude.{◌≡◌, ◌⊎◌, ◌≤◌, ℕ, List, [], ◌∷◌, Option, OnOk, OnErr, IfOk};
ghost use Rattle.std.specs.Prelude.{Some, None, true, false, Bool};
ghost use Rattle.ev_base.specs.Terms.{Terms};
ghost use Rattle.reactor_model.specs.reactor_journal.specs.declared.entry.Entry.{Entry};
ghost use Rattle.reactor_core.specs.Stands.{Stands, IsStanding};
ghost use Rattle.reactor_core.specs.Views.{net_of, watch_of, volumes_of};
ghost use Rattle.log_handler.specs.declared.note.ServerNote.{ServerNote};
ghost use Rattle.log_handler.specs.LineSink.{is_broken, whole_of};
ghost use Rattle.one_run.specs.Phases.{IsOpened, IsRead, IsShut, CanEnd, GrowsFrom};
ghost use Rattle.one_run.specs.Running.{one_meaning, AreOfOne, CanRun, LeavesParts, ClosedItself};
ghost use Rattle.one_run.specs.Running.{Leads, LeadsBy, KeepsHistory, ReadsOneMore, TurnsOnce};
ghost use Rattle.one_run.specs.Running.{IsWholeUntilLast, VolumesTell, halted, last_entry};
ghost use Rattle.one_run.specs.Running.{closes_lost, IsShutAs, HasEnded};

use ev_base::{Answer, Sink, Source};
use log_handler::{EndKind, LineSink, LogConnection, ServerNote};
use one_net::{OneEnd, OneNet};
use reactor_core::{Core, HandOverRefused, Parts, PollRefused};
use reactor_model::{Entry, Journal, Volumes};
use timer_queue::SortedTimers;

/// The reactor of the command `one`: its one handler is the connection of the source.
pub type OneCore<S, K, V> = Core<LogConnection<OneEnd<S>>, OneNet<S>, SortedTimers, LineSink<K>, V>;

/// How many turns there are at most: a journal has at most 2^62 entries.
const MOST_TURNS: u64 = 1 << 62;

/// Why a run was halted.
#[derive(Clone, Copy, PartialEq, Eq, Debug)]
pub enum Halt {
    /// The volumes did not take one, and their count of faults rose.
    VolumesFailed,
    /// There was no memory.
    NoMemory,
    /// A write failed.
    Broken,
}

/// How a run ended.
#[derive(Clone, Copy, PartialEq, Eq, Debug)]
pub struct Ending {
    /// Why it was halted, or None if it went on until its connection had closed itself.
    pub halt: Option<Halt>,
    /// Whether the connection closed itself for want of memory.
    pub lost: bool,
}

/// Serves the connection until it closed itself and a wait was over, or the run is halted. A failed
/// write halts it: nothing is read after it.
pub fn run<S: Source, K: Sink, V: Volumes<ServerNote>>(core: &mut OneCore<S, K, V>) -> Ending
    requires { CanRun (one_meaning S.facts K.facts V.facts) IsOpened core.old }
    ensures leads { Leads (one_meaning S.facts K.facts V.facts) IsOpened
        (λ h. HasEnded result.halt result.lost h
        × IsWholeUntilLast (whole_of (watch_of core.new)) h) core.old core.new }
    ensures volumes { VolumesTell V.facts result.halt core.old core.new }
    ensures broken { result.halt ≡ Some Halt.Broken → is_broken (watch_of core.new) ≡ true }
    ensures whole { result.halt ≡ None → is_broken (watch_of core.new) ≡ false }
{
    match wait(core) {
        Ok(()) => {}
        Err(halt) => return Ending {
            halt: Some(halt),
            lost: false,
        },
    }
    let lost = match serve(core) {
        Ok(lost) => lost,
        Err(halt) => return Ending {
            halt: Some(halt),
            lost: false,
        },
    };
    match wait(core) {
        Ok(()) => Ending { halt: None, lost },
        Err(halt) => Ending {
            halt: Some(halt),
            lost,
        },
    }
}

/// Stops the reactor of a run that ended, and takes it apart.
pub fn finish<S: Source, K: Sink, V: Volumes<ServerNote>>(
    core: OneCore<S, K, V>,
) -> Parts<ServerNote, OneNet<S>, SortedTimers, LineSink<K>, V>
    requires { CanRun (one_meaning S.facts K.facts V.facts) CanEnd core }
    ensures ends { (t : Terms) (F : ℕ) (h : List (Entry ServerNote))
        → Stands (one_meaning S.facts K.facts V.facts) t core F h → AreOfOne t → CanEnd h
        → LeavesParts (one_meaning S.facts K.facts V.facts) t core
        (λ journal over. GrowsFrom 0 h journal) result }
    ensures closed { (t : Terms) (F : ℕ) (h : List (Entry ServerNote)) (now : ℕ) (lost : Bool)
        → Stands (one_meaning S.facts K.facts V.facts) t core F h → AreOfOne t
        → IsShutAs (now ∷ []) lost h → LeavesParts (one_meaning S.facts K.facts V.facts) t core
        (λ journal over. ClosedItself lost journal over × GrowsFrom 0 h journal) result }
    ensures volumes { result.volumes ≡ volumes_of core }
    ensures broken { is_broken (watch_of core) ≡ true → is_broken result.watch ≡ true }
    ensures later { whole_of (watch_of core) ≤ whole_of result.watch }
{
    let mut core = core;
    core.stop();
    core.into_parts()
}

/// Hands a volume over if one is due.
fn hand_over<S: Source, K: Sink, V: Volumes<ServerNote>>(
    core: &mut OneCore<S, K, V>,
) -> Result<(), Halt>
    requires { IsStanding (one_meaning S.facts K.facts V.facts) core.old }
    ensures stands { KeepsHistory (one_meaning S.facts K.facts V.facts) core.old core.new }
    ensures volumes { VolumesTell V.facts (halted result) core.old core.new }
    ensures net { net_of core.new ≡ net_of core.old }
    ensures watch { watch_of core.new ≡ watch_of core.old }
    ensures whole { result ≡ Err Halt.Broken → ⊥ }
{
    match core.hand_over() {
        Ok(_) => Ok(()),
        Err(HandOverRefused::Failed) => Err(Halt::VolumesFailed),
        Err(HandOverRefused::NoMemory) => Err(Halt::NoMemory),
    }
}

/// Waits once: before the first turn, for the report of the connection, and once it closed itself.
/// Then it looks whether a write failed.
fn wait<S: Source, K: Sink, V: Volumes<ServerNote>>(core: &mut OneCore<S, K, V>) -> Result<(), Halt>
    requires { CanRun (one_meaning S.facts K.facts V.facts) (λ h. IsOpened h ⊎ IsShut [] h)
        core.old }
    ensures first { OnOk result (Leads (one_meaning S.facts K.facts V.facts) IsOpened IsRead
        core.old core.new) }
    ensures last { OnOk result (LeadsBy (one_meaning S.facts K.facts V.facts) (IsShut [])
        (λ before h. (lost : Bool) → IsShutAs [] lost before → HasEnded None lost h) core.old
        core.new) }
    ensures err { OnErr result (LeadsBy (one_meaning S.facts K.facts V.facts)
        (λ h. IsOpened h ⊎ IsShut [] h) (λ before h. CanEnd h × GrowsFrom 0 before h) core.old
        core.new) }
    ensures later { whole_of (watch_of core.old) ≤ whole_of (watch_of core.new) }
    ensures volumes { VolumesTell V.facts (halted result) core.old core.new }
    ensures broken { result ≡ Err Halt.Broken → is_broken (watch_of core.new) ≡ true }
    ensures whole { OnOk result (is_broken (watch_of core.new) ≡ false) }
{
    match hand_over(core) {
        Ok(()) => {}
        Err(halt) => return Err(halt),
    }
    match core.poll(None) {
        Ok(_) => {}
        Err(PollRefused::NoMemory) => return Err(Halt::NoMemory),
        Err(_) => unreachable!("the reactor was not stopped, and its net does not fail"),
    }
    match core.is_broken() {
        true => Err(Halt::Broken),
        false => Ok(()),
    }
}

/// Serves the connection, turn by turn, until it closes itself, and tells whether that was for want
/// of memory. Each turn begins with an output of which no write failed.
fn serve<S: Source, K: Sink, V: Volumes<ServerNote>>(
    core: &mut OneCore<S, K, V>,
) -> Result<bool, Halt>
    requires served { CanRun (one_meaning S.facts K.facts V.facts) IsRead core.old }
    requires whole { is_broken (watch_of core.old) ≡ false }
    ensures ok { IfOk result (λ lost. Leads (one_meaning S.facts K.facts V.facts) IsRead
        (IsShutAs [] lost) core.old core.new) }
    ensures err { OnErr result (Leads (one_meaning S.facts K.facts V.facts) IsRead
        (λ h. (IsRead h ⊎ IsShut [] h) × IsWholeUntilLast (whole_of (watch_of core.new)) h) core.old
        core.new) }
    ensures volumes { VolumesTell V.facts (halted result) core.old core.new }
    ensures broken { result ≡ Err Halt.Broken → is_broken (watch_of core.new) ≡ true }
    ensures whole { OnOk result (is_broken (watch_of core.new) ≡ false) }
{
    for _turn in 0..MOST_TURNS {
        match turn(core) {
            Ok(None) => {}
            Ok(Some(lost)) => return Ok(lost),
            Err(why) => return Err(why),
        }
    }
    unreachable!("a journal has at most 2^62 entries")
}

/// Serves one upcall, if no write failed yet. If the connection closed itself, tells whether
/// that was for want of memory.
fn turn<S: Source, K: Sink, V: Volumes<ServerNote>>(
    core: &mut OneCore<S, K, V>,
) -> Result<Option<bool>, Halt>
    requires served { CanRun (one_meaning S.facts K.facts V.facts) IsRead core.old }
    requires whole { is_broken (watch_of core.old) ≡ false }
    ensures goes { result ≡ Ok None → LeadsBy (one_meaning S.facts K.facts V.facts) IsRead
        ReadsOneMore core.old core.new }
    ensures closes { (lost : Bool) → result ≡ Ok (Some lost)
        → Leads (one_meaning S.facts K.facts V.facts) IsRead (IsShutAs [] lost) core.old core.new }
    ensures err { OnErr result (LeadsBy (one_meaning S.facts K.facts V.facts) IsRead TurnsOnce
        core.old core.new) }
    ensures later { whole_of (watch_of core.old) ≤ whole_of (watch_of core.new) }
    ensures volumes { VolumesTell V.facts (halted result) core.old core.new }
    ensures broken { result ≡ Err Halt.Broken → is_broken (watch_of core.new) ≡ true }
    ensures whole { OnOk result (is_broken (watch_of core.new) ≡ false) }
{
    match hand_over(core) {
        Ok(()) => {}
        Err(halt) => return Err(halt),
    }
    let job = match core.start() {
        Ok(Some(job)) => job,
        Ok(None) => unreachable!("its event waits"),
        Err(_) => return Err(Halt::NoMemory),
    };
    let done = job.run();
    let answer = done.answer();
    core.settle(done);
    if core.is_broken() {
        return Err(Halt::Broken);
    }
    match answer {
        Answer::Close => Ok(Some(closes_lost(core.journal()))),
        _ => Ok(None),
    }
}

/// Whether the last entry is the closing of a connection for want of memory.
fn closes_lost(journal: &Journal<ServerNote>) -> bool
    ensures { result ≡ closes_lost (last_entry journal.now.entries) }
{
    match journal.as_slice().last() {
        Some(Entry::Closed { note, .. }) => match note {
            ServerNote::Finished { end, .. } => matches!(end, EndKind::NoMemory),
            _ => false,
        },
        _ => false,
    }
}

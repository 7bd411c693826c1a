//! A short run that makes every call of a reactor, and makes each that is refused once more:
//! whichever allocation finds no memory, the journal is the same.
ghost use Rattle.std.specs.Prelude.{◌≡◌, ◌≤◌, IfOk, length, true};
ghost use Rattle.demux.specs.PlayNet.{do_not_fall, are_bounded};
ghost use Rattle.core_loop.specs.Idle.{IsIdle, IsOut};
ghost use Rattle.test_nets.specs.Idle.{AreOutOrOne};
ghost use Rattle.test_nets.specs.Play.{play_rows};

use crate::one_thread::runs::Refused;
use demux::PlayNet;
use ev_base::{Answer, Handle, Kind, Mask, Report};
use reactor_core::{Core, Done};
use reactor_model::{Journal, MemVolumes, NoWatch};
use std::alloc::Global;
use test_nets::{
    Left, Rows, Steady, cancel, close, hand_over, poll, post, post_in_room, register,
    register_timed, remove, resume, schedule, set_mask, settle, settle_one, start, start_meanwhile,
    suspend, turn,
};
use timer_queue::SortedTimers;

/// A reactor over a net that plays what was laid down, whose volumes stay in memory.
pub type CallRows = Rows<PlayNet, MemVolumes<u64>>;

/// How many handlers may be live.
const MOST: u64 = 5;

/// How many entries a volume has at least: a volume is due as soon as there is an entry.
const VOLUME: u64 = 1;

/// One call of the reactor, or two upcalls that are on their way at once.
#[derive(Clone, Copy)]
enum Call {
    RegisterAgain,
    RegisterOffering,
    RegisterTimed,
    Poll,
    Turn,
    TwoTurns,
    HandOver,
    Suspend(Handle),
    Resume(Handle),
    SetMask(Handle, Mask),
    Post { handle: Handle, seq: u64 },
    PostInRoom { handle: Handle, seq: u64 },
    Schedule(Handle),
    Cancel { timer: u64 },
    Remove(Handle),
}

/// The calls of the run, in order. A volume is handed over before each, so that the journal has no
/// more room than what is owed, and each call that appends an entry has to ask for memory.
const CALLS: [Call; 20] = [
    Call::RegisterAgain,
    Call::RegisterOffering,
    Call::RegisterTimed,
    Call::Poll,
    Call::Turn,
    Call::Turn,
    Call::TwoTurns,
    Call::Suspend(Handle(1)),
    Call::Post {
        handle: Handle(1),
        seq: 0,
    },
    Call::PostInRoom {
        handle: Handle(2),
        seq: 1,
    },
    Call::Turn,
    Call::Resume(Handle(1)),
    Call::SetMask(Handle(0), Mask::NONE),
    Call::Schedule(Handle(1)),
    Call::Cancel { timer: 2 },
    Call::Poll,
    Call::Turn,
    Call::Turn,
    Call::Remove(Handle(1)),
    Call::Turn,
];

/// A reactor over a net whose waits answer at moments 2 and 10, and which reports handles 0, 1 and
/// 2 at the first.
fn made(alloc: Global) -> Result<CallRows, Refused>
    ensures { IfOk result (λ core. IsIdle play_rows core) }
{
    let report = |handle: u64| Report {
        handle: Handle(handle),
        kind: Kind::Read,
    };
    let Ok(moments) = [2, 10].to_vec(alloc) else {
        return Err(Refused);
    };
    let Ok(reports) = [(0, report(0)), (0, report(1)), (0, report(2))].to_vec(alloc) else {
        return Err(Refused);
    };
    reactor(alloc, moments, reports)
}

/// A reactor over a net that plays these moments and reports.
fn reactor(
    alloc: Global,
    moments: Vec<u64>,
    reports: Vec<(usize, Report)>,
) -> Result<CallRows, Refused>
    requires rising { do_not_fall 0 moments.items ≡ true }
    requires bounded { are_bounded moments.items ≡ true }
    requires few { length reports.items ≤ 256 }
    ensures { IfOk result (λ core. IsIdle play_rows core) }
{
    let made = Core::new(
        alloc,
        MOST,
        VOLUME,
        PlayNet::new(alloc, moments, reports),
        SortedTimers::new(alloc),
        NoWatch,
        MemVolumes::new(alloc, Vec::new(alloc)),
    );
    match made {
        Ok(core) => Ok(core),
        Err(_) => Err(Refused),
    }
}

/// Starts the second upcall while the first is on its way. If that is refused it is asked for
/// once more.
fn second_or_again(core: &mut CallRows, first: &Done<Steady>) -> Option<Done<Steady>>
    requires { IsOut play_rows core.old first.now }
    ensures { AreOutOrOne play_rows core.new first.entry.now result }
{
    match start_meanwhile(core, first) {
        Ok(second) => second,
        Err(_) => match start_meanwhile(core, first) {
            Ok(second) => second,
            Err(_) => None,
        },
    }
}

/// Starts two upcalls, and settles the first and then the second.
fn is_turned_twice(core: &mut CallRows) -> bool
    requires { IsIdle play_rows core.old }
    ensures { IsIdle play_rows core.new }
{
    let first = match start(core) {
        Ok(Some(first)) => first,
        Ok(None) | Err(_) => return false,
    };
    match second_or_again(core, &first) {
        Some(second) => {
            settle_one(core, first, &second);
            settle(core, second);
            true
        }
        None => {
            settle(core, first);
            false
        }
    }
}

/// Makes a call, and tells whether it was not refused.
fn is_made(core: &mut CallRows, call: Call) -> bool
    requires { IsIdle play_rows core.old }
    ensures { IsIdle play_rows core.new }
{
    match call {
        Call::RegisterAgain => register(core, Steady::answering(Answer::Again), Mask::READ).is_ok(),
        Call::RegisterOffering => register(core, Steady::offering(), Mask::READ).is_ok(),
        Call::RegisterTimed => {
            register_timed(core, Steady::offering_timed(), Mask::READ, (2, 3)).is_ok()
        }
        Call::Poll => poll(core).is_ok(),
        Call::Turn => turn(core).is_ok(),
        Call::TwoTurns => is_turned_twice(core),
        Call::HandOver => hand_over(core).is_ok(),
        Call::Suspend(handle) => suspend(core, handle).is_ok(),
        Call::Resume(handle) => resume(core, handle).is_ok(),
        Call::SetMask(handle, mask) => set_mask(core, handle, mask).is_ok(),
        Call::Post { handle, seq } => post(core, handle, Kind::Read, 0, seq).is_ok(),
        Call::PostInRoom { handle, seq } => {
            post_in_room(core, handle, Kind::Write, 0, seq).is_ok()
        }
        Call::Schedule(handle) => schedule(core, handle, 3, 0).is_ok(),
        Call::Cancel { timer } => cancel(core, timer).is_ok(),
        Call::Remove(handle) => remove(core, handle).is_ok(),
    }
}

/// Makes a call, and once more if it is refused.
fn make(core: &mut CallRows, call: Call) -> Result<(), Refused>
    requires { IsIdle play_rows core.old }
    ensures { IsIdle play_rows core.new }
{
    if is_made(core, call) {
        return Ok(());
    }
    if is_made(core, call) {
        Ok(())
    } else {
        Err(Refused)
    }
}

/// Makes the calls of the run, and hands a volume over before each.
fn make_all(core: &mut CallRows) -> Result<(), Refused>
    requires { IsIdle play_rows core.old }
    ensures { IsIdle play_rows core.new }
{
    for call in CALLS {
        make(core, Call::HandOver)?;
        make(core, call)?;
    }
    Ok(())
}

/// What a run leaves: the entries that were handed over, those that were held in the end, and
/// whether each call was made.
#[derive(Drop)]
pub struct Calls {
    /// What was handed over.
    pub volumes: MemVolumes<u64>,
    /// What was held.
    pub journal: Journal<u64>,
    /// Whether each call was made, the first or the second time.
    pub made: Result<(), Refused>,
}

/// Makes the calls of the run on a new reactor, stops it and takes it apart.
pub fn run_calls(alloc: Global) -> Result<Calls, Refused> {
    let mut core = match made(alloc) {
        Ok(core) => core,
        Err(Refused) => made(alloc)?,
    };
    let made = make_all(&mut core);
    let Left {
        journal,
        first: _,
        net: _,
        timers: _,
        watch: _,
        volumes,
    } = close(core);
    Ok(Calls {
        volumes,
        journal,
        made,
    })
}

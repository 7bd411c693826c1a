//! The net and the end that play what was laid down: runs with ample memory, and that a net may
//! move to another thread.
ghost use Rattle.std.specs.Prelude.{◌≡◌, ◌≤◌, ◌∷◌, [], length, IfOk, true};
ghost use Rattle.demux.specs.PlayNet.{play_net_facts, do_not_fall, are_bounded};

use demux::{PlayEnd, PlayNet};
use ev_base::{Got, Handle, Kind, Mask, Net, PeerEnd, Report, Sent, Taken, Waited};
use std::alloc::Global;
use std::test::Fail;

fn report(handle: u64, kind: Kind) -> Report {
    Report {
        handle: Handle(handle),
        kind,
    }
}

fn moves<T: Send>(_value: &T) {}

/// Whether waits with these limits come to this.
fn come_to(net: &mut PlayNet, waits: &[(Option<u64>, Waited)]) -> bool {
    let mut are_well = true;
    for (limit, want) in waits {
        are_well &= net.wait(*limit) == *want;
    }
    are_well
}

/// Whether the waits of a net that plays these moments come to this.
fn plays(alloc: Global, moments: Vec<u64>, waits: &[(Option<u64>, Waited)]) -> bool
    requires rising { do_not_fall 0 moments.items ≡ true }
    requires bounded { are_bounded moments.items ≡ true }
{
    let mut net = PlayNet::new(alloc, moments, Vec::new(alloc));
    moves(&net);
    come_to(&mut net, waits)
}

static MOMENTS: &[(Option<u64>, Waited)] = &[
    (Some(1), Waited::Quiet { now: 35 }),
    (None, Waited::Quiet { now: 39 }),
    (Some(0), Waited::Quiet { now: 40 }),
    (None, Waited::Over { now: 40 }),
    (None, Waited::Over { now: 40 }),
];

const NONE: &[(Option<u64>, Waited)] = &[(None, Waited::Over { now: 0 })];

#[test]
fn moments_come_whatever_the_limit(rt: HostRuntime) -> Result<(), Fail> {
    let moments = [35, 39, 40].to_vec(rt.alloc())?;
    assert!(rt; plays(rt.alloc(), moments, MOMENTS));
    assert!(rt; plays(rt.alloc(), Vec::new(rt.alloc()), NONE));
    Ok(())
}

/// The reports that are laid down, each with the number of its wait.
fn planned(alloc: Global) -> Result<Vec<(usize, Report)>, Fail>
    ensures { IfOk result (λ planned. length planned.items ≤ 256) }
{
    let planned = [
        (0, report(0, Kind::Read)),
        (0, report(1, Kind::Write)),
        (0, report(1, Kind::Read)),
        (1, report(0, Kind::Read)),
        (1, report(0, Kind::Read)),
        (2, report(1, Kind::Except)),
    ];
    Ok(planned.to_vec(alloc)?)
}

/// Watches two ends for reading.
fn watch_two(net: &mut PlayNet) -> Result<(), Fail>
    requires { (play_net_facts net.old).attached ≡ [] }
    ensures { IfOk result (λ _. ((play_net_facts net.new).attached ≡ 1 ∷ 0 ∷ [])
        × (1 ≤ (play_net_facts net.new).spare)) }
{
    net.reserve(3)?;
    net.attach(&mut PlayEnd::new(), Handle(0), Mask::READ)?;
    net.attach(&mut PlayEnd::new(), Handle(1), Mask::READ)?;
    Ok(())
}

/// A net that watches two ends for reading.
fn watching_two(alloc: Global) -> Result<PlayNet, Fail>
    ensures { IfOk result (λ net. ((play_net_facts net).attached ≡ 1 ∷ 0 ∷ [])
        × (1 ≤ (play_net_facts net).spare)) }
{
    let moments = [1, 2, 3, 4].to_vec(alloc)?;
    let mut net = PlayNet::new(alloc, moments, planned(alloc)?);
    watch_two(&mut net)?;
    Ok(net)
}

/// What a wait comes to, with its reports: the handle and the kind of each.
type Wait = (Waited, &'static [(u64, Kind)]);

/// Whether a wait comes to this.
fn comes_to<N: Net>(net: &mut N, want: &Wait) -> bool
    ensures attached { (N.facts net.new).attached ≡ (N.facts net.old).attached }
    ensures spare { (N.facts net.old).spare ≤ (N.facts net.new).spare }
{
    let (want, reports) = want;
    let answer = net.wait(None);
    let mut is_well = answer == *want;
    if let Waited::Reports { now: _, count } = answer {
        is_well &= count == reports.len();
        for (at, (handle, kind)) in reports.iter().enumerate() {
            is_well &= at < count && net.report(at) == report(*handle, *kind);
        }
    }
    is_well
}

const FIRST: Wait = (
    Waited::Reports { now: 1, count: 2 },
    &[(0, Kind::Read), (1, Kind::Read)],
);

/// The waits after it, once the second end is watched for writing alone.
static LATER: &[Wait] = &[
    (
        Waited::Reports { now: 2, count: 3 },
        &[(1, Kind::Write), (0, Kind::Read), (0, Kind::Read)],
    ),
    (Waited::Quiet { now: 3 }, &[]),
    (Waited::Quiet { now: 4 }, &[]),
    (Waited::Over { now: 4 }, &[]),
];

/// Whether a net that watches two ends holds the second one's reports back.
fn holds_back(net: &mut PlayNet) -> bool
    requires { (play_net_facts net.old).attached ≡ 1 ∷ 0 ∷ [] }
{
    let mut are_well = comes_to(net, &FIRST);
    net.set_mask(Handle(1), Mask::WRITE);
    for want in LATER {
        are_well &= comes_to(net, want);
    }
    are_well
}

#[test]
fn reports_are_held_back_until_they_are_wanted(rt: HostRuntime) -> Result<(), Fail> {
    let mut net = watching_two(rt.alloc())?;
    let are_well = holds_back(&mut net);
    assert!(rt; are_well);
    Ok(())
}

const BEHIND: Wait = (Waited::Reports { now: 1, count: 1 }, &[(0, Kind::Read)]);

/// Whether a net that watches two ends gives the second one back, and no report of it any more.
fn gives_back(net: &mut PlayNet) -> bool
    requires attached { (play_net_facts net.old).attached ≡ 1 ∷ 0 ∷ [] }
    requires spare { 1 ≤ (play_net_facts net.old).spare }
{
    net.turn_away(PlayEnd::new());
    net.retire(Handle(1), PlayEnd::new());
    let is_back = net.retired(Handle(1)).is_some() && net.retired(Handle(0)).is_none();
    comes_to(net, &BEHIND) && is_back
}

#[test]
fn ends_come_back(rt: HostRuntime) -> Result<(), Fail> {
    let mut net = watching_two(rt.alloc())?;
    let is_well = gives_back(&mut net);
    assert!(rt; is_well);
    Ok(())
}

/// Whether an end that is no listener is never ready.
fn pauses<E: PeerEnd>(end: &mut E) -> bool {
    if end.is_listener() {
        return false;
    }
    let reads_none = end.read(&mut [0; 4]) == Got::Pause;
    let writes_none = end.write(b"hello") == Sent::Pause;
    reads_none && writes_none
}

#[test]
fn an_end_pauses(rt: HostRuntime) -> Result<(), Fail> {
    let mut end = PlayEnd::new();
    assert!(rt; pauses(&mut end));
    assert!(rt; matches!(end.accept(), Taken::Pause));
    Ok(())
}

//! The demultiplexer of ends whose connections are made in memory.
ghost use Rattle.std.specs.Prelude.{◌≡◌, ◌≤◌, ◌+◌, ◌^◌, ◌∷◌, ℕ, [], true, false, Some, OnOk, IsOk};
ghost use Rattle.std.specs.Prelude.{Contains, length, drop, option_map, vec_len, vec_capacity};
ghost use Rattle.dial_memory.specs.Moments.{do_not_fall, are_bounded};
ghost use Rattle.dial_memory.specs.Retired.{retired_of};

use super::MemDialEnd;
use crate::moments::come;
use crate::watched::{first_writer, set_mask_in};
use ev_base::{
    Calls, Handle, Kind, MOST_REPORTS, Made, Mask, Net, NetFailed, NoMemory, Report, Waited,
};
use std::alloc::Global;

/// A demultiplexer that reports, at each moment that was laid down, that one end may be written.
///
/// A wait gives the reports that were held back and are wanted now, at most 256, at the present
/// moment, which is 0 at first. If there is none, and no moment is left, it answers `Over`.
/// If the next moment comes later than the wait may last, the time passes and the answer is
/// `Quiet`. Else that moment comes: its report is given if an end is attached that wants to
/// write, held back while none is, and dropped once an end was taken back for good. Moments are
/// milliseconds. It never fails, and only `reserve` takes memory.
#[derive(Drop)]
pub struct MemDialNet {
    moments: Vec<u64>,
    // How many moments came, and the present one.
    next: usize,
    now: u64,
    // How many reports are held back.
    held: usize,
    // Whether an end was taken back for good.
    gone: bool,
    // How many reports the last wait gave, and for which handle.
    given: usize,
    to: u64,
    // These have the latest first.
    watched: Vec<(u64, Mask)>,
    retired: Vec<(u64, MemDialEnd)>,
    turned_away: Vec<MemDialEnd>,
    spare: usize,
    calls: Calls,
    ghost rising: { do_not_fall now (drop next moments.items) ≡ true },
    ghost bounded: { are_bounded moments.items ≡ true },
    ghost moment: { now ≤ 2 ^ 62 },
    ghost within: { next ≤ vec_len moments },
    ghost few_held: { held ≤ next },
    ghost few: { given ≤ 256 },
    ghost to_watch: { vec_len watched + spare ≤ vec_capacity watched },
    ghost to_retire: { vec_len retired + vec_len watched + spare ≤ vec_capacity retired },
    ghost to_turn_away: { vec_len turned_away + spare ≤ vec_capacity turned_away },
}

impl MemDialNet {
    ghost use Rattle.ev_base.specs.Net.{IsNew};
    ghost use Rattle.dial_memory.specs.DialNets.{mem_dial_net_facts, moments_left, came_so_far};
    ghost use Rattle.dial_memory.specs.DialNets.{held_back, is_gone, is_new_net, ends_retired};

    /// A net that made no call. The moments are milliseconds, do not fall and are at most 2^62. It
    /// takes no memory.
    pub fn new(alloc: Global, moments: Vec<u64>) -> MemDialNet
        requires rising { do_not_fall 0 moments.items ≡ true }
        requires bounded { are_bounded moments.items ≡ true }
        ensures new { IsNew (mem_dial_net_facts result) }
        ensures is_new { is_new_net result ≡ true }
        ensures moments { moments_left result ≡ moments.items }
        ensures held { held_back result ≡ 0 }
        ensures gone { is_gone result ≡ false }
    {
        MemDialNet {
            moments,
            next: 0,
            now: 0,
            held: 0,
            gone: false,
            given: 0,
            to: 0,
            watched: Vec::new(alloc),
            retired: Vec::new(alloc),
            turned_away: Vec::new(alloc),
            spare: 0,
            calls: Calls::none(),
        }
    }

    /// The end that was retired last under a handle, or `None` if there is none.
    pub fn retired(&self, handle: Handle) -> Option<&MemDialEnd>
        ensures { option_map (λ end. end.now) result
            ≡ retired_of handle.0 (ends_retired self.entry.now) }
    {
        retired_in(&self.retired, handle.0)
    }
}

// The end that was retired last under a handle.
fn retired_in(retired: &[(u64, MemDialEnd)], handle: u64) -> Option<&MemDialEnd>
    ensures { option_map (λ end. end.now) result ≡ retired_of handle retired.now }
{
    for entry in retired {
        if entry.0 == handle {
            return Some(&entry.1);
        }
    }
    None
}

impl Net for MemDialNet {
    ghost use Rattle.std.specs.Prelude.{refl};
    ghost use Rattle.ev_base.specs.Terms.{Terms, KeepsOn, KeepsOnWith};
    ghost use Rattle.ev_base.specs.Net.{NetWaits, Reserves, NetAttaches, SetsMaskOf, RetiresEnd};
    ghost use Rattle.ev_base.specs.Net.{TurnsAwayEnd};
    ghost use Rattle.ev_base.specs.Calls.{follows_none};
    ghost use Rattle.dial_memory.specs.DialEnds.{mem_dial_end_facts, mem_dial_end_keeps};
    ghost use Rattle.dial_memory.specs.Moments.{first_writer};
    ghost use Rattle.dial_memory.specs.DialNets.{came_now, reports_to};
    ghost use Rattle.dial_memory.specs.DialNets.{mem_dial_net_facts, mem_dial_net_keeps, masks_of};
    ghost use Rattle.dial_memory.specs.DialNets.{moments_of, came_so_far, held_back, is_gone};

    type End = MemDialEnd;

    ghost facts = { mem_dial_net_facts };

    ghost keeps = { mem_dial_net_keeps };

    fn wait(&mut self, most_ms: Option<u64>) -> Waited
        ensures waits { NetWaits (mem_dial_net_facts self.old) most_ms result
            (mem_dial_net_facts self.new) }
        ensures kept { KeepsOn mem_dial_net_keeps self.old self.new }
        ensures answers { result ≡ (came_now self.old most_ms).answer }
        ensures names { (mem_dial_net_facts self.new).reports
            ≡ reports_to (first_writer (masks_of self.old)) (came_now self.old most_ms).given }
        ensures held { held_back self.new ≡ (came_now self.old most_ms).held }
        ensures next { came_so_far self.new ≡ (came_now self.old most_ms).next }
        ensures gone { is_gone self.new ≡ is_gone self.old }
        ensures laid { moments_of self.new ≡ moments_of self.old }
    {
        let writer = first_writer(&self.watched);
        let came = come(
            &self.moments,
            self.next,
            self.now,
            self.held,
            self.gone,
            writer,
            most_ms,
        );
        self.next = came.next;
        self.now = came.now;
        self.held = came.held;
        self.given = came.given;
        self.to = writer.unwrap_or(0);
        let report = Report {
            handle: Handle(self.to),
            kind: Kind::Write,
        };
        let reports = [report; MOST_REPORTS];
        self.calls.add(Made::WaitForMany(most_ms, came.answer, &reports[..came.given]));
        came.answer
    }

    fn report(&self, at: usize) -> Report {
        Report {
            handle: Handle(self.to),
            kind: Kind::Write,
        }
    }

    fn reserve(&mut self, n: usize) -> Result<(), NoMemory>
        ensures same { Reserves (mem_dial_net_facts self.old) (mem_dial_net_facts self.new) }
        ensures places { OnOk result (n ≤ (mem_dial_net_facts self.new).spare) }
        ensures kept { KeepsOn mem_dial_net_keeps self.old self.new }
        ensures room { n ≤ (mem_dial_net_facts self.old).spare → IsOk result }
    {
        if n <= self.spare {
            return Ok(());
        }
        let Some(places) = n.checked_add(self.watched.len()) else {
            return Err(NoMemory);
        };
        self.watched.reserve(n)?;
        self.turned_away.reserve(n)?;
        self.retired.reserve(places)?;
        self.spare = n;
        Ok(())
    }

    fn attach(&mut self, end: &mut MemDialEnd, handle: Handle, mask: Mask) -> Result<(), NetFailed>
        requires place { 1 ≤ (mem_dial_net_facts self.old).spare }
        requires absent { Contains (mem_dial_net_facts self.old).attached handle.0 → ⊥ }
        ensures attaches { NetAttaches (mem_dial_net_facts self.old) handle.0 mask
            (mem_dial_end_facts end.old).serial result (mem_dial_net_facts self.new) }
        ensures end { mem_dial_end_facts end.new ≡ mem_dial_end_facts end.old }
        ensures kept { KeepsOnWith mem_dial_net_keeps mem_dial_end_keeps end.old self.old self.new }
        ensures end_kept { (t : Terms) → mem_dial_net_keeps t self.old
            → mem_dial_end_keeps t end.old → mem_dial_end_keeps t end.new }
        ensures never_fails { result ≡ Ok tt }
        ensures same_end { end.new ≡ end.old }
    {
        match self.watched.insert(0, (handle.0, mask)) {
            Ok(()) => {}
            Err(_) => unreachable!(),
        }
        self.spare -= 1;
        self.calls.add(Made::Attach(handle, mask, None));
        Ok(())
    }

    fn set_mask(&mut self, handle: Handle, mask: Mask) {
        set_mask_in(&mut self.watched, handle, mask);
        self.calls.add(Made::Mask(handle, mask));
    }

    fn retire(&mut self, handle: Handle, end: MemDialEnd)
        requires { Contains (mem_dial_net_facts self.old).attached handle.0 }
        ensures retires { RetiresEnd (mem_dial_net_facts self.old) handle.0 end
            (mem_dial_net_facts self.new) }
        ensures kept { KeepsOnWith mem_dial_net_keeps mem_dial_end_keeps end self.old self.new }
        ensures held { held_back self.new ≡ 0 }
        ensures gone { is_gone self.new ≡ true }
    {
        match self.retired.insert(0, (handle.0, end)) {
            Ok(()) => {}
            Err(_) => unreachable!(),
        }
        self.watched.retain(|entry| entry.0 != handle.0);
        self.held = 0;
        self.gone = true;
        self.calls.add(Made::Retire(handle));
    }

    fn turn_away(&mut self, end: MemDialEnd)
        requires { 1 ≤ (mem_dial_net_facts self.old).spare }
        ensures turns_away { TurnsAwayEnd (mem_dial_net_facts self.old)
            (mem_dial_end_facts end).serial end (mem_dial_net_facts self.new) }
        ensures kept { KeepsOnWith mem_dial_net_keeps mem_dial_end_keeps end self.old self.new }
        ensures held { held_back self.new ≡ 0 }
        ensures gone { is_gone self.new ≡ true }
    {
        match self.turned_away.insert(0, end) {
            Ok(()) => {}
            Err(_) => unreachable!(),
        }
        self.spare -= 1;
        self.held = 0;
        self.gone = true;
        self.calls.add(Made::TurnAway(None));
    }

    ghost sound = { λ net steady. (refl, refl) };

    ghost keeps_groups = { λ t net keeps. follows_none (mem_dial_net_facts net).calls t.groups
        keeps };
}

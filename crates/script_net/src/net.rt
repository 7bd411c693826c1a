//! A demultiplexer that plays a script.
ghost use Rattle.std.specs.Prelude.{◌≡◌, ◌≤◌, ◌<◌, ◌-◌, option_map};
ghost use Rattle.std.specs.Prelude.{reverse, Some, None, OnOk, IsOk, IfOk, Contains};
ghost use Rattle.ev_base.specs.Playing.{waited};
ghost use Rattle.script_net.specs.Scripts.{group_views};
ghost use Rattle.script_net.specs.Playable.{AreInOrder, AllWithin, many_steps};
ghost use Rattle.script_net.specs.NetContent.{script_net_facts, script_net_keeps, playing_of};
ghost use Rattle.script_net.specs.NetContent.{after_failed_wait, after_wait, retired_of};

use crate::end::ScriptEnd;
use crate::player::Player;
use crate::script::Group;
use crate::seats::Seats;
use ev_base::{Calls, Handle, MOST_REPORTS, Made, Mask, Net, NetFailed, NoMemory, Report, Waited};
use std::alloc::Global;
use std::marker::Model;

/// A demultiplexer that plays the groups of a script. It takes no memory but in `reserve`.
///
/// A wait reports the steps that are held back and can be reported now, at most 256, at the present
/// moment, which is 0 at first. If there is none, and no group is left, it answers `Over`. If
/// the next group comes later than the wait may last, the time passes and the answer is `Quiet`.
/// Else the moment of that group comes: its steps at ends that are attached with their kind in the
/// mask are reported in order, at most 256; the others are held back, and those of ends that were
/// retired or turned away are dropped; if nothing is reported the answer is `Quiet`. Reports are
/// not merged. Moments are milliseconds.
///
/// A wait costs what it reports. A step that is held back is looked at when it comes and by the
/// next wait, and from then on only by a wait before which an end was attached or a mask set.
#[derive(Drop)]
pub struct ScriptNet {
    player: Player,
    // These two have the latest last.
    retired: Vec<(u64, ScriptEnd)>,
    turned_away: Vec<ScriptEnd>,
    spare: usize,
    waits: u64,
    attaches: u64,
    fail_waits: Vec<u64>,
    fail_attaches: Vec<u64>,
    failed_waits: u64,
    failed_attaches: u64,
    calls: Calls,
}

impl Model for ScriptNet {
    ghost use Rattle.std.specs.Prelude.{reverse};
    ghost use Rattle.script_net.specs.NetContent.{NetContent};

    ghost Value = { NetContent };

    ghost use Rattle.script_net.specs.Scripts.{group_views};
    ghost use Rattle.script_net.specs.NetRoom.{IsNet};

    ghost view = { λ n. record {
      groups = group_views n.player.groups.items;
      calls = n.calls;
      reports = n.player.reports.items;
      retired = reverse n.retired.items;
      turned_away = reverse n.turned_away.items;
      spare = n.spare;
      waits = n.waits;
      attaches = n.attaches;
      fail_waits = n.fail_waits.items;
      fail_attaches = n.fail_attaches.items;
      failed_waits = n.failed_waits;
      failed_attaches = n.failed_attaches;
    } };

    ghost invariant = { λ n. IsNet n.player n.calls n.retired n.turned_away n.spare };
}

impl ScriptNet {
    ghost use Rattle.script_net.specs.Hosts.{new_net};

    // A net that made no call. It has room to hold back all steps of its groups.
    pub(crate) fn new(
        alloc: Global,
        groups: Vec<Group>,
        connections: usize,
        steps: usize,
    ) -> Result<ScriptNet, NoMemory>
        requires order { AreInOrder 0 (group_views groups.items) }
        requires within { AllWithin connections (group_views groups.items) }
        requires steps { many_steps (group_views groups.items) ≤ steps }
        ensures { IfOk result (λ net. net ≡ new_net (group_views groups.items)) }
    {
        Ok(ScriptNet {
            player: Player {
                groups,
                next: 0,
                now: 0,
                unwanted: Vec::with_capacity(alloc, steps)?,
                held: Vec::with_capacity(alloc, steps)?,
                first: 0,
                changed: false,
                passed: Vec::with_capacity(alloc, steps)?,
                reports: Vec::with_capacity(alloc, MOST_REPORTS)?,
                seats: Seats::new(alloc, connections)?,
            },
            retired: Vec::new(alloc),
            turned_away: Vec::new(alloc),
            spare: 0,
            waits: 0,
            attaches: 0,
            fail_waits: Vec::new(alloc),
            fail_attaches: Vec::new(alloc),
            failed_waits: 0,
            failed_attaches: 0,
            calls: Calls::none(),
        })
    }

    /// The end that was retired last under a handle, or `None` if there is none.
    pub fn retired(&self, handle: Handle) -> Option<&ScriptEnd>
        ensures { option_map (λ end. end.now) result ≡ retired_of handle.0 self.now.retired }
    {
        last_of(&self.retired, handle.0)
    }

    /// Names the waits that fail, by their numbers from 0, in the place of those that were named
    /// before.
    pub fn fail_waits(&mut self, numbers: Vec<u64>)
        ensures { self.new ≡ record self.old { fail_waits = numbers.items } }
    {
        self.fail_waits = numbers;
    }

    /// Names the attaches that fail, by their numbers from 0, in the place of those that were named
    /// before.
    pub fn fail_attaches(&mut self, numbers: Vec<u64>)
        ensures { self.new ≡ record self.old { fail_attaches = numbers.items } }
    {
        self.fail_attaches = numbers;
    }
}

impl Net for ScriptNet {
    ghost use Rattle.ev_base.specs.Terms.{Terms, KeepsOn, KeepsOnWith};
    ghost use Rattle.ev_base.specs.Net.{NetWaits, Reserves, NetAttaches, SetsMaskOf, RetiresEnd};
    ghost use Rattle.ev_base.specs.Net.{TurnsAwayEnd};
    ghost use Rattle.script_net.specs.NetContent.{after_failed_attach, attached_by, mask_set_by};
    ghost use Rattle.script_net.specs.NetContent.{retired_by, turned_away_by};
    ghost use Rattle.script_net.specs.ScriptEnd.{script_end_facts, ScriptEndKeeps};
    ghost use Rattle.script_net.specs.NetLaws.{net_is_sound, net_follows_groups};

    type End = ScriptEnd;

    ghost facts = { script_net_facts };

    ghost keeps = { script_net_keeps };

    fn wait(&mut self, most_ms: Option<u64>) -> Waited
        ensures waits { NetWaits (script_net_facts self.old) most_ms result
            (script_net_facts self.new) }
        ensures kept { KeepsOn script_net_keeps self.old self.new }
        ensures fails { Contains self.old.fail_waits self.old.waits → (result ≡ Waited.Failed)
            × (self.new ≡ after_failed_wait self.old) }
        ensures plays { (Contains self.old.fail_waits self.old.waits → ⊥)
            → (result ≡ (waited most_ms (playing_of self.old)).answer)
            × (self.new ≡ after_wait most_ms self.old) }
    {
        let number = self.waits;
        self.waits = number.saturating_add(1);
        if self.fail_waits.contains(&number) {
            self.failed_waits = self.failed_waits.saturating_add(1);
            return Waited::Failed;
        }
        let answer = self.player.wait(most_ms);
        self.calls
            .add(Made::WaitForMany(most_ms, answer, &self.player.reports));
        answer
    }

    fn report(&self, at: usize) -> Report {
        self.player.reports[at]
    }

    fn reserve(&mut self, n: usize) -> Result<(), NoMemory>
        ensures same { Reserves (script_net_facts self.old) (script_net_facts self.new) }
        ensures places { OnOk result (n ≤ (script_net_facts self.new).spare) }
        ensures kept { KeepsOn script_net_keeps self.old self.new }
        ensures exactly { self.new ≡ record self.old { spare = self.new.spare } }
        ensures room { n ≤ self.old.spare → IsOk result }
    {
        if n <= self.spare {
            return Ok(());
        }
        let Some(places) = n.checked_add(self.player.seats.made()) else {
            return Err(NoMemory);
        };
        self.player.seats.reserve(n)?;
        self.turned_away.reserve(n)?;
        self.retired.reserve(places)?;
        self.spare = n;
        Ok(())
    }

    fn attach(&mut self, end: &mut ScriptEnd, handle: Handle, mask: Mask) -> Result<(), NetFailed>
        requires place { 1 ≤ (script_net_facts self.old).spare }
        requires absent { Contains (script_net_facts self.old).attached handle.0 → ⊥ }
        ensures attaches { NetAttaches (script_net_facts self.old) handle.0 mask
            (script_end_facts end.old).serial result (script_net_facts self.new) }
        ensures end { script_end_facts end.new ≡ script_end_facts end.old }
        ensures kept { KeepsOnWith script_net_keeps ScriptEndKeeps end.old self.old self.new }
        ensures end_kept { (t : Terms) → script_net_keeps t self.old → ScriptEndKeeps t end.old
            → ScriptEndKeeps t end.new }
        ensures same_end { end.new ≡ end.old }
        ensures fails { Contains self.old.fail_attaches self.old.attaches → (result ≡ Err record {})
            × (self.new ≡ after_failed_attach self.old) }
        ensures exactly { (Contains self.old.fail_attaches self.old.attaches → ⊥) → (result ≡ Ok tt)
            × (self.new ≡ attached_by handle.0 mask (script_end_facts end.old).serial self.old) }
    {
        let number = self.attaches;
        self.attaches = number.saturating_add(1);
        if self.fail_attaches.contains(&number) {
            self.failed_attaches = self.failed_attaches.saturating_add(1);
            return Err(NetFailed);
        }
        self.player.seats.attach(handle, mask, end.place());
        self.player.changed = true;
        self.spare -= 1;
        self.calls.add(Made::Attach(handle, mask, end.serial()));
        Ok(())
    }

    fn set_mask(&mut self, handle: Handle, mask: Mask)
        requires { Contains (script_net_facts self.old).attached handle.0 }
        ensures sets { SetsMaskOf (script_net_facts self.old) handle.0 mask
            (script_net_facts self.new) }
        ensures kept { KeepsOn script_net_keeps self.old self.new }
        ensures exactly { self.new ≡ mask_set_by handle.0 mask self.old }
    {
        self.player.seats.set_mask(handle, mask);
        self.player.changed = true;
        self.calls.add(Made::Mask(handle, mask));
    }

    fn retire(&mut self, handle: Handle, end: ScriptEnd)
        requires { Contains (script_net_facts self.old).attached handle.0 }
        ensures retires { RetiresEnd (script_net_facts self.old) handle.0 end
            (script_net_facts self.new) }
        ensures kept { KeepsOnWith script_net_keeps ScriptEndKeeps end self.old self.new }
        ensures exactly { self.new ≡ retired_by handle.0 end self.old }
    {
        let place = self.player.seats.retire(handle);
        self.player.seats.mark(place);
        match self.retired.push((handle.0, end)) {
            Ok(()) => {}
            Err(_) => unreachable!(),
        }
        self.calls.add(Made::Retire(handle));
    }

    fn turn_away(&mut self, end: ScriptEnd)
        requires { 1 ≤ (script_net_facts self.old).spare }
        ensures turns_away { TurnsAwayEnd (script_net_facts self.old) (script_end_facts end).serial
            end (script_net_facts self.new) }
        ensures kept { KeepsOnWith script_net_keeps ScriptEndKeeps end self.old self.new }
        ensures exactly { self.new ≡ turned_away_by end self.old }
    {
        let serial = end.serial();
        self.player.seats.mark(end.place());
        match self.turned_away.push(end) {
            Ok(()) => {}
            Err(_) => unreachable!(),
        }
        self.spare -= 1;
        self.calls.add(Made::TurnAway(serial));
    }

    ghost sound = { net_is_sound };

    ghost keeps_groups = { net_follows_groups };
}

// The end that stands last under a handle.
fn last_of(retired: &[(u64, ScriptEnd)], handle: u64) -> Option<&ScriptEnd>
    ensures { option_map (λ end. end.now) result ≡ retired_of handle (reverse retired.now) }
{
    let mut left = retired.len();
    while left > 0 {
        left -= 1;
        let entry = &retired[left];
        if entry.0 == handle {
            return Some(&entry.1);
        }
    }
    None
}

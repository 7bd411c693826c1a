//! A demultiplexer for the tests of a reactor, whose moments and reports are laid down when it is
//! made.
ghost use Rattle.std.specs.Prelude.{◌≡◌, ◌≤◌, ◌<◌, ◌∷◌, ◌-◌, ℕ, true, length, slice_get};
ghost use Rattle.std.specs.Prelude.{option_map, Some, None, OnOk, IsOk, Contains};
ghost use Rattle.demux.specs.PlayNet.{play_net_facts, do_not_fall, are_bounded, new_play};
ghost use Rattle.demux.specs.PlayNet.{PlaysWait, watching, with_mask, not_watching, retired_of};

use super::PlayEnd;
use crate::planned::{answer_at, reached, sort_out};
use crate::watched::{Retired, Watched, retired_in, set_mask_in};
use ev_base::{Calls, Handle, Made, Mask, Net, NetFailed, NoMemory, Report, Waited};
use std::alloc::Global;
use std::marker::Model;

/// A demultiplexer that plays what was laid down. It never fails, and only `reserve` takes memory.
///
/// Its wait number k, from 0, answers at moment number k in milliseconds, whatever the limit of the
/// wait is. It gives, in the order in which they were laid down, the reports for this wait and
/// those that were held back from earlier waits, if their handle is attached with their kind in its
/// mask. After the last moment each wait answers `Over` at that moment, or at 0 if there is
/// none. Reports are not merged. Those of a handle that was retired are dropped.
#[derive(Drop)]
pub struct PlayNet {
    moments: Vec<u64>,
    // The number of the next wait, which stays at the number of moments.
    waits: usize,
    // The reports that wait to be given, and after them those of the last wait.
    planned: Vec<(usize, Report)>,
    // How many wait.
    waiting: usize,
    // These have the latest first.
    watched: Vec<Watched>,
    retired: Vec<Retired>,
    turned_away: Vec<PlayEnd>,
    spare: usize,
    calls: Calls,
}

impl Model for PlayNet {
    ghost use Rattle.std.specs.Prelude.{take, drop};
    ghost use Rattle.ev_base.specs.Calls.{reports_of};
    ghost use Rattle.demux.specs.PlayNet.{PlayContent};
    ghost use Rattle.demux.specs.PlayRoom.{IsPlay, HasRoom};

    ghost Value = { PlayContent };

    ghost view = { λ n. record {
      moments = n.moments.items;
      waits = n.waits;
      given = reports_of (drop n.waiting n.planned.items);
      waiting = take n.waiting n.planned.items;
      watched = n.watched.items;
      retired = n.retired.items;
      turned_away = n.turned_away.items;
      spare = n.spare;
      calls = n.calls;
    } };

    ghost invariant = { λ n. IsPlay n.moments.items n.waits n.planned.items n.waiting
        × HasRoom n.watched n.retired n.turned_away n.spare };
}

impl PlayNet {
    /// A net that has made no call. The moments are milliseconds, do not fall and are at most 2^62,
    /// and there are at most 256 reports, each with the number of the wait that it is for. It holds
    /// no more memory than it was given.
    pub fn new(alloc: Global, moments: Vec<u64>, reports: Vec<(usize, Report)>) -> PlayNet
        requires rising { do_not_fall 0 moments.items ≡ true }
        requires bounded { are_bounded moments.items ≡ true }
        requires few { length reports.items ≤ 256 }
        ensures new { result ≡ new_play moments.items reports.items }
    {
        let waiting = reports.len();
        PlayNet {
            moments,
            waits: 0,
            planned: reports,
            waiting,
            watched: Vec::new(alloc),
            retired: Vec::new(alloc),
            turned_away: Vec::new(alloc),
            spare: 0,
            calls: Calls::none(),
        }
    }

    /// The end that was retired under a handle, or `None` if there is none.
    pub fn retired(&self, handle: Handle) -> Option<&PlayEnd>
        ensures { option_map (λ end. end.now) result ≡ retired_of handle.0 self.now.retired }
    {
        retired_in(&self.retired, handle)
    }
}

impl Net for PlayNet {
    ghost use Rattle.std.specs.Prelude.{refl};
    ghost use Rattle.ev_base.specs.Terms.{Terms, KeepsOn, KeepsOnWith};
    ghost use Rattle.ev_base.specs.Net.{NetWaits, Reserves, NetAttaches, SetsMaskOf, RetiresEnd};
    ghost use Rattle.ev_base.specs.Net.{TurnsAwayEnd, Attaches, SetsMask, Retires, TurnsAway};
    ghost use Rattle.ev_base.specs.Calls.{follows_none};
    ghost use Rattle.demux.specs.PlayEnd.{play_end_facts, play_end_keeps};
    ghost use Rattle.demux.specs.PlayKeeps.{play_net_keeps};

    type End = PlayEnd;

    ghost facts = { play_net_facts };

    ghost keeps = { play_net_keeps };

    fn wait(&mut self, most_ms: Option<u64>) -> Waited
        ensures waits { NetWaits (play_net_facts self.old) most_ms result
            (play_net_facts self.new) }
        ensures kept { KeepsOn play_net_keeps self.old self.new }
        ensures plays { PlaysWait (slice_get self.old.moments self.old.waits) self.old most_ms
            result self.new }
    {
        self.planned.truncate(self.waiting);
        if self.waits == self.moments.len() {
            let answer = Waited::Over {
                now: reached(&self.moments, self.waits),
            };
            self.calls.add(Made::Wait(most_ms, answer, &[]));
            return answer;
        }
        let now = self.moments[self.waits];
        self.waiting = sort_out(self.waits, &self.watched, &self.retired, &mut self.planned);
        self.waits += 1;
        let given = &self.planned[self.waiting..];
        let answer = answer_at(now, given);
        self.calls.add(Made::Wait(most_ms, answer, given));
        answer
    }

    fn report(&self, at: usize) -> Report {
        self.planned[self.waiting + at].1
    }

    fn reserve(&mut self, n: usize) -> Result<(), NoMemory>
        ensures same { Reserves (play_net_facts self.old) (play_net_facts self.new) }
        ensures places { OnOk result (n ≤ (play_net_facts self.new).spare) }
        ensures kept { KeepsOn play_net_keeps self.old self.new }
        ensures plays { self.new ≡ record self.old { spare = self.new.spare } }
        ensures room { n ≤ self.old.spare → IsOk result }
    {
        if n <= self.spare {
            return Ok(());
        }
        let Some(places) = n.checked_add(self.watched.len()) else {
            return Err(NoMemory);
        };
        self.watched.reserve(n)?;
        self.turned_away.reserve(n)?;
        self.retired.reserve(places)?;
        self.spare = n;
        Ok(())
    }

    fn attach(&mut self, end: &mut PlayEnd, handle: Handle, mask: Mask) -> Result<(), NetFailed>
        requires place { 1 ≤ (play_net_facts self.old).spare }
        requires absent { Contains (play_net_facts self.old).attached handle.0 → ⊥ }
        ensures attaches { NetAttaches (play_net_facts self.old) handle.0 mask
            (play_end_facts end.old).serial result (play_net_facts self.new) }
        ensures end { play_end_facts end.new ≡ play_end_facts end.old }
        ensures kept { KeepsOnWith play_net_keeps play_end_keeps end.old self.old self.new }
        ensures end_kept { (t : Terms) → play_net_keeps t self.old → play_end_keeps t end.old
            → play_end_keeps t end.new }
        ensures plays { self.new ≡ record self.old {
          watched = watching handle.0 mask self.old.watched;
          spare = self.old.spare - 1;
          calls = Attaches handle.0 mask None ∷ self.old.calls;
        } }
        ensures done { result ≡ Ok tt }
    {
        let watched = Watched { handle, mask };
        match self.watched.insert(0, watched) {
            Ok(()) => {}
            Err(_) => unreachable!(),
        }
        self.spare -= 1;
        self.calls.add(Made::Attach(handle, mask, None));
        Ok(())
    }

    fn set_mask(&mut self, handle: Handle, mask: Mask)
        requires { Contains (play_net_facts self.old).attached handle.0 }
        ensures sets { SetsMaskOf (play_net_facts self.old) handle.0 mask
            (play_net_facts self.new) }
        ensures kept { KeepsOn play_net_keeps self.old self.new }
        ensures plays { self.new ≡ record self.old {
          watched = with_mask handle.0 mask self.old.watched;
          calls = SetsMask handle.0 mask ∷ self.old.calls;
        } }
    {
        set_mask_in(&mut self.watched, handle, mask);
        self.calls.add(Made::Mask(handle, mask));
    }

    fn retire(&mut self, handle: Handle, end: PlayEnd)
        requires { Contains (play_net_facts self.old).attached handle.0 }
        ensures retires { RetiresEnd (play_net_facts self.old) handle.0 end
            (play_net_facts self.new) }
        ensures kept { KeepsOnWith play_net_keeps play_end_keeps end self.old self.new }
        ensures plays { self.new ≡ record self.old {
          watched = not_watching handle.0 self.old.watched;
          retired =
              record { handle = handle; end = end; waits = self.old.waits } ∷ self.old.retired;
          calls = Retires handle.0 ∷ self.old.calls;
        } }
    {
        let retired = Retired {
            handle,
            end,
            waits: self.waits,
        };
        match self.retired.insert(0, retired) {
            Ok(()) => {}
            Err(_) => unreachable!(),
        }
        self.watched.retain(|w| w.handle.0 != handle.0);
        self.calls.add(Made::Retire(handle));
    }

    fn turn_away(&mut self, end: PlayEnd)
        requires { 1 ≤ (play_net_facts self.old).spare }
        ensures turns_away { TurnsAwayEnd (play_net_facts self.old) (play_end_facts end).serial end
            (play_net_facts self.new) }
        ensures kept { KeepsOnWith play_net_keeps play_end_keeps end self.old self.new }
        ensures plays { self.new ≡ record self.old {
          turned_away = end ∷ self.old.turned_away;
          spare = self.old.spare - 1;
          calls = TurnsAway None ∷ self.old.calls;
        } }
    {
        match self.turned_away.insert(0, end) {
            Ok(()) => {}
            Err(_) => unreachable!(),
        }
        self.spare -= 1;
        self.calls.add(Made::TurnAway(None));
    }

    ghost sound = { λ net steady. (refl, refl) };

    ghost keeps_groups = { λ t net keeps. follows_none (play_net_facts net).calls t.groups keeps };
}

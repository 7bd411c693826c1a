//! The demultiplexer of the one connection.
ghost use Rattle.std.specs.Prelude.{◌≡◌, ◌≢◌, ◌≤◌, ◌+◌, ◌∷◌, ℕ, [], Some, OnOk, IsOk, Contains};
ghost use Rattle.std.specs.Prelude.{vec_len, vec_capacity};

use super::OneEnd;
use crate::watched::{answer_of, first_report, set_mask_in};
use ev_base::{Calls, Handle, Made, Mask, Net, NetFailed, NoMemory, Report, Source, Waited};
use std::alloc::Global;

/// A demultiplexer whose ends can be read at any time, and nothing else.
///
/// Each wait reports the end that was attached first as readable, at moment 0, if its mask has
/// that; else nothing can be reported any more. It never fails, and only `reserve` takes memory. It
/// holds the ends that it took back, which are not let go: so it ends by `into_retired` or by
/// `close`.
pub struct OneNet<S> {
    // The handles and masks of the ends that are attached. These three lists have the latest first.
    watched: Vec<(u64, Mask)>,
    // The ends that were retired, by handle.
    retired: Vec<(u64, OneEnd<S>)>,
    turned_away: Vec<OneEnd<S>>,
    // How many more ends it has places for.
    spare: usize,
    // The report of the last wait.
    given: Option<Report>,
    calls: Calls,
    ghost to_watch: { vec_len watched + spare ≤ vec_capacity watched },
    ghost to_retire: { vec_len retired + vec_len watched + spare ≤ vec_capacity retired },
    ghost to_turn_away: { vec_len turned_away + spare ≤ vec_capacity turned_away },
}

impl<S: Source> OneNet<S> {
    ghost use Rattle.ev_base.specs.Net.{IsNew};
    ghost use Rattle.one_net.specs.OneNet.{one_net_facts, new_net_facts};

    /// A net that has made no call, with nothing attached. It takes no memory.
    pub fn new(alloc: Global) -> OneNet<S>
        ensures new { IsNew (one_net_facts result) }
        ensures facts { one_net_facts result ≡ new_net_facts }
    {
        OneNet {
            watched: Vec::new(alloc),
            retired: Vec::new(alloc),
            turned_away: Vec::new(alloc),
            spare: 0,
            given: None,
            calls: Calls::none(),
        }
    }

    /// The end that was retired, if it is the only one that the net took.
    pub fn into_retired(self) -> OneEnd<S>
        requires { (handle : ℕ) × (end : OneEnd S) × ((one_net_facts self).retired
            ≡ Some ((handle, end) ∷ [])) × ((one_net_facts self).turned_away ≡ Some []) }
        ensures { (handle : ℕ) (end : OneEnd S) → (one_net_facts self).retired
            ≡ Some ((handle, end) ∷ []) → result ≡ end }
    {
        let OneNet {
            watched: _watched,
            mut retired,
            turned_away,
            spare: _spare,
            given: _given,
            calls: _calls,
        } = self;
        let last = retired.pop();
        retired.destroy_empty();
        turned_away.destroy_empty();
        let Some((_, end)) = last else { unreachable!() };
        end
    }

    /// Lets a net go that took no end.
    pub fn close(self)
        requires retired { (one_net_facts self).retired ≡ Some [] }
        requires turned_away { (one_net_facts self).turned_away ≡ Some [] }
    {
        let OneNet {
            watched: _watched,
            retired,
            turned_away,
            spare: _spare,
            given: _given,
            calls: _calls,
        } = self;
        retired.destroy_empty();
        turned_away.destroy_empty();
    }
}

impl<S: Source> Net for OneNet<S> {
    ghost use Rattle.std.specs.Prelude.{refl};
    ghost use Rattle.ev_base.specs.Terms.{Terms, KeepsOn, KeepsOnWith};
    ghost use Rattle.ev_base.specs.Net.{NetWaits, Reserves, NetAttaches, SetsMaskOf, RetiresEnd};
    ghost use Rattle.ev_base.specs.Net.{TurnsAwayEnd};
    ghost use Rattle.ev_base.specs.Calls.{follows_none};
    ghost use Rattle.one_net.specs.OneEnd.{one_end_facts};
    ghost use Rattle.one_net.specs.OneKeeps.{OneEndKeeps};
    ghost use Rattle.one_net.specs.OneNet.{one_net_facts, one_net_keeps, masks_of};
    ghost use Rattle.one_net.specs.Watched.{first_report, report_list, answer_of};

    type End = OneEnd<S>;

    ghost facts = { one_net_facts };

    ghost keeps = { one_net_keeps };

    fn wait(&mut self, most_ms: Option<u64>) -> Waited
        ensures waits { NetWaits (one_net_facts self.old) most_ms result (one_net_facts self.new) }
        ensures kept { KeepsOn one_net_keeps self.old self.new }
        ensures waits_exactly { result ≡ answer_of (first_report (masks_of self.old)) }
        ensures reports_exactly { one_net_facts self.new ≡ record (one_net_facts self.old) {
          reports = report_list (first_report (masks_of self.old));
          calls = (one_net_facts self.new).calls;
        } }
        ensures never_fails { result ≢ Waited.Failed }
    {
        self.given = first_report(&self.watched);
        let answer = answer_of(self.given);
        self.calls
            .add(Made::WaitForOne(most_ms, answer, self.given));
        answer
    }

    fn report(&self, at: usize) -> Report {
        match self.given {
            Some(report) => report,
            None => unreachable!(),
        }
    }

    fn reserve(&mut self, n: usize) -> Result<(), NoMemory>
        ensures same { Reserves (one_net_facts self.old) (one_net_facts self.new) }
        ensures places { OnOk result (n ≤ (one_net_facts self.new).spare) }
        ensures kept { KeepsOn one_net_keeps self.old self.new }
        ensures room { n ≤ (one_net_facts self.old).spare → IsOk result }
    {
        if n <= self.spare {
            return Ok(());
        }
        let Some(places) = n.checked_add(self.watched.len()) else {
            return Err(NoMemory);
        };
        self.watched.reserve(n)?;
        self.turned_away.reserve(n)?;
        self.retired.reserve(places)?;
        self.spare = n;
        Ok(())
    }

    fn attach(&mut self, end: &mut OneEnd<S>, handle: Handle, mask: Mask) -> Result<(), NetFailed>
        requires place { 1 ≤ (one_net_facts self.old).spare }
        requires absent { Contains (one_net_facts self.old).attached handle.0 → ⊥ }
        ensures attaches { NetAttaches (one_net_facts self.old) handle.0 mask
            (one_end_facts S.facts end.old).serial result (one_net_facts self.new) }
        ensures end { one_end_facts S.facts end.new ≡ one_end_facts S.facts end.old }
        ensures kept { KeepsOnWith one_net_keeps (OneEndKeeps S.facts) end.old self.old self.new }
        ensures end_kept { (t : Terms) → one_net_keeps t self.old → OneEndKeeps S.facts t end.old
            → OneEndKeeps S.facts t end.new }
        ensures never_fails { result ≡ Ok tt }
        ensures spare { (one_net_facts self.new).spare + 1 ≡ (one_net_facts self.old).spare }
        ensures same_end { end.new ≡ end.old }
    {
        match self.watched.insert(0, (handle.0, mask)) {
            Ok(()) => {}
            Err(_) => unreachable!(),
        }
        self.spare -= 1;
        self.calls.add(Made::Attach(handle, mask, Some(0)));
        Ok(())
    }

    fn set_mask(&mut self, handle: Handle, mask: Mask) {
        set_mask_in(&mut self.watched, handle, mask);
        self.calls.add(Made::Mask(handle, mask));
    }

    fn retire(&mut self, handle: Handle, end: OneEnd<S>) {
        match self.retired.insert(0, (handle.0, end)) {
            Ok(()) => {}
            Err(_) => unreachable!(),
        }
        self.watched.retain(|entry| entry.0 != handle.0);
        self.calls.add(Made::Retire(handle));
    }

    fn turn_away(&mut self, end: OneEnd<S>) {
        match self.turned_away.insert(0, end) {
            Ok(()) => {}
            Err(_) => unreachable!(),
        }
        self.spare -= 1;
        self.calls.add(Made::TurnAway(Some(0)));
    }

    ghost sound = { λ net steady. (refl, refl) };

    ghost keeps_groups = { λ t net keeps. follows_none (one_net_facts net).calls t.groups
        keeps.no_script };
}

//! The net of the forwarding daemon.
ghost use Rattle.std.specs.Prelude.{◌≡◌, ◌≤◌, ◌+◌, length, vec_len, vec_capacity, [], Some};

use crate::ForwardEnd;
use ev_base::{DialEnd, Handle, Mask, Net, NetFailed, NoMemory, Report, Source, Waited};
use ghost_log::EndLog;
use one_net::OneEnd;
use std::alloc::Global;

/// The net of a dialled end, as one of ends with their sources. It keeps the sources of the ends
/// that it took back, and tells those ends whether the net within does or not. So it ends by
/// `into_retired` or by `close`.
pub struct ForwardNet<M: Net, S> {
    net: M,
    // The sources of the ends that were retired and turned away, the latest first.
    inputs: Vec<OneEnd<S>>,
    refused: Vec<OneEnd<S>>,
    // How many ends are attached, and how many more there are places for.
    live: usize,
    spare: usize,
    retired: EndLog<ForwardEnd<M::End, S>>,
    turned_away: EndLog<ForwardEnd<M::End, S>>,
    ghost attached: { length (M.facts net).attached ≤ live },
    ghost places: { spare ≤ (M.facts net).spare },
    ghost to_retire: { vec_len inputs + live + spare ≤ vec_capacity inputs },
    ghost to_turn_away: { vec_len refused + spare ≤ vec_capacity refused },
    ghost all_inputs: { vec_len inputs ≡ length retired },
    ghost all_refused: { vec_len refused ≡ length turned_away },
}

impl<M: Net, S: Source> ForwardNet<M, S>
where
    M::End: DialEnd,
{
    ghost use Rattle.ev_base.specs.Terms.{Terms};
    ghost use Rattle.ev_base.specs.Net.{IsNew};
    ghost use Rattle.forwarder.specs.ForwardNets.{TookOne, IsSourceOf};
    ghost use Rattle.forwarder.specs.ForwardNets.{forward_net_facts, net_within, ForwardNetKeeps};

    /// A net over this one, which made no call and has nothing attached, retired or turned away. It
    /// takes no memory.
    pub fn new(alloc: Global, net: M) -> ForwardNet<M, S>
        requires { IsNew (M.facts net) }
        ensures new { IsNew (forward_net_facts M.facts result) }
        ensures net { net_within result ≡ net }
        ensures kept { (t : Terms) → M.keeps t net → ForwardNetKeeps M.facts M.keeps t result }
    {
        ForwardNet {
            net,
            inputs: Vec::new(alloc),
            refused: Vec::new(alloc),
            live: 0,
            spare: 0,
            retired: EndLog::none(),
            turned_away: EndLog::none(),
        }
    }

    /// The net within, and the source of the end that was retired, if that is the only one that
    /// the net took.
    pub fn into_retired(self) -> (M, OneEnd<S>)
        requires { TookOne M.facts self }
        ensures net { result.0 ≡ net_within self }
        ensures input { IsSourceOf M.facts M.keeps self result.1 }
    {
        let ForwardNet {
            net,
            mut inputs,
            refused,
            live: _live,
            spare: _spare,
            retired: _retired,
            turned_away: _turned_away,
        } = self;
        let last = inputs.pop();
        inputs.destroy_empty();
        refused.destroy_empty();
        let Some(input) = last else { unreachable!() };
        (net, input)
    }

    /// The net within, if no end was taken.
    pub fn close(self) -> M
        requires retired { (forward_net_facts M.facts self).retired ≡ Some [] }
        requires turned_away { (forward_net_facts M.facts self).turned_away ≡ Some [] }
        ensures { result ≡ net_within self }
    {
        let ForwardNet {
            net,
            inputs,
            refused,
            live: _live,
            spare: _spare,
            retired: _retired,
            turned_away: _turned_away,
        } = self;
        inputs.destroy_empty();
        refused.destroy_empty();
        net
    }
}

impl<M: Net, S: Source> Net for ForwardNet<M, S>
where
    M::End: DialEnd,
{
    ghost use Rattle.ev_base.specs.Terms.{Terms, KeepsOn, KeepsOnWith};
    ghost use Rattle.ev_base.specs.Net.{NetWaits, Reserves, NetAttaches, SetsMaskOf, RetiresEnd};
    ghost use Rattle.ev_base.specs.Net.{TurnsAwayEnd};
    ghost use Rattle.forwarder.specs.ForwardEnds.{forward_facts, ForwardKeeps};
    ghost use Rattle.forwarder.specs.ForwardNets.{forward_net_facts, ForwardNetKeeps};

    type End = ForwardEnd<M::End, S>;

    ghost facts = { forward_net_facts M.facts };

    ghost keeps = { ForwardNetKeeps M.facts M.keeps };

    fn wait(&mut self, most_ms: Option<u64>) -> Waited {
        self.net.wait(most_ms)
    }

    fn report(&self, at: usize) -> Report {
        self.net.report(at)
    }

    fn reserve(&mut self, n: usize) -> Result<(), NoMemory> {
        if n <= self.spare {
            return Ok(());
        }
        let Some(places) = n.checked_add(self.live) else {
            return Err(NoMemory);
        };
        self.net.reserve(n)?;
        self.inputs.reserve(places)?;
        self.refused.reserve(n)?;
        self.spare = n;
        Ok(())
    }

    fn attach(
        &mut self,
        end: &mut ForwardEnd<M::End, S>,
        handle: Handle,
        mask: Mask,
    ) -> Result<(), NetFailed> {
        end.attach_to(&mut self.net, handle, mask)?;
        self.live += 1;
        self.spare -= 1;
        Ok(())
    }

    fn set_mask(&mut self, handle: Handle, mask: Mask) {
        self.net.set_mask(handle, mask);
    }

    fn retire(&mut self, handle: Handle, end: ForwardEnd<M::End, S>) {
        self.retired.add(handle.0, &end);
        let (peer, input) = end.into_parts();
        self.net.retire(handle, peer);
        match self.inputs.insert(0, input) {
            Ok(()) => {}
            Err(_) => unreachable!(),
        }
        self.live -= 1;
    }

    fn turn_away(&mut self, end: ForwardEnd<M::End, S>) {
        self.turned_away.add(0, &end);
        let (peer, input) = end.into_parts();
        self.net.turn_away(peer);
        match self.refused.insert(0, input) {
            Ok(()) => {}
            Err(_) => unreachable!(),
        }
        self.spare -= 1;
    }

    ghost sound = { λ net steady. M.sound net.net steady };

    ghost keeps_groups = { λ t net keeps. M.keeps_groups t net.net keeps.within };
}

//! The net.
ghost use Rattle.std.specs.Prelude.{◌≡◌};

use crate::Ace7End;
use ev_base::{Handle, Mask, Net, NetFailed, NoMemory, Report, Waited};
use ghost_log::EndLog;

/// A net of ends, as one of ends of clients that use ACE 7. Each call makes the same call of the
/// net within. It tells the ends that it took back whether the net within does or not.
#[derive(Drop)]
pub struct Ace7Net<M: Net> {
    net: M,
    retired: EndLog<Ace7End<M::End>>,
    turned_away: EndLog<Ace7End<M::End>>,
}

impl<M: Net> Ace7Net<M> {
    ghost use Rattle.ev_base.specs.Net.{IsNew};
    ghost use Rattle.ace7_input.specs.Nets.{ace7_net_facts, net_within};

    /// A net over this one, which made no call and has nothing attached, retired or turned away.
    pub fn new(net: M) -> Ace7Net<M>
        requires { IsNew (M.facts net) }
        ensures new { IsNew (ace7_net_facts M.facts result) }
        ensures net { net_within result ≡ net }
    {
        Ace7Net {
            net,
            retired: EndLog::none(),
            turned_away: EndLog::none(),
        }
    }

    /// The net within.
    pub fn into_inner(self) -> M
        ensures { result ≡ net_within self }
    {
        let Ace7Net {
            net,
            retired: _,
            turned_away: _,
        } = self;
        net
    }
}

impl<M: Net> Net for Ace7Net<M> {
    ghost use Rattle.ace7_input.specs.Nets.{ace7_net_facts, ace7_net_keeps};

    type End = Ace7End<M::End>;

    ghost facts = { ace7_net_facts M.facts };

    ghost keeps = { ace7_net_keeps M.keeps };

    fn wait(&mut self, most_ms: Option<u64>) -> Waited {
        self.net.wait(most_ms)
    }

    fn report(&self, at: usize) -> Report {
        self.net.report(at)
    }

    fn reserve(&mut self, n: usize) -> Result<(), NoMemory> {
        self.net.reserve(n)
    }

    fn attach(
        &mut self,
        end: &mut Ace7End<M::End>,
        handle: Handle,
        mask: Mask,
    ) -> Result<(), NetFailed> {
        end.attach_to(&mut self.net, handle, mask)
    }

    fn set_mask(&mut self, handle: Handle, mask: Mask) {
        self.net.set_mask(handle, mask);
    }

    fn retire(&mut self, handle: Handle, end: Ace7End<M::End>) {
        self.retired.add(handle.0, &end);
        self.net.retire(handle, end.into_inner());
    }

    fn turn_away(&mut self, end: Ace7End<M::End>) {
        self.turned_away.add(0, &end);
        self.net.turn_away(end.into_inner());
    }

    ghost sound = { λ net steady. M.sound net.net steady };

    ghost keeps_groups = { λ t net keeps. M.keeps_groups t net.net keeps };
}

//! A script as a whole, and a host that listens by it.
ghost use Rattle.std.specs.Prelude.{◌≡◌, ◌≤◌, ◌⊎◌, ◌↔◌, ℕ, true, false, length, IfOk, Option, Some};
ghost use Rattle.std.specs.Prelude.{None, ◌++◌, ◌∷◌, []};
ghost use Rattle.ev_base.specs.Counts.{counted};
ghost use Rattle.ev_base.specs.Terms.{Terms};
ghost use Rattle.ev_base.specs.Net.{IsNew};
ghost use Rattle.ev_base.specs.End.{IsFresh};
ghost use Rattle.ev_base.specs.Story.{AreNumbered};
ghost use Rattle.script_net.specs.Scripts.{group_views, offer_views};
ghost use Rattle.script_net.specs.Playable.{AreInOrder, AllWithin, many_steps, many_offered};
ghost use Rattle.script_net.specs.Ends.{new_listener, listener_facts};
ghost use Rattle.script_net.specs.NetContent.{script_net_facts, script_net_keeps};
ghost use Rattle.script_net.specs.ScriptEnd.{script_end_facts, ScriptEndKeeps};
ghost use Rattle.script_net.specs.Hosts.{new_net, LaysDown, PartsKeep};

use crate::end::ScriptEnd;
use crate::listener::Listener;
use crate::net::ScriptNet;
use crate::script::{Connection, Group, Offer};
use ev_base::{Host, ListenRefused, NoMemory, PortLog, Wake};
use std::alloc::Global;
use std::marker::Model;

/// A script that can be played: the groups of its steps, what its listener has to tell, and its
/// connections.
#[derive(Drop)]
pub struct Script {
    net: ScriptNet,
    listener: Listener,
}

impl Model for Script {
    ghost use Rattle.std.specs.Prelude.{◌≡◌};
    ghost use Rattle.script_net.specs.Hosts.{ScriptContent, new_net};

    ghost Value = { ScriptContent };

    ghost use Rattle.script_net.specs.Ends.{new_listener};

    ghost view = { λ s. record {
      groups = s.net.groups;
      offers = s.listener.offering.left;
      connections = s.listener.connections;
    } };

    ghost invariant = { λ s. (s.net ≡ new_net s.net.groups)
        × (s.listener ≡ new_listener s.listener.offering.left s.listener.connections) };
}

impl Script {
    /// A script of these groups, whose moments do not go back and are at most 4,294,967,295 ms.
    /// They have at most `steps` steps, each at the listener or at one of the connections. The
    /// listener offers each of the connections, by rising number from 0. It reserves what the net
    /// needs to play it.
    pub fn new(
        alloc: Global,
        groups: Vec<Group>,
        offers: Vec<Offer>,
        connections: Vec<Connection>,
        steps: usize,
    ) -> Result<Script, NoMemory>
        requires order { AreInOrder 0 (group_views groups.items) }
        requires within { AllWithin (length connections.items) (group_views groups.items) }
        requires steps { many_steps (group_views groups.items) ≤ steps }
        requires numbered { AreNumbered 0 (offer_views offers.items) }
        requires all_offered { many_offered (offer_views offers.items) ≡ length connections.items }
        ensures { IfOk result (λ s. s ≡ record {
          groups = group_views groups.items;
          offers = offer_views offers.items;
          connections = connections.items;
        }) }
    {
        Ok(Script {
            net: ScriptNet::new(alloc, groups, connections.len(), steps)?,
            listener: Listener::new(offers, connections),
        })
    }

    /// The net, the listener, which owns the ends of the connections, and what wakes the net. It
    /// takes no memory.
    pub fn parts(self) -> (ScriptNet, ScriptEnd, ScriptWake)
        ensures net { result.0 ≡ new_net self.groups }
        ensures listener { script_end_facts result.1 ≡ listener_facts
            (new_listener self.offers self.connections) }
        ensures keeps { (t : Terms) → LaysDown t self → script_net_keeps t result.0
            × ScriptEndKeeps t result.1 }
    {
        let Script { net, listener } = self;
        (net, ScriptEnd::of_listener(listener), ScriptWake)
    }
}

/// What wakes a net that plays a script. Such a net never waits for long, so it does nothing.
#[derive(Clone, Copy, Drop)]
pub struct ScriptWake;

impl Wake for ScriptWake {
    fn wake(&self) {}
}

/// The parts of a script that were not given yet.
#[derive(Drop)]
struct Parts {
    net: ScriptNet,
    end: ScriptEnd,
    wake: ScriptWake,
}

impl Model for Parts {
    ghost use Rattle.script_net.specs.Hosts.{PartsContent};

    ghost Value = { PartsContent };

    ghost use Rattle.script_net.specs.Hosts.{AreUnused};

    ghost view = { λ p. record { net = p.net; end = p.end } };

    ghost invariant = { λ p. AreUnused p.net p.end };
}

impl Parts {
    // The parts of a script.
    fn of_script(script: Script) -> Parts
        ensures net { result.net ≡ new_net script.groups }
        ensures listener { script_end_facts result.end ≡ listener_facts
            (new_listener script.offers script.connections) }
        ensures keeps { (t : Terms) → LaysDown t script → script_net_keeps t result.net
            × ScriptEndKeeps t result.end }
    {
        let (net, end, wake) = script.parts();
        Parts { net, end, wake }
    }
}

/// A host that listens by a script, once.
#[derive(Drop)]
pub struct ScriptHost {
    parts: Option<Parts>,
    fails: bool,
    faults: u64,
    ports: PortLog,
}

impl ScriptHost {
    ghost use Rattle.script_net.specs.Host.{host_faults, host_fails, host_parts, ArePartsOf};
    ghost use Rattle.script_net.specs.Host.{KeepsScript};

    /// A host that gives the parts of this script when it is asked to listen first. It has nothing
    /// to give without a script, and each `listen` fails if `fails` is set.
    pub fn new(script: Option<Script>, fails: bool) -> ScriptHost
        ensures fails { host_fails result ≡ fails }
        ensures faults { host_faults result ≡ 0 }
        ensures parts { ArePartsOf script (host_parts result) }
        ensures keeps { (t : Terms) → KeepsScript t script → PartsKeep t (host_parts result) }
    {
        let Some(script) = script else {
            return ScriptHost {
                parts: None,
                fails,
                faults: 0,
                ports: PortLog::none(),
            };
        };
        ScriptHost {
            parts: Some(Parts::of_script(script)),
            fails,
            faults: 0,
            ports: PortLog::none(),
        }
    }

    /// A host that gives these parts when it is asked to listen first. The net made no call but
    /// `reserve`, `fail_waits` and `fail_attaches`, and the listener gave nothing and made no call.
    pub fn of_parts(net: ScriptNet, end: ScriptEnd, wake: ScriptWake) -> ScriptHost
        requires new { IsNew (script_net_facts net) }
        requires listener { (script_end_facts end).listener ≡ true }
        requires fresh { IsFresh (script_end_facts end) }
        ensures fails { host_fails result ≡ false }
        ensures faults { host_faults result ≡ 0 }
        ensures parts { host_parts result ≡ Some (record { net = net; end = end }) }
    {
        ScriptHost {
            parts: Some(Parts { net, end, wake }),
            fails: false,
            faults: 0,
            ports: PortLog::none(),
        }
    }
}

impl Host for ScriptHost {
    ghost use Rattle.ev_base.specs.Host.{Listens};
    ghost use Rattle.script_net.specs.Host.{host_faults, host_fails, host_parts, host_ports};
    ghost use Rattle.script_net.specs.Host.{HostGives, HostKeeps};
    ghost use Rattle.script_net.specs.HostLaws.{host_keeps_open};

    type End = ScriptEnd;

    type Net = ScriptNet;

    type Waker = ScriptWake;

    ghost faults = { host_faults };

    ghost ports = { host_ports };

    ghost keeps = { HostKeeps };

    fn listen(
        &mut self,
        alloc: Global,
        port: u16,
    ) -> Result<(ScriptNet, ScriptEnd, ScriptWake), ListenRefused>
        ensures listens { Listens script_net_facts script_end_facts script_net_keeps ScriptEndKeeps
            (λ t. HostKeeps t self.old) (host_faults self.old) result (host_faults self.new) }
        ensures asked { host_ports self.new ≡ host_ports self.old ++ port ∷ [] }
        ensures gives { HostGives (host_fails self.old) (host_parts self.old) (host_faults self.old)
            result (host_parts self.new) (host_faults self.new) }
        ensures fails { host_fails self.new ≡ host_fails self.old }
    {
        self.ports.add(port);
        if self.fails {
            self.faults = self.faults.saturating_add(1);
            return Err(ListenRefused::Failed);
        }
        match self.parts.take() {
            Some(parts) => {
                let Parts { net, end, wake } = parts;
                end.offers_by_number();
                Ok((net, end, wake))
            }
            None => {
                self.faults = self.faults.saturating_add(1);
                Err(ListenRefused::Failed)
            }
        }
    }

    ghost keeps_open = { host_keeps_open };
}

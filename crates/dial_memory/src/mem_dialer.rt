//! The dialler in memory.
ghost use Rattle.std.specs.Prelude.{◌≡◌, ◌++◌, ◌∷◌, [], true, Some, None, option_map, IfNone};
ghost use Rattle.dial_memory.specs.DialEnds.{mem_dial_end_facts, is_new_end};
ghost use Rattle.dial_memory.specs.DialNets.{mem_dial_net_facts, is_new_net};

use super::{MemDialEnd, MemDialNet};
use ev_base::{DialRefused, Dialer, PortLog};
use std::alloc::Global;

/// A net and an end that made no call.
#[derive(Drop)]
pub(crate) struct DialParts {
    net: MemDialNet,
    end: MemDialEnd,
    ghost new_net: { is_new_net net ≡ true },
    ghost new_end: { is_new_end end ≡ true },
}

/// A dialler whose first `dial` gives the net and the end that it was made of. Its later ones fail.
#[derive(Drop)]
pub struct MemDialer {
    parts: Option<DialParts>,
    faults: u64,
    ports: PortLog,
}

impl MemDialer {
    ghost use Rattle.dial_memory.specs.Diallers.{parts_of, mem_dialer_faults, mem_dialer_ports};

    /// A dialler of these parts, which are as they were made.
    pub fn new(net: MemDialNet, end: MemDialEnd) -> MemDialer
        requires net { is_new_net net ≡ true }
        requires end { is_new_end end ≡ true }
        ensures parts { parts_of result ≡ Some (net, end) }
        ensures faults { mem_dialer_faults result ≡ 0 }
        ensures ports { mem_dialer_ports result ≡ [] }
    {
        MemDialer {
            parts: Some(DialParts { net, end }),
            faults: 0,
            ports: PortLog::none(),
        }
    }
}

impl Dialer for MemDialer {
    ghost use Rattle.ev_base.specs.Terms.{Terms};
    ghost use Rattle.ev_base.specs.Dialer.{Dials};
    ghost use Rattle.dial_memory.specs.Diallers.{parts_of, mem_dialer_faults, mem_dialer_keeps};
    ghost use Rattle.dial_memory.specs.Diallers.{mem_dialer_ports};
    ghost use Rattle.dial_memory.specs.DialEnds.{mem_dial_end_keeps};
    ghost use Rattle.dial_memory.specs.DialNets.{mem_dial_net_keeps};

    type End = MemDialEnd;

    type Net = MemDialNet;

    ghost faults = { mem_dialer_faults };

    ghost ports = { mem_dialer_ports };

    ghost keeps = { mem_dialer_keeps };

    fn dial(&mut self, alloc: Global, port: u16) -> Result<(MemDialNet, MemDialEnd), DialRefused>
        ensures dials { Dials mem_dial_net_facts mem_dial_end_facts mem_dial_net_keeps
            mem_dial_end_keeps (λ t. mem_dialer_keeps t self.old) (mem_dialer_faults self.old)
            result (mem_dialer_faults self.new) }
        ensures asked { mem_dialer_ports self.new ≡ mem_dialer_ports self.old ++ port ∷ [] }
        ensures gives { parts_of self.old ≡ None → result ≡ Err DialRefused.Failed }
        ensures first { (parts : MemDialNet × MemDialEnd) → parts_of self.old ≡ Some parts
            → result ≡ Ok parts }
        ensures spent { parts_of self.new ≡ None }
    {
        self.ports.add(port);
        match self.parts.take() {
            Some(DialParts { net, end }) => Ok((net, end)),
            None => {
                self.faults = self.faults.saturating_add(1);
                Err(DialRefused::Failed)
            }
        }
    }

    ghost keeps_open = { λ t dialer leaves. leaves.groups };
}

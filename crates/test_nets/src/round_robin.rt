//! A demultiplexer that reports its handles in turn.
ghost use Rattle.std.specs.Prelude.{◌≡◌, []};
ghost use Rattle.test_nets.specs.RoundRobin.{reported, round_robin_facts};

use demux::PlayEnd;
use ev_base::{Handle, Kind, MOST_REPORTS, Mask, Net, NetFailed, NoMemory, Report, Waited};
use std::alloc::Global;

/// A demultiplexer whose waits give so many reports each, at most 256, of its handles in turn:
/// handle 0, 1 and so on, and after the last handle 0 again. It keeps no masks, forgets the ends
/// that it is given back, and stands at moment 0. The waits and the attaches whose numbers, from 0,
/// were named fail; so does an attach that finds no memory.
#[derive(Drop)]
pub struct RoundRobinNet {
    // How many handles are reported, and how many reports a wait gives.
    handles: u64,
    each: usize,
    // Of the last wait: the handle of its first report, and how many reports it gave.
    first: u64,
    count: usize,
    // The latest first.
    attached: Vec<u64>,
    waits: u64,
    attaches: u64,
    fails_wait: Option<u64>,
    fails_attach: Option<u64>,
    failed_waits: u64,
    failed_attaches: u64,
}

impl RoundRobinNet {
    /// One that reports so many handles, and gives so many reports for each wait. It has made no
    /// call.
    pub fn new(alloc: Global, handles: u64, each: usize) -> RoundRobinNet
        ensures attached { (round_robin_facts result).attached ≡ [] }
        ensures failed_waits { (round_robin_facts result).failed_waits ≡ 0 }
        ensures failed_attaches { (round_robin_facts result).failed_attaches ≡ 0 }
    {
        RoundRobinNet {
            handles,
            each,
            first: 0,
            count: 0,
            attached: Vec::new(alloc),
            waits: 0,
            attaches: 0,
            fails_wait: None,
            fails_attach: None,
            failed_waits: 0,
            failed_attaches: 0,
        }
    }

    /// The same, whose wait and whose attach of these numbers fail.
    pub fn failing(self, wait: u64, attach: u64) -> RoundRobinNet
        ensures { round_robin_facts result ≡ round_robin_facts self }
    {
        RoundRobinNet {
            fails_wait: Some(wait),
            fails_attach: Some(attach),
            ..self
        }
    }

    // The handle of a report of a wait whose first report is of this handle.
    fn handle_at(&self, at: usize) -> u64
        ensures { result ≡ (reported self.now.handles self.now.first at).handle.0 }
    {
        self.first.saturating_add(at as u64) % self.handles.max(1)
    }
}

impl Net for RoundRobinNet {
    ghost use Rattle.ev_base.specs.Terms.{Terms};

    type End = PlayEnd;

    ghost facts = { round_robin_facts };

    ghost keeps = { λ t n. Unit {0} };

    fn wait(&mut self, _most_ms: Option<u64>) -> Waited {
        let number = self.waits;
        self.waits = number.saturating_add(1);
        if self.fails_wait == Some(number) {
            self.failed_waits = self.failed_waits.saturating_add(1);
            return Waited::Failed;
        }
        self.first = self.handle_at(self.count);
        if self.handles == 0 || self.each == 0 {
            self.count = 0;
            return Waited::Over { now: 0 };
        }
        let count = self.each.min(MOST_REPORTS);
        self.count = count;
        Waited::Reports { now: 0, count }
    }

    fn report(&self, at: usize) -> Report {
        Report {
            handle: Handle(self.handle_at(at)),
            kind: Kind::Read,
        }
    }

    fn reserve(&mut self, _n: usize) -> Result<(), NoMemory> {
        Ok(())
    }

    fn attach(&mut self, _end: &mut PlayEnd, handle: Handle, _mask: Mask) -> Result<(), NetFailed> {
        let number = self.attaches;
        self.attaches = number.saturating_add(1);
        if self.fails_attach == Some(number) || self.attached.insert(0, handle.0).is_err() {
            self.failed_attaches = self.failed_attaches.saturating_add(1);
            return Err(NetFailed);
        }
        Ok(())
    }

    fn set_mask(&mut self, _handle: Handle, _mask: Mask) {}

    fn retire(&mut self, handle: Handle, _end: PlayEnd) {
        self.attached.retain(|h| *h != handle.0);
    }

    fn turn_away(&mut self, _end: PlayEnd) {}

    ghost sound = { λ net steady. cc };

    ghost keeps_groups = { λ t net keeps. tt };
}

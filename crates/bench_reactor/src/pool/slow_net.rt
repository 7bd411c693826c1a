//! A net that waits long, and that a waker wakes.
ghost use Rattle.std.specs.Prelude.{◌≡◌, [], IfOk};
ghost use Rattle.bench_reactor.specs.SlowNet.{slow_facts};

use demux::PlayEnd;
use ev_base::{Handle, Mask, Net, NetFailed, NoMemory, Report, Waited, Wake};
use std::alloc::Global;
use std::sync::{Arc, Wait};
use std::thread::Parker;
use std::time::Duration;

/// How many milliseconds a wait lasts that has no limit.
const LONG: u64 = 10_000;

/// A demultiplexer that reports nothing: each wait lasts until it is woken, or 10 seconds. It keeps
/// no masks, forgets the ends that it is given back, and stands at moment 0. An attach that finds
/// no memory fails.
#[derive(Drop)]
pub struct SlowNet<R> {
    rt: R,
    parker: Arc<Parker, Global>,
    // The latest first.
    attached: Vec<u64>,
    failed_attaches: u64,
    // What the last wait reported.
    reports: Vec<Report>,
}

/// Wakes such a net.
#[derive(Drop)]
pub struct SlowWake {
    parker: Arc<Parker, Global>,
}

impl<R: Copy> SlowNet<R> {
    /// One that has made no call, and its waker.
    pub fn new(alloc: Global, rt: &R) -> Result<(SlowNet<R>, SlowWake), NoMemory>
        ensures { IfOk result (λ made. ((slow_facts made.0).attached ≡ [])
            × ((slow_facts made.0).failed_attaches ≡ 0) × ((slow_facts made.0).reports ≡ [])) }
    {
        let parker = Arc::new(alloc, Parker::new())?;
        let waker = SlowWake {
            parker: Arc::try_clone(&parker)?,
        };
        let net = SlowNet {
            rt: *rt,
            parker,
            attached: Vec::new(alloc),
            failed_attaches: 0,
            reports: Vec::new(alloc),
        };
        Ok((net, waker))
    }
}

impl Wake for SlowWake {
    fn wake(&self) {
        self.parker.unpark();
    }
}

impl<R: Wait> Net for SlowNet<R> {
    ghost use Rattle.ev_base.specs.Terms.{Terms};

    type End = PlayEnd;

    ghost facts = { slow_facts };

    ghost keeps = { λ t n. Unit {0} };

    fn wait(&mut self, most_ms: Option<u64>) -> Waited {
        let limit = most_ms.unwrap_or(LONG);
        self.parker
            .park_timeout(&self.rt, Duration::from_millis(limit));
        self.reports.clear();
        Waited::Quiet { now: 0 }
    }

    fn report(&self, at: usize) -> Report {
        self.reports[at]
    }

    fn reserve(&mut self, _n: usize) -> Result<(), NoMemory> {
        Ok(())
    }

    fn attach(&mut self, _end: &mut PlayEnd, handle: Handle, _mask: Mask) -> Result<(), NetFailed> {
        if self.attached.insert(0, handle.0).is_err() {
            self.failed_attaches = self.failed_attaches.saturating_add(1);
            return Err(NetFailed);
        }
        Ok(())
    }

    fn set_mask(&mut self, _handle: Handle, _mask: Mask) {}

    fn retire(&mut self, handle: Handle, _end: PlayEnd) {
        self.attached.retain(|h| *h != handle.0);
    }

    fn turn_away(&mut self, _end: PlayEnd) {}

    ghost sound = { λ net steady. cc };

    ghost keeps_groups = { λ t net keeps. tt };
}

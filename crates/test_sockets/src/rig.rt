//! A net that looks at run time whether its conditions hold, so that tests may call it in any
//! order.
ghost use Rattle.std.specs.Prelude.{◌≡◌, ◌≤◌, ◌<◌, [], vec_len, vec_capacity, OnOk};
ghost use Rattle.demux_mio.specs.Nets.{mio_net_facts};

use demux_mio::{MioEnd, MioNet};
use ev_base::{Got, Handle, Mask, Net, NoMemory, PeerEnd, Report, Sent, Taken, Waited};
use std::alloc::Global;

/// A net, the handles that are attached, the latest first, and the reports of its last wait.
#[derive(Drop)]
pub struct Rig {
    net: MioNet<HostRuntime>,
    attached: Vec<u64>,
    reports: Vec<Report>,
    ghost same: { (mio_net_facts net).attached ≡ attached.items },
}

impl Rig {
    pub fn new(alloc: Global, net: MioNet<HostRuntime>) -> Rig
        requires { (mio_net_facts net).attached ≡ [] }
    {
        Rig {
            net,
            attached: Vec::new(alloc),
            reports: Vec::new(alloc),
        }
    }

    fn make_room(&mut self) -> Result<(), NoMemory>
        ensures attached { self.new.attached.items ≡ self.old.attached.items }
        ensures place { OnOk result (1 ≤ (mio_net_facts self.new.net).spare) }
        ensures room { OnOk result (vec_len self.new.attached < vec_capacity self.new.attached) }
    {
        self.attached.reserve(1)?;
        self.net.reserve(1)
    }

    /// Attaches an end under a handle that is not attached.
    pub fn attach(&mut self, end: &mut MioEnd, handle: u64, mask: Mask) -> bool {
        if self.attached.contains(&handle) || self.make_room().is_err() {
            return false;
        }
        match self.net.attach(end, Handle(handle), mask) {
            Ok(()) => match self.attached.insert(0, handle) {
                Ok(()) => true,
                Err(_) => unreachable!(),
            },
            Err(_) => false,
        }
    }

    /// Sets the mask of a handle that is attached.
    pub fn set_mask(&mut self, handle: u64, mask: Mask) -> bool {
        let attached = self.attached.contains(&handle);
        if attached {
            self.net.set_mask(Handle(handle), mask);
        }
        attached
    }

    /// Retires an end whose handle is attached.
    pub fn retire(&mut self, handle: u64, end: MioEnd) -> bool {
        let attached = self.attached.contains(&handle);
        if attached {
            self.net.retire(Handle(handle), end);
            self.attached.retain(|h| *h != handle);
        }
        attached
    }

    /// Waits, keeps the reports, and tells the moment.
    pub fn wait(&mut self, most_ms: Option<u64>) -> Option<u64> {
        let (now, count) = match self.net.wait(most_ms) {
            Waited::Reports { now, count } => (now, count),
            Waited::Quiet { now } => (now, 0),
            Waited::Over { .. } | Waited::Failed => return None,
        };
        let net = &self.net;
        let reports = &mut self.reports;
        reports.clear();
        let mut are_kept = true;
        for at in 0..count {
            are_kept &= reports.push(net.report(at)).is_ok();
        }
        if are_kept { Some(now) } else { None }
    }

    /// The reports of the last wait.
    pub fn reports(&self) -> &[Report] {
        self.reports.as_slice()
    }
}

/// Reads from an end that is no listener.
pub fn read(end: &mut MioEnd, buf: &mut [u8]) -> Got {
    if end.is_listener() || buf.is_empty() {
        return Got::Failed;
    }
    end.read(buf)
}

/// Writes to an end that is no listener.
pub fn write(end: &mut MioEnd, piece: &[u8]) -> Sent {
    if end.is_listener() || piece.is_empty() {
        return Sent::Failed;
    }
    end.write(piece)
}

/// Accepts from a listener.
pub fn accept(end: &mut MioEnd) -> Taken<MioEnd> {
    if !end.is_listener() {
        return Taken::Failed;
    }
    end.accept()
}

//! A net over loopback with a listener, its connections and their peers.

use crate::rig::{Rig, accept, read, write};
use demux_mio::{MioEnd, MioHost, MioWake};
use ev_base::{Got, Handle, Host, Kind, Mask, Report, Sent, Taken};
use std::alloc::Global;
use std::io::{Read, Write};
use std::net::{Ipv4Addr, SocketAddr, TcpStream};
use std::test::Fail;

pub const BOTH: Mask = Mask {
    read: true,
    write: true,
    except: false,
};

/// What a test says if it can't go on.
pub fn failed<T>(why: &'static str) -> Result<T, Fail> {
    Err(Fail::from(why))
}

/// A net whose listener has handle 0, and its connections by number: number n has handle n + 1.
#[derive(Drop)]
pub struct Stand {
    rt: HostRuntime,
    alloc: Global,
    rig: Rig,
    listener: MioEnd,
    port: u16,
    peers: Vec<Option<TcpStream>>,
    ends: Vec<Option<MioEnd>>,
    /// How many bytes were written to fill the first connection.
    filled: usize,
}

/// Whether there are reports, and each is this one.
fn are_all(reports: &[Report], wanted: Report) -> bool {
    let mut are_well = !reports.is_empty();
    for report in reports {
        are_well &= *report == wanted;
    }
    are_well
}

fn handle_of(number: usize) -> u64 {
    (number as u64).saturating_add(1)
}

impl Stand {
    /// A net whose listener has a port that was free, and what wakes the net.
    pub fn open(rt: HostRuntime, alloc: Global) -> Result<(Stand, MioWake), Fail> {
        Stand::listen(rt, alloc, MioHost::new(rt))
    }

    /// A net as `open` makes it, of this host.
    pub fn listen(
        rt: HostRuntime,
        alloc: Global,
        mut host: MioHost<HostRuntime>,
    ) -> Result<(Stand, MioWake), Fail> {
        match host.listen(alloc, 0) {
            Ok((net, listener, waker)) => {
                let rig = Rig::new(alloc, net);
                Ok((Stand::over(rt, alloc, rig, listener), waker))
            }
            Err(_) => failed("no listener"),
        }
    }

    /// A stand over what was opened.
    fn over(rt: HostRuntime, alloc: Global, rig: Rig, listener: MioEnd) -> Stand {
        Stand {
            rt,
            alloc,
            rig,
            port: listener.port().unwrap_or(0),
            listener,
            peers: Vec::new(alloc),
            ends: Vec::new(alloc),
            filled: 0,
        }
    }

    pub fn port(&self) -> u16 {
        self.port
    }

    /// Attaches the listener, if its port is known.
    pub fn watch(&mut self) -> bool {
        self.port > 0 && self.rig.attach(&mut self.listener, 0, Mask::READ)
    }

    /// A peer connects.
    pub fn connect(&mut self) -> bool {
        let address = SocketAddr::from((Ipv4Addr::LOCALHOST, self.port));
        match TcpStream::connect(&self.rt, address) {
            Ok(peer) => self.peers.push(Some(peer)).is_ok(),
            Err(_) => false,
        }
    }

    /// Accepts once, and tells what that gave. A connection has the next number, if there was
    /// memory for it.
    pub fn accept(&mut self) -> Taken<bool> {
        match accept(&mut self.listener) {
            Taken::One(end) => Taken::One(self.ends.push(Some(end)).is_ok()),
            Taken::Pause => Taken::Pause,
            Taken::Failed => Taken::Failed,
        }
    }

    /// Accepts a connection, after waits if none is there yet.
    pub fn accept_one(&mut self) -> bool {
        for _ in 0..100 {
            match self.accept() {
                Taken::One(is_kept) => return is_kept,
                Taken::Pause if self.sees(0, Kind::Read) => {}
                _ => return false,
            }
        }
        false
    }

    /// Attaches the end of a connection with this mask.
    pub fn attach(&mut self, number: usize, mask: Mask) -> bool {
        match self.ends.get_mut(number) {
            Some(Some(end)) => self.rig.attach(end, handle_of(number), mask),
            _ => false,
        }
    }

    /// A peer connects, and its connection is accepted and attached. No other waits.
    pub fn join(&mut self, mask: Mask) -> bool {
        let number = self.ends.len();
        self.connect()
            && self.accept_one()
            && self.attach(number, mask)
            && matches!(self.accept(), Taken::Pause)
    }

    /// Waits, and tells the moment.
    pub fn wait(&mut self, most_ms: Option<u64>) -> Option<u64> {
        self.rig.wait(most_ms)
    }

    /// The reports of the last wait.
    pub fn reports(&self) -> &[Report] {
        self.rig.reports()
    }

    /// A wait gives one report, of this handle and kind. It comes within ten seconds.
    pub fn sees(&mut self, handle: u64, kind: Kind) -> bool {
        self.sees_at(handle, kind).is_some()
    }

    /// The moment of such a wait.
    pub fn sees_at(&mut self, handle: u64, kind: Kind) -> Option<u64> {
        let wanted = Report {
            handle: Handle(handle),
            kind,
        };
        let now = self.wait(Some(10_000))?;
        if self.reports() == [wanted].as_slice() {
            Some(now)
        } else {
            None
        }
    }

    /// A wait gives reports of this handle and kind alone. They come within ten seconds.
    pub fn hears(&mut self, handle: u64, kind: Kind) -> bool {
        let wanted = Report {
            handle: Handle(handle),
            kind,
        };
        self.wait(Some(10_000)).is_some() && are_all(self.reports(), wanted)
    }

    /// A wait of so many milliseconds gives no report.
    pub fn is_quiet(&mut self, most_ms: u64) -> bool {
        self.ends_quietly(Some(most_ms))
    }

    /// A wait with this limit gives no report.
    pub fn ends_quietly(&mut self, most_ms: Option<u64>) -> bool {
        self.wait(most_ms).is_some() && self.reports().is_empty()
    }

    pub fn set_mask(&mut self, number: usize, mask: Mask) -> bool {
        self.rig.set_mask(handle_of(number), mask)
    }

    pub fn read(&mut self, number: usize, buf: &mut [u8]) -> Got {
        match self.ends.get_mut(number) {
            Some(Some(end)) => read(end, buf),
            _ => Got::Failed,
        }
    }

    pub fn write(&mut self, number: usize, piece: &[u8]) -> Sent {
        match self.ends.get_mut(number) {
            Some(Some(end)) => write(end, piece),
            _ => Sent::Failed,
        }
    }

    /// A connection's end is retired.
    pub fn retire(&mut self, number: usize) -> bool {
        match self.take_end(number) {
            Some(end) => self.rig.retire(handle_of(number), end),
            None => false,
        }
    }

    /// The end of a connection is taken away, for another thread.
    pub fn take_end(&mut self, number: usize) -> Option<MioEnd> {
        self.ends.get_mut(number)?.take()
    }

    /// A peer sends bytes.
    pub fn send(&mut self, number: usize, bytes: &[u8]) -> bool {
        match self.peers.get_mut(number) {
            Some(Some(peer)) => peer.write_all(bytes).is_ok(),
            _ => false,
        }
    }

    /// A peer reads once, and tells how many bytes it got.
    pub fn receive(&mut self, number: usize, buf: &mut [u8]) -> Option<usize> {
        match self.peers.get_mut(number) {
            Some(Some(peer)) => peer.read(buf).ok(),
            _ => None,
        }
    }

    /// A peer closes its connection.
    pub fn hang_up(&mut self, number: usize) -> bool {
        match self.peers.get_mut(number) {
            Some(peer) => peer.take().is_some(),
            None => false,
        }
    }

    /// Counts bytes that were written to fill the first connection.
    pub fn add_filled(&mut self, count: usize) {
        self.filled = self.filled.saturating_add(count);
    }

    pub fn filled(&self) -> usize {
        self.filled
    }

    /// Another host.
    pub fn host(&self) -> MioHost<HostRuntime> {
        MioHost::new(self.rt)
    }

    pub fn runtime(&self) -> HostRuntime {
        self.rt
    }

    pub fn alloc(&self) -> Global {
        self.alloc
    }
}

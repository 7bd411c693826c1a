//! What makes connections and their nets.
ghost use Rattle.std.specs.Prelude.{◌≡◌, []};

use crate::net::WAKER;
use crate::shared::Shared;
use crate::socket::{Socket, without_delay};
use crate::{MioEnd, MioNet};
use ev_base::{DialRefused, Dialer, PortLog};
use mio::net::TcpStream;
use mio::{Poll, Waker};
use std::alloc::Global;
use std::io;
use std::net::{IpAddr, Ipv4Addr, Net as Sockets, SocketAddr};
use std::sync::Arc;
use std::time::{Clock, Instant};

/// A dialler of connections to one address, 127.0.0.1 unless `set_address` says another. It keeps
/// the runtime, of which sockets and the clock are asked.
#[derive(Drop)]
pub struct MioDialer<R> {
    rt: R,
    address: IpAddr,
    faults: u64,
    ports: PortLog,
}

/// What the system gave for a connection.
#[derive(Drop)]
struct Begun {
    poll: Poll,
    stream: TcpStream,
    shared: Shared,
    start: Instant,
}

impl<R: Sockets + Clock + Copy> MioDialer<R> {
    ghost use Rattle.demux_mio.specs.Hosts.{mio_dialer_faults, mio_dialer_ports};

    /// A dialler that made no call.
    pub fn new(rt: R) -> MioDialer<R>
        ensures faults { mio_dialer_faults result ≡ 0 }
        ensures ports { mio_dialer_ports result ≡ [] }
    {
        MioDialer {
            rt,
            address: IpAddr::V4(Ipv4Addr::LOCALHOST),
            faults: 0,
            ports: PortLog::none(),
        }
    }

    /// From now on it dials this address. One that can't be reached fails, at once or when the
    /// connection is asked for.
    pub fn set_address(&mut self, address: IpAddr)
        ensures faults { mio_dialer_faults self.new ≡ mio_dialer_faults self.old }
        ensures ports { mio_dialer_ports self.new ≡ mio_dialer_ports self.old }
    {
        self.address = address;
    }

    /// Asks the system for all that a connection wants.
    fn begin(&self, port: u16) -> io::Result<Begun> {
        let poll = Poll::new(&self.rt)?;
        let waker = Waker::new(poll.registry(), WAKER)?;
        let shared = Shared::new(poll.registry().try_clone()?, waker);
        let address = SocketAddr::from((self.address, port));
        let stream = without_delay(TcpStream::connect(&self.rt, address)?);
        let start = Instant::now(&self.rt)?;
        Ok(Begun {
            poll,
            stream,
            shared,
            start,
        })
    }
}

impl<R: Sockets + Clock + Copy> Dialer for MioDialer<R> {
    ghost use Rattle.demux_mio.specs.Hosts.{mio_dialer_faults, mio_dialer_keeps, mio_dialer_ports};

    type End = MioEnd;

    type Net = MioNet<R>;

    ghost faults = { mio_dialer_faults };

    ghost ports = { mio_dialer_ports };

    ghost keeps = { mio_dialer_keeps };

    fn dial(&mut self, alloc: Global, port: u16) -> Result<(MioNet<R>, MioEnd), DialRefused> {
        self.ports.add(port);
        let Ok(begun) = self.begin(port) else {
            self.faults = self.faults.saturating_add(1);
            return Err(DialRefused::Failed);
        };
        let Begun {
            poll,
            stream,
            shared,
            start,
        } = begun;
        let Ok(end) = MioEnd::new(alloc, Socket::connecting(stream), false) else {
            return Err(DialRefused::NoMemory);
        };
        let Ok(shared) = Arc::new(alloc, shared) else {
            return Err(DialRefused::NoMemory);
        };
        let Ok(net) = MioNet::new(self.rt, alloc, poll, shared, None, None, start) else {
            return Err(DialRefused::NoMemory);
        };
        Ok((net, end))
    }

    ghost keeps_open = { λ t dialer leaves. leaves.offers };
}

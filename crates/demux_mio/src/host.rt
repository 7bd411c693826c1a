//! What makes nets and listeners of sockets.
ghost use Rattle.std.specs.Prelude.{◌≡◌};

use crate::closer::Closer;
use crate::control::Control;
use crate::net::WAKER;
use crate::shared::{Shared, Sharing};
use crate::socket::Socket;
use crate::{MioEnd, MioNet};
use ev_base::{Host, ListenRefused, PortLog, Wake};
use mio::net::TcpListener;
use mio::{Poll, Waker};
use std::alloc::Global;
use std::io;
use std::io::Stdin;
use std::net::{IpAddr, Ipv4Addr, Net as Sockets, SocketAddr};
use std::sync::{Arc, Wait};
use std::thread::Threads;
use std::time::{Clock, Instant};

/// What wakes a waiting net. Any thread may call it.
#[derive(Drop)]
pub struct MioWake {
    shared: Sharing,
}

impl Wake for MioWake {
    fn wake(&self) {
        self.shared.wake();
    }
}

/// A host of sockets on one address, 127.0.0.1 unless it is told another one. It keeps the runtime,
/// of which sockets and the clock are asked.
#[derive(Drop)]
pub struct MioHost<R> {
    rt: R,
    address: IpAddr,
    faults: u64,
    ports: PortLog,
    closer: Option<Closer>,
    control: Option<Stdin>,
}

/// The address of this machine alone.
const LOCAL: IpAddr = IpAddr::V4(Ipv4Addr::LOCALHOST);

/// What the system gave for a listener.
#[derive(Drop)]
struct Opened {
    poll: Poll,
    listener: TcpListener,
    shared: Shared,
    control: Option<Control>,
    start: Instant,
}

impl<R: Sockets + Clock + Copy> MioHost<R> {
    ghost use Rattle.demux_mio.specs.Hosts.{mio_host_faults, mio_host_ports};

    /// A host that made no call. Its nets close a connection when its end is retired.
    pub fn new(rt: R) -> MioHost<R>
        ensures { mio_host_faults result ≡ 0 }
    {
        MioHost {
            rt,
            address: LOCAL,
            faults: 0,
            ports: PortLog::none(),
            closer: None,
            control: None,
        }
    }

    /// From now on it listens to this address. One that is none of this machine's fails each
    /// `listen`.
    pub fn set_address(&mut self, address: IpAddr)
        ensures faults { mio_host_faults self.new ≡ mio_host_faults self.old }
        ensures ports { mio_host_ports self.new ≡ mio_host_ports self.old }
    {
        self.address = address;
    }

    /// From now on its nets watch standard input too. Once that is at its end their waits answer
    /// Over; bytes that come there are passed over. A pipe, a FIFO, a socket and a terminal are
    /// watched with the sockets, without a thread. A file cannot be watched, and counts as at its
    /// end from the start. If standard input is closed, or cannot be watched for another cause,
    /// each `listen` fails. Nobody else may read it meanwhile: a read that was to find bytes could
    /// wait then.
    pub fn set_control(&mut self, input: Stdin)
        ensures faults { mio_host_faults self.new ≡ mio_host_faults self.old }
        ensures ports { mio_host_ports self.new ≡ mio_host_ports self.old }
    {
        self.control = Some(input);
    }

    /// Asks the system for all that a listener wants.
    fn open(&self, port: u16) -> io::Result<Opened> {
        let poll = Poll::new(&self.rt)?;
        let waker = Waker::new(poll.registry(), WAKER)?;
        let shared = Shared::new(poll.registry().try_clone()?, waker);
        let address = SocketAddr::from((self.address, port));
        let listener = TcpListener::bind(&self.rt, address)?;
        let control = match self.control {
            Some(input) => Some(Control::watch(poll.registry(), input)?),
            None => None,
        };
        let start = Instant::now(&self.rt)?;
        Ok(Opened {
            poll,
            listener,
            shared,
            control,
            start,
        })
    }
}

impl<R: Sockets + Clock + Threads + Wait + Copy + Send + 'static> MioHost<R> {
    ghost use Rattle.demux_mio.specs.Hosts.{mio_host_faults};

    /// A host that made no call, with a thread that closes the connections whose ends were retired.
    /// So a reactor does not keep its token for that, which takes longer than to read from one. It
    /// is worth a thread if several lead in turn, and many connections are short. If there is
    /// no memory for it, or no thread, the host is as `new` makes it. The thread ends after the
    /// host and the nets that it made.
    pub fn with_closer(rt: R, alloc: Global) -> MioHost<R>
        ensures { mio_host_faults result ≡ 0 }
    {
        MioHost {
            rt,
            address: LOCAL,
            faults: 0,
            ports: PortLog::none(),
            closer: Closer::start(rt, alloc),
            control: None,
        }
    }
}

impl<R: Sockets + Clock + Copy> Host for MioHost<R> {
    ghost use Rattle.ev_base.specs.Host.{LeavesHostOpen};
    ghost use Rattle.demux_mio.specs.Hosts.{mio_host_faults, mio_host_keeps, mio_host_ports};

    type End = MioEnd;

    type Net = MioNet<R>;

    type Waker = MioWake;

    ghost faults = { mio_host_faults };

    ghost ports = { mio_host_ports };

    ghost keeps = { mio_host_keeps };

    fn listen(
        &mut self,
        alloc: Global,
        port: u16,
    ) -> Result<(MioNet<R>, MioEnd, MioWake), ListenRefused> {
        self.ports.add(port);
        let Ok(opened) = self.open(port) else {
            self.faults = self.faults.saturating_add(1);
            return Err(ListenRefused::Failed);
        };
        let Opened {
            poll,
            listener,
            shared,
            control,
            start,
        } = opened;
        let Ok(end) = MioEnd::new(alloc, Socket::listening(listener), true) else {
            return Err(ListenRefused::NoMemory);
        };
        let Ok(shared) = Arc::new(alloc, shared) else {
            return Err(ListenRefused::NoMemory);
        };
        let Ok(theirs) = Arc::try_clone(&shared) else {
            return Err(ListenRefused::NoMemory);
        };
        let Ok(closer) = self.closer.as_ref().map(Closer::try_clone).transpose() else {
            return Err(ListenRefused::NoMemory);
        };
        let Ok(net) = MioNet::new(self.rt, alloc, poll, shared, closer, control, start) else {
            return Err(ListenRefused::NoMemory);
        };
        let waker = MioWake { shared: theirs };
        Ok((net, end, waker))
    }

    ghost keeps_open = { λ t host leaves. leaves.offers };
}

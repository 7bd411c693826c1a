//! The end of a socket.
ghost use Rattle.std.specs.Prelude.{◌≡◌, true, false, None, IfOk, OnErr};
ghost use Rattle.ev_base.specs.End.{IsFresh, KeptByGiven};
ghost use Rattle.demux_mio.specs.Ends.{mio_end_facts, mio_end_keeps, IsNewConnection};
ghost use Rattle.demux_mio.specs.NoStory.{keeps_no_story};
ghost use Rattle.demux_mio.specs.Accepts.{TakenOf};

use crate::socket::{Accepted, Place, Socket};
use ev_base::{DialEnd, Finish, Got, NoMemory, PeerEnd, Sent, Taken};
use ghost_log::Tally;
use mio::net::TcpStream;
use std::alloc::Global;
use std::io;

/// What a call came to.
#[derive(Clone, Copy)]
enum Came {
    Moved(usize),
    Accepted,
    Paused,
    WasOver,
    Faulted,
}

/// The end of a TCP connection, or a listener. Dropped, it closes its socket.
#[derive(Drop)]
pub struct MioEnd {
    // In a box, so that a handler that has an end is cheap to move.
    state: Box<EndState>,
}

/// What an end has.
#[derive(Drop)]
struct EndState {
    socket: Socket,
    listener: bool,
    reads: u64,
    last_read: Option<Came>,
    writes: u64,
    last_write: Option<Came>,
    finishes: u64,
    last_finish: Option<Finish>,
    faults: u64,
    gave: Tally,
    over: bool,
}

impl MioEnd {
    /// The end of a socket that made no call. If there is no memory for it the socket is closed.
    pub(crate) fn new(alloc: Global, socket: Socket, listener: bool) -> Result<MioEnd, NoMemory>
        ensures fresh { IfOk result (λ end. IsFresh (mio_end_facts end)) }
        ensures listener { IfOk result (λ end. (mio_end_facts end).listener ≡ listener) }
    {
        let state = EndState {
            socket,
            listener,
            reads: 0,
            last_read: None,
            writes: 0,
            last_write: None,
            finishes: 0,
            last_finish: None,
            faults: 0,
            gave: Tally::none(),
            over: false,
        };
        Ok(MioEnd {
            state: Box::new(alloc, state)?,
        })
    }

    /// The port that it has on this side, if the system tells it. So who listens on port 0
    /// learns which was free.
    pub fn port(&self) -> Option<u16> {
        self.state.socket.port()
    }

    /// Has its socket watched.
    pub(crate) fn watch(&mut self, place: Place) -> io::Result<()>
        ensures { mio_end_facts self.new ≡ mio_end_facts self.old }
    {
        self.state.socket.watch(place)
    }

    /// Has its socket watched no longer.
    pub(crate) fn unwatch(&mut self)
        ensures { mio_end_facts self.new ≡ mio_end_facts self.old }
    {
        self.state.socket.unwatch();
    }

    /// Gives up its connection, if it has one. A listener is closed.
    pub(crate) fn into_stream(self) -> Option<TcpStream> {
        let MioEnd { state } = self;
        let EndState {
            socket,
            listener: _,
            reads: _,
            last_read: _,
            writes: _,
            last_write: _,
            finishes: _,
            last_finish: _,
            faults: _,
            gave: _,
            over: _,
        } = Box::into_inner(state);
        socket.into_stream()
    }
}

/// Takes the next connection into the end that was made for it. If there was no memory to make
/// one, the system is not asked, so the connection waits on, and the accept has failed.
fn next_end(socket: &mut Socket, made: Result<MioEnd, NoMemory>) -> Taken<MioEnd>
    requires { IfOk made IsNewConnection }
    ensures given { KeptByGiven IsNewConnection result }
    ensures no_memory { OnErr made (result ≡ Taken.Failed) }
{
    let Ok(end) = made else {
        socket.note_failed_accept();
        return Taken::Failed;
    };
    taken_of(socket.accept(), end)
}

/// What an accept comes to, by what the system gave: the end that was made for it has its
/// connection.
fn taken_of(accepted: Accepted, mut end: MioEnd) -> Taken<MioEnd>
    ensures { TakenOf accepted end result }
{
    match accepted {
        Accepted::One(stream) => {
            end.state.socket.open(stream);
            Taken::One(end)
        }
        Accepted::None => Taken::Pause,
        Accepted::Failed => Taken::Failed,
    }
}

impl PeerEnd for MioEnd {
    ghost tells = { mio_end_facts };

    ghost keeps = { mio_end_keeps };

    fn is_listener(&self) -> bool {
        self.state.listener
    }

    fn read(&mut self, buf: &mut [u8]) -> Got {
        let state = self.state.as_mut();
        let got = if state.over {
            Got::Over
        } else {
            state.socket.read(buf)
        };
        state.reads = state.reads.saturating_add(1);
        match got {
            Got::Bytes(count) => {
                state.last_read = Some(Came::Moved(count));
                state.gave.add(count);
            }
            Got::Pause => state.last_read = Some(Came::Paused),
            Got::Over => {
                state.last_read = Some(Came::WasOver);
                state.over = true;
            }
            Got::Failed => {
                state.last_read = Some(Came::Faulted);
                state.faults = state.faults.saturating_add(1);
            }
        }
        got
    }

    fn write(&mut self, piece: &[u8]) -> Sent {
        let state = self.state.as_mut();
        let sent = state.socket.write(piece);
        state.writes = state.writes.saturating_add(1);
        match sent {
            Sent::Bytes(count) => state.last_write = Some(Came::Moved(count)),
            Sent::Pause => state.last_write = Some(Came::Paused),
            Sent::Failed => {
                state.last_write = Some(Came::Faulted);
                state.faults = state.faults.saturating_add(1);
            }
        }
        sent
    }

    /// The memory for the new end is taken before the system is asked for a connection, so that
    /// none is taken and lost. Want of it is told as a failed accept: the connection waits in the
    /// system's queue, and the net reports the listener again after a while.
    fn accept(&mut self) -> Taken<MioEnd> {
        let made = MioEnd::new(*Box::allocator(&self.state), Socket::unopened(), false);
        let state = self.state.as_mut();
        let taken = next_end(&mut state.socket, made);
        state.reads = state.reads.saturating_add(1);
        match taken {
            Taken::One(_) => state.last_read = Some(Came::Accepted),
            Taken::Pause => state.last_read = Some(Came::Paused),
            Taken::Failed => {
                state.last_read = Some(Came::Faulted);
                state.faults = state.faults.saturating_add(1);
            }
        }
        taken
    }

    ghost keeps_story = { keeps_no_story };
}

impl DialEnd for MioEnd {
    fn finish(&mut self) -> Finish {
        let state = self.state.as_mut();
        let answer = state.socket.finish();
        state.finishes = state.finishes.saturating_add(1);
        state.last_finish = Some(answer);
        if answer == Finish::Failed {
            state.faults = state.faults.saturating_add(1);
        }
        answer
    }
}

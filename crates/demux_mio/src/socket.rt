//! A socket, and where it is watched.
ghost use Rattle.std.specs.Prelude.{◌≡◌, ◌≤◌, ◌<◌, length};
ghost use Rattle.demux_mio.specs.Moves.{GotOf, GotWithin, GotFrom, SentOf, SentWithin, SentTo};

use crate::readiness::Signs;
use crate::shared::Sharing;
use ev_base::{Finish, Got, Kind, Sent, read_again, write_some};
use mio::net::{TcpListener, TcpStream};
use mio::{Interest, Token};
use std::io;
use std::io::{ErrorKind, Read, Write};
use std::net::SocketAddr;

/// How often an interrupted accept, or one of a connection that was aborted, is tried again.
const TRIES: usize = 64;

/// How many reads in a row may give bytes before one pauses.
const MOST_IN_A_ROW: u32 = 4;

#[derive(Drop)]
enum Opened {
    // There is no socket yet: its calls fail.
    Nothing,
    Listener(TcpListener),
    Stream(TcpStream),
}

/// Where a socket is watched: by which net, under which token, and what it is ready for.
#[derive(Drop)]
pub(crate) struct Place {
    pub(crate) shared: Sharing,
    pub(crate) token: Token,
    pub(crate) signs: Signs,
}

/// A socket, where it is watched, and how many reads in a row gave bytes.
#[derive(Drop)]
pub(crate) struct Socket {
    opened: Opened,
    place: Option<Place>,
    in_a_row: u32,
    ghost few: { in_a_row ≤ 4 },
}

/// What an accept of a socket gave.
#[derive(Drop)]
pub(crate) enum Accepted {
    One(TcpStream),
    None,
    Failed,
}

/// What sockets are watched for.
fn both_ways() -> Interest {
    Interest::READABLE | Interest::WRITABLE
}

impl Socket {
    pub(crate) fn listening(listener: TcpListener) -> Socket {
        Socket::new(Opened::Listener(listener))
    }

    /// One that is not opened yet. Until then its calls fail.
    pub(crate) fn unopened() -> Socket {
        Socket::new(Opened::Nothing)
    }

    fn new(opened: Opened) -> Socket {
        Socket {
            opened,
            place: None,
            in_a_row: 0,
        }
    }

    /// The socket of a connection that is being made.
    pub(crate) fn connecting(stream: TcpStream) -> Socket {
        Socket::new(Opened::Stream(stream))
    }

    /// Makes it the socket of this connection.
    pub(crate) fn open(&mut self, stream: TcpStream)
        ensures { self.new ≡ record self.old { opened = Opened.Stream stream } }
    {
        self.opened = Opened::Stream(stream);
    }

    /// The port that it is bound to, if the system tells it.
    pub(crate) fn port(&self) -> Option<u16> {
        let address = match &self.opened {
            Opened::Nothing => return None,
            Opened::Listener(listener) => listener.local_addr(),
            Opened::Stream(stream) => stream.local_addr(),
        };
        match address {
            Ok(address) => Some(address.port()),
            Err(_) => None,
        }
    }

    /// Begins to watch it.
    pub(crate) fn watch(&mut self, place: Place) -> io::Result<()> {
        let registry = &place.shared.registry;
        match &mut self.opened {
            Opened::Nothing => return Err(io::Error::from(ErrorKind::NotConnected)),
            Opened::Listener(listener) => registry.register(listener, place.token, both_ways())?,
            Opened::Stream(stream) => registry.register(stream, place.token, both_ways())?,
        }
        self.place = Some(place);
        Ok(())
    }

    /// Ends that it is watched, if it was.
    pub(crate) fn unwatch(&mut self) {
        if let Some(place) = self.place.take() {
            let registry = &place.shared.registry;
            let _ = match &mut self.opened {
                Opened::Nothing => Ok(()),
                Opened::Listener(listener) => registry.deregister(listener),
                Opened::Stream(stream) => registry.deregister(stream),
            };
        }
    }

    /// Has the net report it again at the next wait, if it is ready then, and tells whether it
    /// will.
    fn report_again(&mut self) -> bool
        ensures { self.new.in_a_row ≡ self.old.in_a_row }
    {
        match (&self.place, &mut self.opened) {
            (Some(place), Opened::Stream(stream)) => place
                .shared
                .registry
                .reregister(stream, place.token, both_ways())
                .is_ok(),
            _ => false,
        }
    }

    /// A call of this kind is tried, which may pause.
    fn begin(&self, kind: Kind) {
        if let Some(place) = &self.place {
            place.signs.take_back(kind);
        }
    }

    /// A call of this kind did not pause.
    fn go_on(&self, kind: Kind) {
        if let Some(place) = &self.place {
            place.signs.note(kind);
        }
    }

    /// Gives up its connection, if it has one. A listener is closed.
    pub(crate) fn into_stream(self) -> Option<TcpStream> {
        let Socket {
            opened,
            place: _,
            in_a_row: _,
        } = self;
        match opened {
            Opened::Stream(stream) => Some(stream),
            Opened::Nothing | Opened::Listener(_) => None,
        }
    }

    /// Reads once. After so many reads in a row that gave bytes one pauses, and the net reports
    /// the socket again.
    pub(crate) fn read(&mut self, buf: &mut [u8]) -> Got
        requires { 0 < length buf.old }
        ensures { GotWithin result buf.new }
    {
        if self.ends_row() {
            return Got::Pause;
        }
        self.begin(Kind::Read);
        let got = match &mut self.opened {
            Opened::Stream(stream) => read_once(stream, buf),
            Opened::Listener(_) | Opened::Nothing => Got::Failed,
        };
        self.count(got);
        if got != Got::Pause {
            self.go_on(Kind::Read);
        }
        got
    }

    /// Whether the reads in a row are so many that the next pauses. If nobody would report the
    /// socket again none does.
    fn ends_row(&mut self) -> bool
        ensures { self.new.in_a_row < 4 }
    {
        if self.in_a_row < MOST_IN_A_ROW {
            return false;
        }
        self.in_a_row = 0;
        self.report_again()
    }

    /// Counts a read that was not yet in a row of the greatest length.
    fn count(&mut self, got: Got)
        requires { self.old.in_a_row < 4 }
    {
        self.in_a_row = match got {
            Got::Bytes(_) => self.in_a_row + 1,
            _ => 0,
        };
    }

    /// Writes once.
    pub(crate) fn write(&mut self, piece: &[u8]) -> Sent
        ensures { SentWithin result piece.now }
    {
        self.begin(Kind::Write);
        let sent = match &mut self.opened {
            Opened::Stream(stream) => write_once(stream, piece),
            Opened::Listener(_) | Opened::Nothing => Sent::Failed,
        };
        if sent != Sent::Pause {
            self.go_on(Kind::Write);
        }
        sent
    }

    /// Asks once whether its connection is made.
    pub(crate) fn finish(&mut self) -> Finish {
        self.begin(Kind::Write);
        let finish = finish_once(&self.opened);
        if finish != Finish::Pause {
            self.go_on(Kind::Write);
        }
        finish
    }

    /// Accepts once. The net hears of a failure, and reports the listener again after a while.
    pub(crate) fn accept(&mut self) -> Accepted {
        self.begin(Kind::Read);
        let Opened::Listener(listener) = &self.opened else {
            return Accepted::Failed;
        };
        match accept_again(listener) {
            Ok(stream) => {
                self.go_on(Kind::Read);
                Accepted::One(without_delay(stream))
            }
            Err(error) if error.kind() == ErrorKind::WouldBlock => Accepted::None,
            Err(_) => {
                self.note_failed_accept();
                Accepted::Failed
            }
        }
    }

    /// An accept failed, and did not pause: the net hears of it, and reports the listener again
    /// after a while.
    pub(crate) fn note_failed_accept(&self) {
        self.go_on(Kind::Read);
        if let Some(place) = &self.place {
            place.shared.note_failed_accept();
        }
    }
}

/// Lets what is written to a connection go out at once (TCP_NODELAY). One that refuses it stays as
/// it is.
pub(crate) fn without_delay(stream: TcpStream) -> TcpStream {
    let _ = stream.set_nodelay(true);
    stream
}

/// Reads once. If the reader knows its bytes, it gives the next of them.
pub(crate) fn read_once<R: Read>(reader: &mut R, buf: &mut [u8]) -> Got
    requires { 0 < length buf.old }
    ensures within { GotWithin result buf.new }
    ensures bytes { GotFrom (R.remaining reader.old) buf.new result (R.remaining reader.new) }
{
    got_of(read_again(reader, buf))
}

// Writes once. If the writer knows its bytes, they grow by those that it took.
fn write_once<W: Write>(writer: &mut W, piece: &[u8]) -> Sent
    ensures within { SentWithin result piece.now }
    ensures bytes { SentTo (W.contents writer.old) piece.now result (W.contents writer.new) }
{
    sent_of(write_some(writer, piece))
}

// The system tells of a failure, and of the other side's address once the connection is made.
fn finish_once(opened: &Opened) -> Finish {
    let Opened::Stream(stream) = opened else {
        return Finish::Failed;
    };
    match stream.take_error() {
        Ok(None) => finish_of(stream.local_addr(), stream.peer_addr()),
        Ok(Some(_)) | Err(_) => Finish::Failed,
    }
}

// A connection whose two sides have one address was made with itself: nobody listens there.
fn finish_of(near: io::Result<SocketAddr>, far: io::Result<SocketAddr>) -> Finish {
    match (near, far) {
        (Ok(near), Ok(far)) if near == far => Finish::Failed,
        (Ok(_), Ok(_)) => Finish::Done,
        (_, Err(error)) if error.kind() == ErrorKind::NotConnected => Finish::Pause,
        _ => Finish::Failed,
    }
}

// What a read into a buffer that is not empty came to.
fn got_of(outcome: io::Result<usize>) -> Got
    ensures { GotOf outcome result }
{
    match outcome {
        Ok(0) => Got::Over,
        Ok(count) => Got::Bytes(count),
        Err(error) if error.kind() == ErrorKind::WouldBlock => Got::Pause,
        Err(_) => Got::Failed,
    }
}

// What a write of a piece that is not empty came to.
fn sent_of(outcome: io::Result<usize>) -> Sent
    ensures { SentOf outcome result }
{
    match outcome {
        Ok(0) => Sent::Failed,
        Ok(count) => Sent::Bytes(count),
        Err(error) if error.kind() == ErrorKind::WouldBlock => Sent::Pause,
        Err(_) => Sent::Failed,
    }
}

fn is_passing(kind: ErrorKind) -> bool {
    kind == ErrorKind::Interrupted || kind == ErrorKind::ConnectionAborted
}

fn accept_again(listener: &TcpListener) -> io::Result<TcpStream> {
    for _ in 1..TRIES {
        match listener.accept() {
            Ok((stream, _)) => return Ok(stream),
            Err(error) if is_passing(error.kind()) => {}
            Err(error) => return Err(error),
        }
    }
    Ok(listener.accept()?.0)
}

//! The ends of connections, and listeners.
ghost use Rattle.std.specs.Prelude.{◌≡◌, ◌<◌, true, false, length};
ghost use Rattle.ev_base.specs.Terms.{Terms, KeepsOn};
ghost use Rattle.ev_base.specs.End.{EndFacts, EndReads, EndWrites, Accepts, KeptByGiven};
ghost use Rattle.ev_base.specs.KeepsStory.{KeepsStory};

use super::Got;

/// What a write to an end did.
#[derive(Clone, Copy, PartialEq, Eq, Debug)]
pub enum Sent {
    /// So many bytes from the front of the piece, at least one, were taken.
    Bytes(usize),
    /// There is no room now.
    Pause,
    /// The write failed, and the count of faults rose.
    Failed,
}

/// What an accept gave.
#[derive(Drop)]
pub enum Taken<E> {
    /// The end of a connection.
    One(E),
    /// No connection waits now. A net that watches the listener reports it again once one waits.
    Pause,
    /// The accept failed, and the count of faults rose. A net that watches the listener reports it
    /// again at a later wait, so that a connection that waits there still is not forgotten.
    Failed,
}

/// One end of a connection, or a listener, which gives ends. Its calls never wait. It counts its
/// reads and accepts, its writes, its faults and the bytes that its reads gave, and keeps what the
/// last of each call came to; if it tells them, also its bytes, its serial number and its story.
pub trait PeerEnd: Sized {
    /// What contracts see of an end.
    ghost tells: { Self → EndFacts };

    /// What it keeps under the terms that a run starts with.
    ghost keeps: { Terms → Self → Type 0 };

    /// Whether it is a listener.
    fn is_listener(&self) -> bool
        ensures { result ≡ (tells self.now).listener };

    /// Reads into a buffer that is not empty, from an end that is no listener.
    fn read(&mut self, buf: &mut [u8]) -> Got
        requires reader { (tells self.old).listener ≡ false }
        requires room { 0 < length buf.old }
        ensures reads { EndReads (tells self.old) buf.new result (tells self.new) }
        ensures kept { KeepsOn keeps self.old self.new };

    /// Writes a piece that is not empty to an end that is no listener. One that takes nothing and
    /// does not pause is at fault.
    fn write(&mut self, piece: &[u8]) -> Sent
        requires writer { (tells self.old).listener ≡ false }
        requires some { 0 < length piece.now }
        ensures writes { EndWrites (tells self.old) piece.now result (tells self.new) }
        ensures kept { KeepsOn keeps self.old self.new };

    /// Takes the next connection from a listener. The end that it gives is no listener and has made
    /// no call.
    fn accept(&mut self) -> Taken<Self>
        requires { (tells self.old).listener ≡ true }
        ensures accepts { Accepts tells (tells self.old) result (tells self.new) }
        ensures kept { KeepsOn keeps self.old self.new }
        ensures given { (t : Terms) → keeps t self.old → KeptByGiven (keeps t) result };

    /// What it keeps says that it keeps its story.
    ghost keeps_story: { (t : Terms) (end : Self) → keeps t end → KeepsStory t (tells end) };
}

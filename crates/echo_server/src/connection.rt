//! The handler of one connection.
ghost use Rattle.std.specs.Prelude.{◌≡◌, ◌≤◌, false, IsSome, Contains};
ghost use Rattle.reactor.specs.ev_types.specs.declared.upcall.Why.TheVariants.{Own};
ghost use Rattle.echo_server.specs.declared.note.EchoNote.{EchoNote};
ghost use Rattle.reactor.specs.ev_base.specs.Terms.{Terms};
ghost use Rattle.reactor.specs.ev_base.specs.Net.{NetAttaches};
ghost use Rattle.echo_server.specs.Echo.{ClosesAs, Serves, ServesInput, ServesOutput};
ghost use Rattle.echo_server.specs.Echo.{ServesTimeout, WritesOnce, IsClosing, at_start, none_wait};
ghost use Rattle.echo_server.specs.Echo.{some_wait};
ghost use Rattle.echo_server.specs.Connections.{end_of_connection, state_of, waiting_in, KeepsEnd};

use crate::ends::Peer;
use crate::waiting::{PIECE, Waiting};
use crate::{EchoNote, Ending};
use reactor::{Answer, Got, Handle, Mask, Net, NetFailed, PeerEnd, Sent, Upcall, Why};

/// The handler of one connection: it reads a piece, writes it back, and reads no more until all of
/// it was taken. It closes itself at the end of its input, if a call fails, and at a timeout
/// if no byte went either way since the one before.
pub struct EchoConnection<E: PeerEnd> {
    peer: Peer<E>,
    waiting: Waiting,
    moved: bool,
    ended: Option<Ending>,
}

/// What a turn did: its answer, and how many bytes it read and wrote back.
#[derive(Clone, Copy)]
pub(crate) struct Step {
    pub(crate) answer: Answer,
    pub(crate) read: u64,
    pub(crate) written: u64,
}

/// A turn that does nothing.
const NOTHING: Step = Step {
    answer: Answer::Keep,
    read: 0,
    written: 0,
};

impl<E: PeerEnd> EchoConnection<E> {
    /// The handler of a connection that was just accepted. It takes no memory.
    pub(crate) fn new(end: E) -> EchoConnection<E>
        requires no_listener { (E.tells end).listener ≡ false }
        ensures end { end_of_connection result ≡ end }
        ensures state { state_of E.tells result ≡ at_start (E.tells end) }
    {
        EchoConnection {
            peer: Peer { end },
            waiting: Waiting::none(),
            moved: false,
            ended: None,
        }
    }

    /// Whether bytes wait to be written back.
    pub(crate) fn waits(&self) -> bool
        ensures { result ≡ some_wait (waiting_in self.now) }
    {
        !self.waiting.is_empty()
    }

    /// Makes one turn.
    pub(crate) fn serve(&mut self, up: Upcall) -> Step
        ensures serves { Serves up (state_of E.tells self.old) result.answer result.read
            result.written (state_of E.tells self.new) }
        ensures end { KeepsEnd E.keeps self.old self.new }
    {
        match up {
            Upcall::Input => self.read_piece(),
            Upcall::Output => self.write_more(),
            Upcall::Timeout { .. } => self.check_idle(),
            _ => NOTHING,
        }
    }

    /// Reads a piece if none waits, and writes it back as far as it is taken now.
    fn read_piece(&mut self) -> Step
        ensures reads { ServesInput (none_wait (waiting_in self.old)) (state_of E.tells self.old)
            result.answer result.read result.written (state_of E.tells self.new) }
        ensures end { KeepsEnd E.keeps self.old self.new }
    {
        if self.waits() {
            return NOTHING;
        }
        let mut buffer = [0u8; PIECE];
        match self.peer.end.read(&mut buffer) {
            Got::Bytes(count) => {
                self.moved = true;
                self.waiting.fill(&buffer[..count]);
                self.write_back(count as u64)
            }
            Got::Pause => NOTHING,
            Got::Over => self.close_as(Ending::End),
            Got::Failed => self.close_as(Ending::Failed),
        }
    }

    /// Writes what waits, if something does.
    fn write_more(&mut self) -> Step
        ensures writes { ServesOutput (none_wait (waiting_in self.old)) (state_of E.tells self.old)
            result.answer result.read result.written (state_of E.tells self.new) }
        ensures end { KeepsEnd E.keeps self.old self.new }
    {
        if self.waits() {
            self.write_back(0)
        } else {
            NOTHING
        }
    }

    /// Writes the bytes that wait, after a read of so many.
    fn write_back(&mut self, read: u64) -> Step
        requires some { none_wait (waiting_in self.old) ≡ false }
        ensures writes { WritesOnce (state_of E.tells self.old) result.answer result.written
            (state_of E.tells self.new) }
        ensures read { result.read ≡ read }
        ensures end { KeepsEnd E.keeps self.old self.new }
    {
        let (answer, written) = match self.peer.end.write(self.waiting.bytes()) {
            Sent::Bytes(count) => {
                self.moved = true;
                self.waiting.pass(count);
                (Answer::Again, count as u64)
            }
            Sent::Pause => (Answer::Keep, 0),
            Sent::Failed => {
                self.ended = Some(Ending::Failed);
                (Answer::Close, 0)
            }
        };
        Step {
            answer,
            read,
            written,
        }
    }

    /// Closes if no byte went either way since the last timeout.
    fn check_idle(&mut self) -> Step
        ensures idle { ServesTimeout self.old.moved (state_of E.tells self.old) result.answer
            result.read result.written (state_of E.tells self.new) }
        ensures end { KeepsEnd E.keeps self.old self.new }
    {
        if !self.moved {
            return self.close_as(Ending::Idle);
        }
        self.moved = false;
        NOTHING
    }

    /// A turn that ends the connection so.
    fn close_as(&mut self, end: Ending) -> Step
        ensures closes { ClosesAs end (state_of E.tells self.old) result.answer result.read
            result.written (state_of E.tells self.new) }
        ensures end { end_of_connection self.new ≡ end_of_connection self.old }
    {
        self.ended = Some(end);
        Step {
            answer: Answer::Close,
            ..NOTHING
        }
    }

    /// Attaches its end to a net.
    pub(crate) fn attach_to<M: Net<End = E>>(
        &mut self,
        net: &mut M,
        handle: Handle,
        mask: Mask,
    ) -> Result<(), NetFailed>
        requires place { 1 ≤ (M.facts net.old).spare }
        requires absent { Contains (M.facts net.old).attached handle.0 → ⊥ }
        ensures attaches { NetAttaches (M.facts net.old) handle.0 mask
            (E.tells (end_of_connection self.old)).serial result (M.facts net.new) }
        ensures state { state_of E.tells self.new ≡ state_of E.tells self.old }
        ensures end_kept { (t : Terms) → M.keeps t net.old → E.keeps t (end_of_connection self.old)
            → E.keeps t (end_of_connection self.new) }
        ensures kept { (t : Terms) → M.keeps t net.old → E.keeps t (end_of_connection self.old)
            → M.keeps t net.new }
    {
        net.attach(&mut self.peer.end, handle, mask)
    }

    /// Gives its end back, closed for the reason, and the note of how it ended. For `Own` it ended
    /// itself.
    pub(crate) fn close(self, why: Why) -> (E, EchoNote)
        ensures end { result.0 ≡ end_of_connection self }
        ensures word { (why ≡ Own → IsSome self.ended) → (word : Ending)
            × IsClosing why self.ended word × (result.1 ≡ EchoNote.Finished word) }
    {
        let EchoConnection {
            peer: Peer { end },
            ended,
            waiting: _,
            moved: _,
        } = self;
        let word = closing(why, ended);
        (end, EchoNote::Finished { end: word })
    }
}

/// How a connection is closed for the reason, which ended itself in this way or did not.
fn closing(why: Why, ended: Option<Ending>) -> Ending
    ensures { (why ≡ Own → IsSome ended) → IsClosing why ended result }
{
    match (why, ended) {
        (Why::Own, Some(end)) => end,
        (Why::Refused, _) => Ending::Refused,
        _ => Ending::Stopped,
    }
}

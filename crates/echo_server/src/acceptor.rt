//! The acceptor.
ghost use Rattle.std.specs.Prelude.{◌≡◌, ◌≤◌, true, false, Some, Contains};
ghost use Rattle.reactor.specs.ev_types.specs.declared.upcall.Upcall.TheVariants.{Input};
ghost use Rattle.reactor.specs.ev_base.specs.Terms.{Terms};
ghost use Rattle.reactor.specs.ev_base.specs.End.{IsFresh};
ghost use Rattle.reactor.specs.ev_base.specs.Net.{NetAttaches};
ghost use Rattle.reactor.specs.reactor_model.specs.Turns.{IsTimer, most_milliseconds};
ghost use Rattle.echo_server.specs.Handlers.{OffersConnection, ServesListener, idle_of};
ghost use Rattle.echo_server.specs.Handlers.{listener_of, KeepsListener};

use crate::ends::{Idle, Listener};
use crate::handler::{EchoHandler, turn_of};
use crate::{EchoConnection, EchoNote};
use reactor::{Act, Answer, Handle, Mask, Net, NetFailed, PeerEnd, Taken, Turn, Upcall};

/// The acceptor: it makes one accept for each upcall for input, and offers the handler of the
/// connection that this gives, with a timer that comes due again and again. A notice stops the
/// reactor.
pub struct EchoAcceptor<E: PeerEnd> {
    listener: Listener<E>,
    idle: Idle,
}

impl<E: PeerEnd> EchoAcceptor<E> {
    /// An acceptor over a listener. Its connections are closed if no byte went either way
    /// between one time that their timer comes due and the next; it comes due each time that so
    /// many milliseconds have gone by, from 1 to 4,294,967,295.
    pub fn new(end: E, idle: u64) -> EchoAcceptor<E>
        requires listener { (E.tells end).listener ≡ true }
        requires some { 1 ≤ idle }
        requires few { idle ≤ most_milliseconds }
        ensures end { listener_of result ≡ end }
        ensures idle { idle_of result ≡ idle }
    {
        EchoAcceptor {
            listener: Listener { end },
            idle: Idle { time: idle },
        }
    }

    /// Makes one turn.
    pub(crate) fn serve(&mut self, up: Upcall) -> Turn<EchoHandler<E>>
        ensures serves { ServesListener E.tells E.keeps up self.old self.new result }
        ensures end { KeepsListener E.keeps self.old self.new }
        ensures listens { (E.tells (listener_of self.new)).listener ≡ true }
        ensures timer { IsTimer (Some (idle_of self.old, idle_of self.old)) }
    {
        match up {
            Upcall::Input => self.accept_next(),
            Upcall::Notice { .. } => turn_of(Answer::Keep, EchoNote::NoneWaiting, Some(Act::Stop)),
            _ => turn_of(Answer::Keep, EchoNote::NoneWaiting, None),
        }
    }

    /// Makes one accept.
    fn accept_next(&mut self) -> Turn<EchoHandler<E>>
        ensures serves { ServesListener E.tells E.keeps Input self.old self.new result }
        ensures end { KeepsListener E.keeps self.old self.new }
    {
        match self.listener.end.accept() {
            Taken::One(end) => self.offer(end),
            Taken::Pause => turn_of(Answer::Keep, EchoNote::NoneWaiting, None),
            Taken::Failed => turn_of(Answer::Keep, EchoNote::ListenerFailed, None),
        }
    }

    /// Offers the handler of a connection.
    fn offer(&self, end: E) -> Turn<EchoHandler<E>>
        requires no_listener { (E.tells end).listener ≡ false }
        requires fresh { IsFresh (E.tells end) }
        ensures { OffersConnection E.tells (idle_of self.now) end result }
    {
        let idle = self.idle.time;
        Turn {
            answer: Answer::Again,
            note: EchoNote::Accepted,
            act: Some(Act::Install {
                handler: EchoHandler::Talk(EchoConnection::new(end)),
                mask: Mask::READ,
                timer: Some((idle, idle)),
            }),
        }
    }

    /// Attaches its listener to a net.
    pub(crate) fn attach_to<M: Net<End = E>>(
        &mut self,
        net: &mut M,
        handle: Handle,
        mask: Mask,
    ) -> Result<(), NetFailed>
        requires place { 1 ≤ (M.facts net.old).spare }
        requires absent { Contains (M.facts net.old).attached handle.0 → ⊥ }
        ensures attaches { NetAttaches (M.facts net.old) handle.0 mask
            (E.tells (listener_of self.old)).serial result (M.facts net.new) }
        ensures end { E.tells (listener_of self.new) ≡ E.tells (listener_of self.old) }
        ensures idle { idle_of self.new ≡ idle_of self.old }
        ensures end_kept { (t : Terms) → M.keeps t net.old → E.keeps t (listener_of self.old)
            → E.keeps t (listener_of self.new) }
        ensures kept { (t : Terms) → M.keeps t net.old → E.keeps t (listener_of self.old)
            → M.keeps t net.new }
    {
        net.attach(&mut self.listener.end, handle, mask)
    }

    /// Gives its listener back.
    pub(crate) fn shut(self) -> (E, EchoNote)
        ensures end { result.0 ≡ listener_of self }
        ensures notes { result.1 ≡ EchoNote.ListenerShut }
    {
        let EchoAcceptor {
            listener: Listener { end },
            idle: _,
        } = self;
        (end, EchoNote::ListenerShut)
    }
}

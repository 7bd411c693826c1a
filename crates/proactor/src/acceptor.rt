//! The acceptor of an echo service.
ghost use Rattle.std.specs.Prelude.{◌≡◌, ◌≤◌, ◌<◌, ◌+◌, true, false, Contains};
ghost use Rattle.ev_base.specs.ev_types.specs.declared.upcall.Upcall.TheVariants.{Input};
ghost use Rattle.ev_base.specs.Terms.{Terms};
ghost use Rattle.ev_base.specs.End.{IsFresh};
ghost use Rattle.ev_base.specs.Net.{NetAttaches};
ghost use Rattle.proactor.specs.Acceptors.{KeepsListener, OffersEnd, ServesListener, count_taken};
ghost use Rattle.proactor.specs.Acceptors.{listener_of, most_connections};

use crate::listener::Listener;
use crate::service::{AioHandler, turn_of};
use crate::{AioNote, AsynchEnd, EchoCompletions};
use ev_base::{Answer, Handle, Mask, Net, NetFailed, PeerEnd, Taken, Upcall};
use reactor_model::{Act, Turn};
use std::alloc::Global;

/// How many connections an acceptor takes at most.
const MOST: u64 = 4_294_967_294;

/// The acceptor of an echo service made of operations: it makes one accept for each upcall for
/// input, and offers the handler of the connection that this gives. It numbers connections from 0,
/// in the order in which it took them. A notice stops the reactor.
pub struct AsynchAcceptor<E: PeerEnd> {
    taken: u64,
    listener: Listener<E>,
    alloc: Global,
}

impl<E: PeerEnd> AsynchAcceptor<E> {
    /// An acceptor over a listener that has made no accept. It takes no memory.
    pub fn new(alloc: Global, end: E) -> AsynchAcceptor<E>
        requires listener { (E.tells end).listener ≡ true }
        requires fresh { IsFresh (E.tells end) }
        ensures end { listener_of result ≡ end }
        ensures none { count_taken result ≡ 0 }
    {
        AsynchAcceptor {
            taken: 0,
            listener: Listener { end },
            alloc,
        }
    }

    /// Makes one turn.
    pub(crate) fn serve(&mut self, up: Upcall) -> Turn<AioHandler<E>>
        ensures serves { ServesListener E.tells E.keeps up self.old self.new result }
        ensures end { KeepsListener E.keeps self.old self.new }
        ensures listens { (E.tells (listener_of self.new)).listener ≡ true }
    {
        match up {
            Upcall::Input => self.accept_next(),
            Upcall::Notice { .. } => turn_of(Answer::Keep, AioNote::Listening, Some(Act::Stop)),
            _ => turn_of(Answer::Keep, AioNote::Listening, None),
        }
    }

    /// Makes one accept, unless it took as many connections as it may.
    fn accept_next(&mut self) -> Turn<AioHandler<E>>
        ensures serves { ServesListener E.tells E.keeps Input self.old self.new result }
        ensures end { KeepsListener E.keeps self.old self.new }
    {
        if self.taken >= MOST {
            return turn_of(Answer::Keep, AioNote::Listening, None);
        }
        match self.listener.end.accept() {
            Taken::One(end) => self.offer(end),
            Taken::Pause | Taken::Failed => turn_of(Answer::Keep, AioNote::Listening, None),
        }
    }

    /// Offers the handler of a connection.
    fn offer(&mut self, end: E) -> Turn<AioHandler<E>>
        requires no_listener { (E.tells end).listener ≡ false }
        requires fresh { IsFresh (E.tells end) }
        requires few { count_taken self.old < most_connections }
        ensures offers { OffersEnd E.tells E.keeps (count_taken self.old) end result }
        ensures counts { self.new ≡ record self.old { taken = self.old.taken + 1 } }
    {
        let conn = self.taken;
        self.taken += 1;
        let first = EchoCompletions::first();
        let handler = AsynchEnd::new(self.alloc, conn, end, EchoCompletions, first);
        Turn {
            answer: Answer::Again,
            note: AioNote::Accepted { conn },
            act: Some(Act::Install {
                handler: AioHandler::Talk(handler),
                mask: Mask::READ,
                timer: None,
            }),
        }
    }

    /// Attaches its listener to a net.
    pub(crate) fn attach_to<M: Net<End = E>>(
        &mut self,
        net: &mut M,
        handle: Handle,
        mask: Mask,
    ) -> Result<(), NetFailed>
        requires place { 1 ≤ (M.facts net.old).spare }
        requires absent { Contains (M.facts net.old).attached handle.0 → ⊥ }
        ensures attaches { NetAttaches (M.facts net.old) handle.0 mask
            (E.tells (listener_of self.old)).serial result (M.facts net.new) }
        ensures end { E.tells (listener_of self.new) ≡ E.tells (listener_of self.old) }
        ensures taken { count_taken self.new ≡ count_taken self.old }
        ensures end_kept { (t : Terms) → M.keeps t net.old → E.keeps t (listener_of self.old)
            → E.keeps t (listener_of self.new) }
        ensures kept { (t : Terms) → M.keeps t net.old → E.keeps t (listener_of self.old)
            → M.keeps t net.new }
    {
        net.attach(&mut self.listener.end, handle, mask)
    }

    /// Gives its listener back.
    pub(crate) fn shut(self) -> (E, AioNote)
        ensures end { result.0 ≡ listener_of self }
        ensures notes { result.1 ≡ AioNote.Listening }
    {
        let AsynchAcceptor {
            taken: _,
            listener: Listener { end },
            alloc: _,
        } = self;
        (end, AioNote::Listening)
    }
}

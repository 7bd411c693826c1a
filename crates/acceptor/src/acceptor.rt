//! The acceptor.
ghost use Rattle.std.specs.Prelude.{◌≡◌, ◌<◌, ◌≤◌, ◌+◌, ℕ, List, [], true, false, Contains, Some};
ghost use Rattle.std.specs.Prelude.{None, Option};
ghost use Rattle.ev_base.specs.ev_types.specs.declared.upcall.Upcall.TheVariants.{Input};
ghost use Rattle.ev_base.specs.ev_types.specs.declared.upcall.Answer.TheVariants.{Keep};
ghost use Rattle.ev_base.specs.Story.{Offer, NumbersFrom};
ghost use Rattle.ev_base.specs.Terms.{Terms};
ghost use Rattle.ev_base.specs.End.{IsFresh};
ghost use Rattle.ev_base.specs.Net.{NetAttaches};
ghost use Rattle.reactor_model.specs.reactor_journal.specs.Event.{Item, Origin};
ghost use Rattle.reactor_model.specs.Turns.{KeepsPromises};
ghost use Rattle.acceptor.specs.Idle.{IsIdleTime};
ghost use Rattle.acceptor.specs.Accepting.{most_connections};
ghost use Rattle.acceptor.specs.Acceptors.{AcceptorFits, listener_of, count_taken};
ghost use Rattle.acceptor.specs.Acceptors.{idle_of_acceptor};
ghost use Rattle.acceptor.specs.Servers.{servers};
ghost use Rattle.acceptor.specs.Steps.{TakesAcceptorTurn, NotesAccept, OffersConnection, ActsAt};

use crate::listener::{Idle, Listener};
use crate::server::ServerHandler;
use ev_base::{Answer, Handle, Mask, Net, NetFailed, PeerEnd, Taken, Upcall};
use log_handler::{LogConnection, ServerNote};
use reactor_model::{Act, Turn};
use std::alloc::Global;

/// How many connections an acceptor takes at most.
const MOST: u64 = 4_294_967_294;

/// The acceptor of the logging server (C++NPv2 chapter 4, `Logging_Acceptor`): it makes one accept
/// for each upcall for input, and offers the handler of the connection that this gives. It numbers
/// connections from 0, in the order in which it took them.
pub struct Acceptor<E: PeerEnd> {
    taken: u64,
    listener: Listener<E>,
    idle: Idle,
    alloc: Global,
}

impl<E: PeerEnd> Acceptor<E> {
    /// An acceptor over a listener that has made no accept. If `idle` is given, it is from 1 to
    /// 4,294,967,295, and each of its connections is closed once so many milliseconds brought no
    /// bytes. It takes no memory.
    pub fn new(alloc: Global, end: E, idle: Option<u64>) -> Acceptor<E>
        requires listener { (E.tells end).listener ≡ true }
        requires fresh { IsFresh (E.tells end) }
        requires idle { IsIdleTime idle }
        ensures end { listener_of result ≡ end }
        ensures idle { idle_of_acceptor result ≡ idle }
        ensures fits { (t : Terms) (origin : Option (Origin ServerNote)) → E.keeps t end
            → ((offers : List Offer) → t.offers ≡ Some offers → origin ≡ None)
            → ((time : Option ℕ) → t.idle ≡ Some time → idle ≡ time)
            → NumbersFrom 0 (E.tells end).offering
            → AcceptorFits E.tells E.keeps t origin result [] }
    {
        Acceptor {
            taken: 0,
            listener: Listener { end },
            idle: Idle { time: idle },
            alloc,
        }
    }

    /// Makes the upcall.
    pub(crate) fn serve(&mut self, up: Upcall, now: u64) -> Turn<ServerHandler<E>>
        ensures turn { TakesAcceptorTurn E.tells E.keeps up now self.old self.new result }
        ensures promises { KeepsPromises (servers E.tells E.keeps) up result }
        ensures acts { ActsAt (idle_of_acceptor self.old) up result }
        ensures notes { up ≡ Input → NotesAccept (count_taken self.old)
            (E.tells (listener_of self.old)) (E.tells (listener_of self.new)) result.note }
    {
        match up {
            Upcall::Input => self.accept_next(now),
            Upcall::Notice { .. } => kept(ServerNote::NoneWaiting, Some(Act::Stop)),
            _ => kept(ServerNote::NoneWaiting, None),
        }
    }

    /// Attaches its listener to a net.
    pub(crate) fn attach_to<M: Net<End = E>>(
        &mut self,
        net: &mut M,
        handle: Handle,
        mask: Mask,
    ) -> Result<(), NetFailed>
        requires place { 1 ≤ (M.facts net.old).spare }
        requires absent { Contains (M.facts net.old).attached handle.0 → ⊥ }
        ensures attaches { NetAttaches (M.facts net.old) handle.0 mask
            (E.tells (listener_of self.old)).serial result (M.facts net.new) }
        ensures fits { (t : Terms) (origin : Option (Origin ServerNote))
            (had : List (Item ServerNote)) → M.keeps t net.old
            → AcceptorFits E.tells E.keeps t origin self.old had
            → AcceptorFits E.tells E.keeps t origin self.new had }
        ensures kept { (t : Terms) → M.keeps t net.old → E.keeps t (listener_of self.old)
            → M.keeps t net.new }
    {
        net.attach(&mut self.listener.end, handle, mask)
    }

    /// Gives its listener back, and the note that this was closed.
    pub(crate) fn shut(self) -> (E, ServerNote)
        ensures end { result.0 ≡ listener_of self }
        ensures notes { result.1 ≡ ServerNote.ListenerShut }
    {
        let Acceptor {
            listener: Listener { end },
            taken: _,
            idle: _,
            alloc: _,
        } = self;
        (end, ServerNote::ListenerShut)
    }

    /// Makes one accept, unless it took as many connections as it may.
    fn accept_next(&mut self, now: u64) -> Turn<ServerHandler<E>>
        ensures turn { TakesAcceptorTurn E.tells E.keeps Input now self.old self.new result }
        ensures promises { KeepsPromises (servers E.tells E.keeps) Input result }
        ensures acts { ActsAt (idle_of_acceptor self.old) Input result }
        ensures notes { NotesAccept (count_taken self.old) (E.tells (listener_of self.old))
            (E.tells (listener_of self.new)) result.note }
    {
        if self.taken >= MOST {
            return kept(ServerNote::NoneWaiting, None);
        }
        match self.listener.end.accept() {
            Taken::One(end) => self.install(end, now),
            Taken::Pause => kept(ServerNote::NoneWaiting, None),
            Taken::Failed => kept(ServerNote::ListenerFailed, None),
        }
    }

    /// Offers the handler of a connection, whose end the listener gave.
    fn install(&mut self, end: E, now: u64) -> Turn<ServerHandler<E>>
        requires no_listener { (E.tells end).listener ≡ false }
        requires fresh { IsFresh (E.tells end) }
        requires few { count_taken self.old < most_connections }
        ensures offers { OffersConnection E.tells E.keeps (count_taken self.old)
            (idle_of_acceptor self.old) now end result }
        ensures promises { KeepsPromises (servers E.tells E.keeps) Input result }
        ensures acts { ActsAt (idle_of_acceptor self.old) Input result }
        ensures counts { self.new ≡ record self.old { taken = self.old.taken + 1 } }
    {
        let conn = self.taken;
        self.taken += 1;
        let timer = self.idle.timer();
        let handler = LogConnection::new(self.alloc, conn, end, self.idle.time, now);
        Turn {
            answer: Answer::Again,
            note: ServerNote::Accepted { conn },
            act: Some(Act::Install {
                handler: ServerHandler::Talk(handler),
                mask: Mask::READ,
                timer,
            }),
        }
    }
}

/// A turn that is answered Keep.
fn kept<E: PeerEnd>(note: ServerNote, act: Option<Act<ServerHandler<E>>>) -> Turn<ServerHandler<E>>
    ensures answers { result.answer ≡ Keep }
    ensures notes { result.note ≡ note }
    ensures act { result.act ≡ act }
{
    Turn {
        answer: Answer::Keep,
        note,
        act,
    }
}

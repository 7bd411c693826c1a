//! The handlers of the server, as the reactor calls them.
ghost use Rattle.std.specs.Prelude.{◌≡◌, List, Option, None};
ghost use Rattle.reactor.specs.ev_types.specs.declared.upcall.Why.TheVariants.{Own};
ghost use Rattle.reactor.specs.ev_base.specs.Terms.{Terms};
ghost use Rattle.reactor.specs.reactor_journal.specs.Event.{Item, Origin};
ghost use Rattle.reactor.specs.reactor_model.specs.Handling.{NoClose, EndsInClose, Names};
ghost use Rattle.reactor.specs.reactor_model.specs.Turns.{TakesTurn, KeepsPromises};
ghost use Rattle.echo_server.specs.Handlers.{HandlerFits, HandlerGone, ServesConnection};
ghost use Rattle.echo_server.specs.Handlers.{ServesHandler, end_of, handlers, mask_after};

use crate::acceptor::EchoAcceptor;
use crate::connection::{EchoConnection, Step};
use crate::note::EchoNote;
use reactor::{
    Act, Answer, EventHandler, Handle, Mask, Net, NetFailed, PeerEnd, Turn, Upcall, Why,
};

/// An event handler of the echo server.
pub enum EchoHandler<E: PeerEnd> {
    /// The acceptor.
    Listen(EchoAcceptor<E>),
    /// A connection that it took.
    Talk(EchoConnection<E>),
}

/// A turn of these parts.
pub(crate) fn turn_of<E: PeerEnd>(
    answer: Answer,
    note: EchoNote,
    act: Option<Act<EchoHandler<E>>>,
) -> Turn<EchoHandler<E>>
    ensures answers { result.answer ≡ answer }
    ensures notes { result.note ≡ note }
    ensures act { result.act ≡ act }
{
    Turn { answer, note, act }
}

/// Makes the turn of a connection. From the first bytes that it could not write back on it wants to
/// write and not to read, until they are written.
fn talk<E: PeerEnd>(connection: &mut EchoConnection<E>, up: Upcall) -> Turn<EchoHandler<E>>
    ensures serves { ServesConnection E.tells E.keeps up connection.old connection.new result }
{
    let waited = connection.waits();
    let Step {
        answer,
        read,
        written,
    } = connection.serve(up);
    let act = match mask_after(answer, waited, connection.waits()) {
        Some(mask) => Some(Act::MaskMine(mask)),
        None => None,
    };
    turn_of(answer, EchoNote::Moved { read, written }, act)
}

/// Which mask a connection asks for after a turn with this answer, before which bytes waited or
/// not, and after which they do.
fn mask_after(answer: Answer, waited: bool, waits: bool) -> Option<Mask>
    ensures { result ≡ mask_after answer waited waits }
{
    match (answer, waited, waits) {
        (Answer::Close, _, _) => None,
        (_, false, true) => Some(Mask::WRITE),
        (_, true, false) => Some(Mask::READ),
        _ => None,
    }
}

impl<E: PeerEnd> EventHandler for EchoHandler<E> {
    type Note = EchoNote;

    type End = E;

    ghost means = { handlers E.tells E.keeps };

    fn upcall(&mut self, up: Upcall, now: u64) -> Turn<EchoHandler<E>>
        ensures turn { (t : Terms) (origin : Option (Origin EchoNote)) (had : List (Item EchoNote))
            → NoClose had → HandlerFits E.tells E.keeps t self.old had
            → TakesTurn (handlers E.tells E.keeps) t origin up now had self.new result }
        ensures promises { KeepsPromises (handlers E.tells E.keeps) up result }

        // What the turn does: of a connection the bytes that it reads and writes back, of an
        // acceptor what its one accept comes to.
        ensures serves { ServesHandler E.tells E.keeps up self.old self.new result }
    {
        match self {
            EchoHandler::Listen(acceptor) => acceptor.serve(up),
            EchoHandler::Talk(connection) => talk(connection, up),
        }
    }

    fn attach_to<M: Net<End = E>>(
        &mut self,
        net: &mut M,
        handle: Handle,
        mask: Mask,
    ) -> Result<(), NetFailed> {
        match self {
            EchoHandler::Listen(acceptor) => acceptor.attach_to(net, handle, mask),
            EchoHandler::Talk(connection) => connection.attach_to(net, handle, mask),
        }
    }

    fn handle_close(self, why: Why) -> (E, EchoNote)
        ensures gone { (t : Terms) (origin : Option (Origin EchoNote)) (had : List (Item EchoNote))
            → (why ≡ Own → EndsInClose had) → HandlerFits E.tells E.keeps t self had
            → HandlerGone E.tells E.keeps t result.0 had why result.1 }
        ensures serial { (t : Terms) (origin : Option (Origin EchoNote))
            (had : List (Item EchoNote)) → HandlerFits E.tells E.keeps t self had
            → Names None (E.tells result.0).serial }
        ensures kept { (t : Terms) (origin : Option (Origin EchoNote)) (had : List (Item EchoNote))
            → HandlerFits E.tells E.keeps t self had → E.keeps t result.0 }

        // The end that it gives is its own.
        ensures end { result.0 ≡ end_of self }
    {
        match self {
            EchoHandler::Listen(acceptor) => acceptor.shut(),
            EchoHandler::Talk(connection) => connection.close(why),
        }
    }
}

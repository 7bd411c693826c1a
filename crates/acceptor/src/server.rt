//! The handlers of the server.
ghost use Rattle.std.specs.Prelude.{◌≡◌, ◌≢◌, ℕ, List, Option, Some, None, true, false};
ghost use Rattle.ev_base.specs.ev_types.specs.declared.upcall.Upcall.TheVariants.{Input};
ghost use Rattle.ev_base.specs.ev_types.specs.declared.upcall.Why.TheVariants.{Own};
ghost use Rattle.ev_base.specs.Terms.{Terms};
ghost use Rattle.reactor_model.specs.reactor_journal.specs.Event.{Item, Origin};
ghost use Rattle.reactor_model.specs.Handling.{NoClose, EndsInClose, Names};
ghost use Rattle.reactor_model.specs.Turns.{TakesTurn, KeepsPromises};
ghost use Rattle.log_handler.specs.Connections.{serial_named, connections};
ghost use Rattle.log_handler.specs.Notes.{is_piece};
ghost use Rattle.acceptor.specs.Servers.{ServerFits, ServerGone, servers, is_accepted};
ghost use Rattle.acceptor.specs.Servers.{end_of_server};
ghost use Rattle.acceptor.specs.Steps.{TellsInput, ActsSo, NotesShut};

use crate::acceptor::Acceptor;
use ev_base::{Handle, Mask, Net, NetFailed, PeerEnd, Upcall, Why};
use log_handler::{LogConnection, ServerNote};
use reactor_model::{EventHandler, Turn};

/// An event handler of the logging server.
pub enum ServerHandler<E: PeerEnd> {
    /// The acceptor.
    Listen(Acceptor<E>),
    /// A connection that it took.
    Talk(LogConnection<E>),
}

/// The turn of a connection as one of the server's handlers. It notes what it took, and so never
/// `Accepted`, whose turn always offers a connection.
fn talked<E: PeerEnd>(turn: Turn<LogConnection<E>>) -> Turn<ServerHandler<E>>
    requires quiet { turn.act ≡ None }
    requires piece { is_piece turn.note ≡ true }
    ensures answers { result.answer ≡ turn.answer }
    ensures notes { result.note ≡ turn.note }
    ensures never { is_accepted result.note ≡ false }
    ensures quiet { result.act ≡ None }
{
    let Turn { answer, note, act } = turn;
    match act {
        None => Turn {
            answer,
            note,
            act: None,
        },
        Some(_) => unreachable!(),
    }
}

impl<E: PeerEnd> EventHandler for ServerHandler<E> {
    type Note = ServerNote;

    type End = E;

    ghost means = { servers E.tells E.keeps };

    fn upcall(&mut self, up: Upcall, now: u64) -> Turn<ServerHandler<E>>
        ensures turn { (t : Terms) (origin : Option (Origin ServerNote))
            (had : List (Item ServerNote)) → NoClose had
            → ServerFits E.tells E.keeps t origin self.old had
            → TakesTurn (servers E.tells E.keeps) t origin up now had self.new result }
        ensures promises { KeepsPromises (servers E.tells E.keeps) up result }

        // An acceptor stops the reactor at a notice, and offers a connection if it accepted one.
        ensures acts { ActsSo self.old up result }

        // Of input: what an acceptor's one accept came to, and whether a connection's one read
        // paused.
        ensures tells { up ≡ Input → TellsInput E.tells self.old self.new result }
    {
        match self {
            ServerHandler::Listen(acceptor) => acceptor.serve(up, now),
            ServerHandler::Talk(connection) => talked(connection.upcall(up, now)),
        }
    }

    fn attach_to<M: Net<End = E>>(
        &mut self,
        net: &mut M,
        handle: Handle,
        mask: Mask,
    ) -> Result<(), NetFailed> {
        match self {
            ServerHandler::Listen(acceptor) => acceptor.attach_to(net, handle, mask),
            ServerHandler::Talk(connection) => connection.attach_to(net, handle, mask),
        }
    }

    fn handle_close(self, why: Why) -> (E, ServerNote)
        ensures gone { (t : Terms) (origin : Option (Origin ServerNote))
            (had : List (Item ServerNote)) → (why ≡ Own → EndsInClose had)
            → ServerFits E.tells E.keeps t origin self had
            → ServerGone E.tells E.keeps t origin result.0 had why result.1 }
        ensures serial { (t : Terms) (origin : Option (Origin ServerNote))
            (had : List (Item ServerNote)) → ServerFits E.tells E.keeps t origin self had
            → Names (serial_named t origin) (E.tells result.0).serial }
        ensures kept { (t : Terms) (origin : Option (Origin ServerNote))
            (had : List (Item ServerNote)) → ServerFits E.tells E.keeps t origin self had
            → E.keeps t result.0 }

        // The end that it gives is its own, and the note of an acceptor is the same for every
        // reason.
        ensures end { result.0 ≡ end_of_server self }
        ensures shut { NotesShut self result.1 }
    {
        match self {
            ServerHandler::Listen(acceptor) => acceptor.shut(),
            ServerHandler::Talk(connection) => connection.handle_close(why),
        }
    }
}

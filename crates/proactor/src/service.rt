//! The handlers of an echo service made of operations.
ghost use Rattle.std.specs.Prelude.{◌≡◌, List, Option, None};
ghost use Rattle.ev_base.specs.ev_types.specs.declared.upcall.Why.TheVariants.{Own};
ghost use Rattle.ev_base.specs.Terms.{Terms};
ghost use Rattle.reactor_model.specs.reactor_journal.specs.Event.{Item, Origin};
ghost use Rattle.reactor_model.specs.Handling.{NoClose, EndsInClose, Names};
ghost use Rattle.reactor_model.specs.Turns.{TakesTurn, KeepsPromises};
ghost use Rattle.proactor.specs.Services.{AsksMaskAtMost, ClosesEnd, ServesService, ServiceFits};
ghost use Rattle.proactor.specs.Services.{ServiceGone, WrapsTurn, end_of_service, services};

use crate::acceptor::AsynchAcceptor;
use crate::{AsynchEnd, AsynchNote, EchoCompletions};
use ev_base::{Answer, Handle, Mask, Net, NetFailed, PeerEnd, Upcall, Why};
use reactor_model::{Act, EventHandler, Turn};

/// What a handler of an echo service notes of a turn, or of its closing.
#[derive(Clone, Copy, PartialEq, Eq, Debug)]
pub enum AioNote {
    /// A connection was accepted.
    Accepted {
        /// Its number.
        conn: u64,
    },
    /// The acceptor accepted none, or was closed.
    Listening,
    /// What the end of a connection notes.
    End(AsynchNote),
}

/// An event handler of an echo service.
pub enum AioHandler<E: PeerEnd> {
    /// The acceptor.
    Listen(AsynchAcceptor<E>),
    /// A connection that it took.
    Talk(AsynchEnd<E, EchoCompletions>),
}

/// A turn of these parts.
pub(crate) fn turn_of<E: PeerEnd>(
    answer: Answer,
    note: AioNote,
    act: Option<Act<AioHandler<E>>>,
) -> Turn<AioHandler<E>>
    ensures answers { result.answer ≡ answer }
    ensures notes { result.note ≡ note }
    ensures act { result.act ≡ act }
{
    Turn { answer, note, act }
}

/// The turn of a connection as one of the service's handlers. It asks for a mask at most.
fn wrapped<E: PeerEnd>(turn: Turn<AsynchEnd<E, EchoCompletions>>) -> Turn<AioHandler<E>>
    requires { AsksMaskAtMost turn.act }
    ensures { WrapsTurn turn result }
{
    let Turn { answer, note, act } = turn;
    let act = match act {
        None => None,
        Some(Act::MaskMine(mask)) => Some(Act::MaskMine(mask)),
        Some(_) => unreachable!("it asks for nothing else"),
    };
    turn_of(answer, AioNote::End(note), act)
}

impl<E: PeerEnd> EventHandler for AioHandler<E> {
    type Note = AioNote;

    type End = E;

    ghost means = { services E.tells E.keeps };

    fn upcall(&mut self, up: Upcall, now: u64) -> Turn<AioHandler<E>>
        ensures turn { (t : Terms) (origin : Option (Origin AioNote)) (had : List (Item AioNote))
            → NoClose had → ServiceFits E.tells E.keeps t origin self.old had
            → TakesTurn (services E.tells E.keeps) t origin up now had self.new result }
        ensures promises { KeepsPromises (services E.tells E.keeps) up result }

        // What the turn does: of a connection what happened at its end, of an acceptor what its one
        // accept came to.
        ensures serves { ServesService E.tells E.keeps up self.old self.new result }
    {
        match self {
            AioHandler::Listen(acceptor) => acceptor.serve(up),
            AioHandler::Talk(end) => wrapped(end.upcall(up, now)),
        }
    }

    fn attach_to<M: Net<End = E>>(
        &mut self,
        net: &mut M,
        handle: Handle,
        mask: Mask,
    ) -> Result<(), NetFailed> {
        match self {
            AioHandler::Listen(acceptor) => acceptor.attach_to(net, handle, mask),
            AioHandler::Talk(end) => end.attach_end(net, handle, mask),
        }
    }

    fn handle_close(self, why: Why) -> (E, AioNote)
        ensures gone { (t : Terms) (origin : Option (Origin AioNote)) (had : List (Item AioNote))
            → (why ≡ Own → EndsInClose had) → ServiceFits E.tells E.keeps t origin self had
            → ServiceGone E.tells E.keeps t origin result.0 had why result.1 }
        ensures serial { (t : Terms) (origin : Option (Origin AioNote))
            (had : List (Item AioNote)) → ServiceFits E.tells E.keeps t origin self had
            → Names None (E.tells result.0).serial }
        ensures kept { (t : Terms) (origin : Option (Origin AioNote)) (had : List (Item AioNote))
            → ServiceFits E.tells E.keeps t origin self had → E.keeps t result.0 }

        // The end that it gives is its own.
        ensures end { result.0 ≡ end_of_service self }
    {
        match self {
            AioHandler::Listen(acceptor) => acceptor.shut(),
            AioHandler::Talk(end) => closed(end, why),
        }
    }
}

/// Closes a connection.
fn closed<E: PeerEnd>(end: AsynchEnd<E, EchoCompletions>, why: Why) -> (E, AioNote)
    ensures { ClosesEnd E.tells E.keeps why end result }
{
    let (end, note) = end.handle_close(why);
    (end, AioNote::End(note))
}

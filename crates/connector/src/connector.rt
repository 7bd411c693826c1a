//! The handler of a connection that this side makes.
ghost use Rattle.std.specs.Prelude.{◌≡◌, ◌≢◌, ◌≤◌, List, [], false, true, Option, None};
ghost use Rattle.ev_base.specs.ev_types.specs.declared.upcall.Why.TheVariants.{Own};
ghost use Rattle.ev_base.specs.Terms.{Terms};
ghost use Rattle.ev_base.specs.End.{IsFresh};
ghost use Rattle.reactor_model.specs.reactor_journal.specs.Event.{Item, Origin};
ghost use Rattle.reactor_model.specs.Handling.{NoClose, EndsInClose, Names};
ghost use Rattle.reactor_model.specs.Turns.{TakesTurn, KeepsPromises, IsTimeout};
ghost use Rattle.connector.specs.declared.note.ConnectNote.{ConnectNote};
ghost use Rattle.connector.specs.Connectors.{AsksEnd, LetsServe, DoesWaiting, DoesConnected};
ghost use Rattle.connector.specs.Connectors.{DoesTurn, KeepsEnd, ConnectorFits, ConnectorGone};
ghost use Rattle.connector.specs.Connectors.{connectors, end_of, service_of, is_connected};

use crate::peer::Peer;
use crate::{ConnectNote, Service};
use ev_base::{Answer, DialEnd, Finish, Handle, Mask, Net, NetFailed, Upcall, Why};
use reactor_model::{EventHandler, Turn};

/// The event handler of a connection that this side makes. Until it is made, each upcall for output
/// asks for that, and a timeout closes the handler; from then on every upcall but a timeout goes to
/// its service.
pub struct Connector<E: DialEnd, V> {
    peer: Peer<E>,
    service: V,
    connected: bool,
}

impl<E: DialEnd, V: Service<End = E> + Drop> Connector<E, V> {
    /// The handler of a connection that is to be made, with the service that works on it from then
    /// on.
    pub fn new(end: E, service: V) -> Connector<E, V>
        requires no_listener { (E.tells end).listener ≡ false }
        requires fresh { IsFresh (E.tells end) }
        ensures end { end_of result ≡ end }
        ensures service { service_of result ≡ service }
        ensures fits { (t : Terms) → E.keeps t end → V.serves t service end []
            → ConnectorFits E.tells E.keeps V.serves t result [] }
    {
        Connector {
            peer: Peer { end },
            service,
            connected: false,
        }
    }

    /// Asks whether the connection is made.
    fn ask(&mut self) -> (Answer, ConnectNote<V::Note>)
        requires waits { is_connected self.old ≡ false }
        ensures asks { AsksEnd E.tells self.old self.new result }
        ensures kept { KeepsEnd E.keeps self.old self.new }
    {
        match self.peer.end.finish() {
            Finish::Done => {
                self.connected = true;
                (Answer::Again, ConnectNote::Connected)
            }
            Finish::Pause => (Answer::Keep, ConnectNote::Waiting),
            Finish::Failed => (Answer::Close, ConnectNote::Failed),
        }
    }

    /// A turn of the service.
    fn serve(&mut self, up: Upcall, now: u64) -> (Answer, ConnectNote<V::Note>)
        ensures serves { LetsServe E.tells E.keeps V.serves up now self.old self.new result }
        ensures kept { KeepsEnd E.keeps self.old self.new }
        ensures timeout { IsTimeout up → result.0 ≢ Answer.Again }
    {
        let (answer, said) = self.service.live(&mut self.peer.end, up, now);
        (answer, ConnectNote::Live(said))
    }

    /// A turn while it waits.
    fn wait_on(&mut self, up: Upcall, now: u64) -> (Answer, ConnectNote<V::Note>)
        requires waits { is_connected self.old ≡ false }
        ensures does { DoesWaiting E.tells up now self.old self.new result }
        ensures kept { KeepsEnd E.keeps self.old self.new }
    {
        match up {
            Upcall::Output => self.ask(),
            Upcall::Timeout { .. } => (Answer::Close, ConnectNote::TimedOut { now }),
            _ => (Answer::Keep, ConnectNote::Waiting),
        }
    }

    /// A turn once it is connected.
    fn go_on(&mut self, up: Upcall, now: u64) -> (Answer, ConnectNote<V::Note>)
        ensures does { DoesConnected E.tells E.keeps V.serves up now self.old self.new result }
        ensures kept { KeepsEnd E.keeps self.old self.new }
        ensures timeout { IsTimeout up → result.0 ≢ Answer.Again }
    {
        match up {
            Upcall::Timeout { .. } => (Answer::Keep, ConnectNote::Waiting),
            _ => self.serve(up, now),
        }
    }

    /// Makes one turn.
    fn turn(&mut self, up: Upcall, now: u64) -> (Answer, ConnectNote<V::Note>)
        ensures does { DoesTurn E.tells E.keeps V.serves (is_connected self.old) up now self.old
            self.new result }
        ensures kept { KeepsEnd E.keeps self.old self.new }
        ensures timeout { IsTimeout up → result.0 ≢ Answer.Again }
    {
        if self.connected {
            self.go_on(up, now)
        } else {
            self.wait_on(up, now)
        }
    }
}

impl<E: DialEnd, V: Service<End = E> + Drop> EventHandler for Connector<E, V> {
    type Note = ConnectNote<V::Note>;

    type End = E;

    ghost means = { connectors E.tells E.keeps V.serves };

    fn upcall(&mut self, up: Upcall, now: u64) -> Turn<Connector<E, V>>
        ensures turn { (t : Terms) (origin : Option (Origin (ConnectNote V.Note)))
            (had : List (Item (ConnectNote V.Note))) → NoClose had
            → ConnectorFits E.tells E.keeps V.serves t self.old had
            → TakesTurn (connectors E.tells E.keeps V.serves) t origin up now had self.new result }
        ensures promises { KeepsPromises (connectors E.tells E.keeps V.serves) up result }

        // No turn carries an act.
        ensures quiet { result.act ≡ None }

        // While it waits it asks at output alone, and once at each; from then on its service makes
        // each turn but a timeout.
        ensures does { DoesTurn E.tells E.keeps V.serves (is_connected self.old) up now self.old
            self.new (result.answer, result.note) }
    {
        let (answer, note) = self.turn(up, now);
        Turn {
            answer,
            note,
            act: None,
        }
    }

    fn attach_to<M: Net<End = E>>(
        &mut self,
        net: &mut M,
        handle: Handle,
        mask: Mask,
    ) -> Result<(), NetFailed> {
        net.attach(&mut self.peer.end, handle, mask)
    }

    fn handle_close(self, _why: Why) -> (E, ConnectNote<V::Note>)
        ensures gone { (t : Terms) (origin : Option (Origin (ConnectNote V.Note)))
            (had : List (Item (ConnectNote V.Note))) → (_why ≡ Own → EndsInClose had)
            → ConnectorFits E.tells E.keeps V.serves t self had
            → ConnectorGone E.tells E.keeps V.serves t result.0 had _why result.1 }
        ensures serial { (t : Terms) (origin : Option (Origin (ConnectNote V.Note)))
            (had : List (Item (ConnectNote V.Note)))
            → ConnectorFits E.tells E.keeps V.serves t self had
            → Names None (E.tells result.0).serial }
        ensures kept { (t : Terms) (origin : Option (Origin (ConnectNote V.Note)))
            (had : List (Item (ConnectNote V.Note)))
            → ConnectorFits E.tells E.keeps V.serves t self had → E.keeps t result.0 }

        // The end that it gives is its own.
        ensures end { result.0 ≡ end_of self }
    {
        let Connector {
            peer: Peer { end },
            service: _,
            connected: _,
        } = self;
        (end, ConnectNote::Shut)
    }
}

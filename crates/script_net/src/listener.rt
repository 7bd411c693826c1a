//! The listener.
ghost use Rattle.std.specs.Prelude.{◌≡◌};
ghost use Rattle.ev_base.specs.Story.{AreNumbered};
ghost use Rattle.ev_base.specs.End.{Accepts};
ghost use Rattle.script_net.specs.Scripts.{offer_views};
ghost use Rattle.script_net.specs.Playable.{many_offered};
ghost use Rattle.script_net.specs.Ends.{listener_facts, peer_facts, new_listener, AcceptsNext};

use crate::peer::Peer;
use crate::script::{Connection, Offer};
use ev_base::Taken;
use std::marker::Model;
use std::vec;

/// What an accept came to.
#[derive(Clone, Copy)]
enum Came {
    One,
    Pause,
    Failed,
}

/// The listener: it offers what its story says, and owns the connections that did not come yet.
#[derive(Drop)]
pub(crate) struct Listener {
    offers: Vec<Offer>,
    // The number of the offer that is told next.
    next: usize,
    connections: vec::IntoIter<Connection>,
    accepts: u64,
    last_accept: Option<Came>,
    faults: u64,
}

impl Model for Listener {
    ghost use Rattle.std.specs.Prelude.{option_map, take, drop};
    ghost use Rattle.std.specs.Vec.Iter.{into_iter_items};
    ghost use Rattle.script_net.specs.Content.{ListenerContent};

    ghost Value = { ListenerContent };

    ghost use Rattle.script_net.specs.Scripts.{offer_views};
    ghost use Rattle.script_net.specs.Listeners.{try_of_accept};
    ghost use Rattle.script_net.specs.Ends.{offering_at, IsListener};

    ghost view = { λ l. record {
      offering = offering_at (offer_views l.offers.items) l.next;
      connections = into_iter_items l.connections;
      accepts = l.accepts;
      last_accept = option_map try_of_accept l.last_accept;
      faults = l.faults;
    } };

    ghost invariant = { λ l. IsListener (offering_at (offer_views l.offers.items) l.next)
        (into_iter_items l.connections) };
}

impl Listener {
    ghost use Rattle.std.specs.Prelude.{length};

    /// A listener that made no accept. It offers each of the connections, by rising number from 0.
    pub(crate) fn new(offers: Vec<Offer>, connections: Vec<Connection>) -> Listener
        requires numbered { AreNumbered 0 (offer_views offers.items) }
        requires all_offered { many_offered (offer_views offers.items) ≡ length connections.items }
        ensures { result ≡ new_listener (offer_views offers.items) connections.items }
    {
        Listener {
            offers,
            next: 0,
            connections: connections.into_iter(),
            accepts: 0,
            last_accept: None,
            faults: 0,
        }
    }

    /// Says that the connections which it still offers have rising numbers.
    pub(crate) fn offers_by_number(&self)
        ensures { AreNumbered (many_offered self.now.offering.given) self.now.offering.left }
    {
        let _offers = &self.offers;
    }

    /// Takes the next of its story.
    pub(crate) fn accept(&mut self) -> Taken<Peer>
        ensures accepts { Accepts peer_facts (listener_facts self.old) result
            (listener_facts self.new) }
        ensures next { AcceptsNext self.old result self.new }
    {
        self.accepts = self.accepts.saturating_add(1);
        if self.next >= self.offers.len() {
            self.last_accept = Some(Came::Pause);
            return Taken::Pause;
        }
        let offer = self.offers[self.next];
        self.next += 1;
        match offer {
            Offer::Connection(number) => {
                self.last_accept = Some(Came::One);
                match self.connections.next() {
                    Some(connection) => Taken::One(Peer::new(number, connection)),
                    None => unreachable!(),
                }
            }
            Offer::Pause => {
                self.last_accept = Some(Came::Pause);
                Taken::Pause
            }
            Offer::Failure => {
                self.last_accept = Some(Came::Failed);
                self.faults = self.faults.saturating_add(1);
                Taken::Failed
            }
        }
    }
}

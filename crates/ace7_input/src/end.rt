//! The end.
ghost use Rattle.std.specs.Prelude.{◌≡◌, ◌≤◌, ◌<◌, None, Contains, length};
ghost use Rattle.std.proofs.Props.{props};
ghost use Rattle.ev_base.specs.Terms.{Terms};
ghost use Rattle.ev_base.specs.End.{IsFresh};
ghost use Rattle.ev_base.specs.Net.{NetAttaches};
ghost use Rattle.ace7_input.specs.Places.{EndsAt};

use crate::place::Place;
use ev_base::{Got, Handle, Mask, Net, NetFailed, PeerEnd, Sent, Taken};

/// An end whose reads give the bytes of another one, but with the order octet of version 2 in
/// each header. Each call makes the same call of that one, once, and takes no memory. It tells no
/// parts of a story.
#[derive(Drop)]
pub struct Ace7End<E: PeerEnd> {
    inner: E,
    place: Place,
    ghost placed: { EndsAt (E.tells inner).bytes place } by { Prim.hlevel props },
}

impl<E: PeerEnd> Ace7End<E> {
    ghost use Rattle.ace7_input.specs.Ends.{end_within, ace7_end_facts, Ace7EndKeeps};

    /// An end over this one, which has made no call.
    pub fn new(inner: E) -> Ace7End<E>
        requires { IsFresh (E.tells inner) }
        ensures end { end_within result ≡ inner }
        ensures fresh { IsFresh (ace7_end_facts E.tells result) }
        ensures kept { (t : Terms) → E.keeps t inner → t.stories ≡ None
            → Ace7EndKeeps E.keeps t result }
    {
        Ace7End {
            inner,
            place: Place::start(),
        }
    }

    /// The end within.
    pub fn into_inner(self) -> E
        ensures { result ≡ end_within self }
    {
        let Ace7End { inner, place: _ } = self;
        inner
    }

    /// Attaches the end within to a net.
    pub(crate) fn attach_to<M: Net<End = E>>(
        &mut self,
        net: &mut M,
        handle: Handle,
        mask: Mask,
    ) -> Result<(), NetFailed>
        requires place { 1 ≤ (M.facts net.old).spare }
        requires absent { Contains (M.facts net.old).attached handle.0 → ⊥ }
        ensures attaches { NetAttaches (M.facts net.old) handle.0 mask
            (ace7_end_facts E.tells self.old).serial result (M.facts net.new) }
        ensures told { ace7_end_facts E.tells self.new ≡ ace7_end_facts E.tells self.old }
        ensures end_kept { (t : Terms) → M.keeps t net.old → Ace7EndKeeps E.keeps t self.old
            → Ace7EndKeeps E.keeps t self.new }
        ensures kept { (t : Terms) → M.keeps t net.old → Ace7EndKeeps E.keeps t self.old
            → M.keeps t net.new }
    {
        net.attach(&mut self.inner, handle, mask)
    }
}

impl<E: PeerEnd> PeerEnd for Ace7End<E> {
    ghost use Rattle.ace7_input.specs.Ends.{ace7_end_facts, Ace7EndKeeps};
    ghost use Rattle.ace7_input.specs.NoStory.{keeps_stories};

    ghost tells = { ace7_end_facts E.tells };

    ghost keeps = { Ace7EndKeeps E.keeps };

    fn is_listener(&self) -> bool {
        self.inner.is_listener()
    }

    fn read(&mut self, buf: &mut [u8]) -> Got {
        let got = self.inner.read(buf);
        if let Got::Bytes(count) = got {
            self.place.pass_on(&mut buf[..count]);
        }
        got
    }

    fn write(&mut self, piece: &[u8]) -> Sent {
        self.inner.write(piece)
    }

    fn accept(&mut self) -> Taken<Ace7End<E>> {
        match self.inner.accept() {
            Taken::One(end) => Taken::One(Ace7End::new(end)),
            Taken::Pause => Taken::Pause,
            Taken::Failed => Taken::Failed,
        }
    }

    ghost keeps_story = { keeps_stories E.tells E.keeps E.keeps_story };
}

//! The end that the forwarding daemon works on.
ghost use Rattle.std.specs.Prelude.{◌≡◌, ◌≢◌, ◌<◌, ◌≤◌, Contains, false, length, None};
ghost use Rattle.ev_base.specs.Terms.{Terms, KeepsOn};
ghost use Rattle.ev_base.specs.End.{IsFresh, EndReads, EndWrites, EndFinishes};
ghost use Rattle.ev_base.specs.Net.{NetAttaches};
ghost use Rattle.one_net.specs.OneEnd.{input_of};
ghost use Rattle.one_net.specs.OneKeeps.{StartsAt};
ghost use Rattle.forwarder.specs.ForwardEnds.{peer_of, input_end, forward_facts, ForwardKeeps};

use crate::peer::Peer;
use ev_base::{DialEnd, Finish, Got, Handle, Mask, Net, NetFailed, PeerEnd, Sent, Source, Taken};
use one_net::OneEnd;

/// How many bytes are read at most: 2^40.
const MOST_INPUT: u64 = 1 << 40;

/// An end that is dialled, together with the source whose records are sent to it. It is dialled and
/// written as that end is; its reads are those of the source, of at most 2^40 bytes of it.
pub struct ForwardEnd<E: PeerEnd, S> {
    input: OneEnd<S>,
    peer: Peer<E>,
}

impl<E: DialEnd, S: Source> ForwardEnd<E, S> {
    /// An end of these parts. The dialled one is no listener, has no serial number and made no
    /// call.
    pub fn new(peer: E, input: S) -> ForwardEnd<E, S>
        requires no_listener { (E.tells peer).listener ≡ false }
        requires unnumbered { (E.tells peer).serial ≡ None }
        requires fresh { IsFresh (E.tells peer) }
        ensures peer { peer_of result ≡ peer }
        ensures input { input_of (input_end result) ≡ input }
        ensures fresh { IsFresh (forward_facts E.tells S.facts result) }
        ensures no_listener { (forward_facts E.tells S.facts result).listener ≡ false }
        ensures kept { (t : Terms) → E.keeps t peer → StartsAt t (S.facts input)
            → ForwardKeeps E.tells E.keeps S.facts t result }
    {
        ForwardEnd {
            input: OneEnd::new(input, MOST_INPUT),
            peer: Peer { end: peer },
        }
    }

    /// Reads the source into a buffer that is not empty. It never pauses. `Failed` comes if a
    /// read of the source failed or there is a byte after the last that may be read.
    pub fn read_input(&mut self, buf: &mut [u8]) -> Got
        requires { 0 < length buf.old }
        ensures reads { EndReads (forward_facts E.tells S.facts self.old) buf.new result
            (forward_facts E.tells S.facts self.new) }
        ensures kept { KeepsOn (ForwardKeeps E.tells E.keeps S.facts) self.old self.new }
        ensures never_pauses { result ≢ Got.Pause }
        ensures peer { peer_of self.new ≡ peer_of self.old }
    {
        self.input.read(buf)
    }

    /// Attaches the dialled end to a net.
    pub(crate) fn attach_to<M: Net<End = E>>(
        &mut self,
        net: &mut M,
        handle: Handle,
        mask: Mask,
    ) -> Result<(), NetFailed>
        requires place { 1 ≤ (M.facts net.old).spare }
        requires absent { Contains (M.facts net.old).attached handle.0 → ⊥ }
        ensures attaches { NetAttaches (M.facts net.old) handle.0 mask
            (forward_facts E.tells S.facts self.old).serial result (M.facts net.new) }
        ensures told { forward_facts E.tells S.facts self.new
            ≡ forward_facts E.tells S.facts self.old }
        ensures end_kept { (t : Terms) → M.keeps t net.old
            → ForwardKeeps E.tells E.keeps S.facts t self.old
            → ForwardKeeps E.tells E.keeps S.facts t self.new }
        ensures kept { (t : Terms) → M.keeps t net.old
            → ForwardKeeps E.tells E.keeps S.facts t self.old → M.keeps t net.new }
    {
        net.attach(&mut self.peer.end, handle, mask)
    }

    /// The dialled end, and the source as an end, which gives it back.
    pub fn into_parts(self) -> (E, OneEnd<S>)
        ensures { result ≡ (peer_of self, input_end self) }
    {
        let ForwardEnd {
            input,
            peer: Peer { end },
        } = self;
        (end, input)
    }
}

impl<E: DialEnd, S: Source> PeerEnd for ForwardEnd<E, S> {
    ghost use Rattle.forwarder.specs.ForwardLaws.{has_no_story};

    ghost tells = { forward_facts E.tells S.facts };

    ghost keeps = { ForwardKeeps E.tells E.keeps S.facts };

    fn is_listener(&self) -> bool {
        self.peer.end.is_listener()
    }

    fn read(&mut self, buf: &mut [u8]) -> Got
        requires room { 0 < length buf.old }
        ensures reads { EndReads (forward_facts E.tells S.facts self.old) buf.new result
            (forward_facts E.tells S.facts self.new) }
        ensures kept { KeepsOn (ForwardKeeps E.tells E.keeps S.facts) self.old self.new }
    {
        self.read_input(buf)
    }

    fn write(&mut self, piece: &[u8]) -> Sent
        requires some { 0 < length piece.now }
        ensures writes { EndWrites (forward_facts E.tells S.facts self.old) piece.now result
            (forward_facts E.tells S.facts self.new) }
        ensures kept { KeepsOn (ForwardKeeps E.tells E.keeps S.facts) self.old self.new }
        ensures input { input_end self.new ≡ input_end self.old }
    {
        self.peer.end.write(piece)
    }

    // It is no listener, so no run makes this call; it finds no connection, and changes nothing.
    fn accept(&mut self) -> Taken<ForwardEnd<E, S>>
        ensures pauses { result ≡ Taken.Pause }
        ensures same { self.new ≡ self.old }
    {
        Taken::Pause
    }

    ghost keeps_story = { has_no_story E.tells E.keeps S.facts };
}

impl<E: DialEnd, S: Source> DialEnd for ForwardEnd<E, S> {
    fn finish(&mut self) -> Finish
        ensures finishes { EndFinishes (forward_facts E.tells S.facts self.old) result
            (forward_facts E.tells S.facts self.new) }
        ensures kept { KeepsOn (ForwardKeeps E.tells E.keeps S.facts) self.old self.new }
        ensures input { input_end self.new ≡ input_end self.old }
    {
        self.peer.end.finish()
    }
}

//! The ends of a script.
ghost use Rattle.std.specs.Prelude.{◌≡◌, ◌≤◌, ◌<◌, ◌↔◌, true, false, length};
ghost use Rattle.ev_base.specs.Playing.{end_of_serial};
ghost use Rattle.script_net.specs.Scripts.{end_view};
ghost use Rattle.script_net.specs.Numbering.{IsNumbered};
ghost use Rattle.script_net.specs.ScriptEnd.{script_end_facts, role_held};

use crate::listener::Listener;
use crate::peer::Peer;
use crate::script::End;
use ev_base::{Got, PeerEnd, Sent, Taken};

/// What an end is.
#[derive(Drop)]
enum Role {
    Listener(Listener),
    Connection(Peer),
}

/// The listener of a script, or the end of one of its connections. It owns all that it has to tell
/// from the start: the listener also owns the ends of the connections that did not come yet.
///
/// A read gives the front of the next piece, as many bytes as the buffer takes, and the rest stays.
/// After a piece comes one pause. The end of the input and a failure are told from then on, a
/// failure of the listener once. When nothing is left to tell, each read and accept pauses. A
/// write takes bytes until as many are held as the script has room for, and then pauses; it never
/// fails.
#[derive(Drop)]
pub struct ScriptEnd {
    role: Role,
}

impl ScriptEnd {
    // The end of a listener.
    pub(crate) fn of_listener(listener: Listener) -> ScriptEnd
        ensures { result.role ≡ Role.Listener listener }
    {
        ScriptEnd {
            role: Role::Listener(listener),
        }
    }

    // Says that the connections which a listener still offers have rising numbers.
    pub(crate) fn offers_by_number(&self)
        ensures { IsNumbered (script_end_facts self.now).offering }
    {
        match &self.role {
            Role::Listener(listener) => listener.offers_by_number(),
            Role::Connection(_) => {}
        }
    }

    /// The bytes that were written to it, in order. A listener has none.
    pub fn held(&self) -> &[u8]
        ensures { result.now ≡ role_held self.now.role }
    {
        match &self.role {
            Role::Listener(_) => &[],
            Role::Connection(peer) => peer.held(),
        }
    }

    // The end at which the steps of a script reach it.
    pub(crate) fn place(&self) -> End
        ensures { end_view result ≡ end_of_serial (script_end_facts self.now).serial }
    {
        match &self.role {
            Role::Listener(_) => End::Listener,
            Role::Connection(peer) => End::Connection(peer.number()),
        }
    }

    // Its serial number, if it has one: a listener has none.
    pub(crate) fn serial(&self) -> Option<u64>
        ensures { result ≡ (script_end_facts self.now).serial }
    {
        match &self.role {
            Role::Listener(_) => None,
            Role::Connection(peer) => Some(peer.number()),
        }
    }
}

impl PeerEnd for ScriptEnd {
    ghost use Rattle.ev_base.specs.Terms.{Terms};
    ghost use Rattle.ev_base.specs.End.{EndReads, EndWrites, Accepts, KeptByGiven};
    ghost use Rattle.script_net.specs.ScriptEnd.{script_end_facts, ScriptEndKeeps, RoleReads};
    ghost use Rattle.script_net.specs.ScriptEnd.{RoleWrites, RoleAccepts};
    ghost use Rattle.script_net.specs.StoryOfEnd.{keeps_its_story};

    ghost tells = { script_end_facts };

    ghost keeps = { ScriptEndKeeps };

    fn is_listener(&self) -> bool {
        match &self.role {
            Role::Listener(_) => true,
            Role::Connection(_) => false,
        }
    }

    fn read(&mut self, buf: &mut [u8]) -> Got
        requires reader { (script_end_facts self.old).listener ≡ false }
        requires room { 0 < length buf.old }
        ensures reads { EndReads (script_end_facts self.old) buf.new result
            (script_end_facts self.new) }
        ensures kept { (t : Terms) → ScriptEndKeeps t self.old → ScriptEndKeeps t self.new }
        ensures exactly { RoleReads self.old.role (length buf.old) self.new.role }
    {
        match &mut self.role {
            Role::Listener(_) => unreachable!(),
            Role::Connection(peer) => peer.read(buf),
        }
    }

    fn write(&mut self, piece: &[u8]) -> Sent
        requires writer { (script_end_facts self.old).listener ≡ false }
        requires some { 0 < length piece.now }
        ensures writes { EndWrites (script_end_facts self.old) piece.now result
            (script_end_facts self.new) }
        ensures kept { (t : Terms) → ScriptEndKeeps t self.old → ScriptEndKeeps t self.new }
        ensures exactly { RoleWrites self.old.role piece.now result self.new.role }
    {
        match &mut self.role {
            Role::Listener(_) => unreachable!(),
            Role::Connection(peer) => peer.write(piece),
        }
    }

    fn accept(&mut self) -> Taken<ScriptEnd>
        requires { (script_end_facts self.old).listener ≡ true }
        ensures accepts { Accepts script_end_facts (script_end_facts self.old) result
            (script_end_facts self.new) }
        ensures kept { (t : Terms) → ScriptEndKeeps t self.old → ScriptEndKeeps t self.new }
        ensures given { (t : Terms) → ScriptEndKeeps t self.old
            → KeptByGiven (ScriptEndKeeps t) result }
        ensures exactly { RoleAccepts self.old.role result self.new.role }
    {
        match &mut self.role {
            Role::Listener(listener) => match listener.accept() {
                Taken::One(peer) => Taken::One(ScriptEnd {
                    role: Role::Connection(peer),
                }),
                Taken::Pause => Taken::Pause,
                Taken::Failed => Taken::Failed,
            },
            Role::Connection(_) => unreachable!(),
        }
    }

    ghost keeps_story = { keeps_its_story };
}

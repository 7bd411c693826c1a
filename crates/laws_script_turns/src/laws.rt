//! Laws of turns over the stories of a script. Each function has an empty body: what it says is its
//! contract.

ghost use Rattle.laws_script_turns.specs.Laws.{ConnectionsSayAll, ConnectionsTakeAll};
ghost use Rattle.laws_script_turns.specs.Laws.{ListenersTakeAll};

/// The notes of a connection that has read all that was reported of it, and its closing, have the
/// lines of all its bytes.
pub fn connections_say_all()
    ensures { ConnectionsSayAll }
{}

/// A connection that read on to its end took all its bytes, whatever its idle time.
pub fn connections_take_all()
    ensures { ConnectionsTakeAll }
{}

/// An acceptor that has taken all that was reported of its listener has taken every connection.
pub fn listeners_take_all()
    ensures { ListenersTakeAll }
{}

//! Laws of whole runs over a script. Each function has an empty body: what it says is its contract.

ghost use Rattle.laws_script_runs.specs.Laws.{NoneIsRefused, GroupsLines};

use laws_script_told::ServerNote;
use reactor_model::EventHandler;

/// If there is room for all connections of the script beside the acceptor, a run refuses none.
pub fn none_is_refused<H: EventHandler<Note = ServerNote>>()
    ensures { NoneIsRefused H.means }
{}

/// The lines of a run, connection after connection, are the grouped text of its script, however
/// many workers ran it.
pub fn groups_lines<H: EventHandler<Note = ServerNote>>()
    ensures { GroupsLines H.means }
{}

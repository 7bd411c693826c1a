//! Laws of the calls of a net that plays a script. Each function has an empty body: what it says is
//! its contract.

ghost use Rattle.laws_script_calls.specs.Laws.{CallsFollow};
ghost use Rattle.laws_script_calls.specs.Leaving.{EndsTell};

use laws_script_runs::{EventHandler, ServerNote};

/// If the calls of a net are those that a journal tells, and are answered as a script has it,
/// the journal follows the script.
pub fn calls_follow<H: EventHandler<Note = ServerNote>>()
    ensures { CallsFollow H.means }
{}

/// The ends that a net keeps, which had the stories of a script, tell that the turns in the journal
/// are those over these stories.
pub fn ends_tell<H: EventHandler<Note = ServerNote>>()
    ensures { EndsTell H.means H.End.tells H.End.keeps }
{}

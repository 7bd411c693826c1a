//! Laws of runs of the server over a net that plays a script. Each function has an empty body: what
//! it says is its contract.
ghost use Rattle.laws_script_served.specs.Laws.{LaysScriptsDown, ScriptsAreFollowed};
ghost use Rattle.laws_script_served.specs.Laws.{ScriptsEndOver, ScriptsRunOver};

use ev_base::PeerEnd;
use script_net::ScriptEnd;

/// Terms that have all that a script tells lay down the script that is read from its text, and have
/// the stories of its steps.
pub fn scripts_are_laid_down()
    ensures { LaysScriptsDown }
{}

/// The journal of a run of the server over such a net follows the script, and each handler of it
/// had its turns over its story.
pub fn scripts_are_followed()
    ensures { ScriptsAreFollowed ⟦<ScriptEnd as PeerEnd>⟧ }
{}

/// If the run ended after a wait that the net answered Over, the script answers it so too.
pub fn scripts_end_over()
    ensures { ScriptsEndOver ⟦<ScriptEnd as PeerEnd>⟧ }
{}

/// Then the journal, if nobody posted, is one that ran over the script.
pub fn scripts_run_over()
    ensures { ScriptsRunOver ⟦<ScriptEnd as PeerEnd>⟧ }
{}

//! Laws of whole runs over a script. Each function has an empty body: what it says is its contract.

ghost use Rattle.laws_journal_limits.specs.Laws.{RecordsAreWithin, ScriptsAreWithin};
ghost use Rattle.laws_journal_limits.specs.Laws.{JournalsAreWithin};

use laws_script_taken::{EventHandler, ServerNote};

/// The records that a list of bytes is read as are within the limits of a journal's text.
pub fn records_are_within()
    ensures { RecordsAreWithin }
{}

/// A script whose text has at most 2^40 bytes names no moment and brings no bytes beyond them.
pub fn scripts_are_within()
    ensures { ScriptsAreWithin }
{}

/// The text of the journal of a run over a script, however many threads made it and however it
/// ended, is one that is read again, if no notice was asked for and the script, the idle time,
/// the handlers and the entries are as many as the text may name.
pub fn journals_are_within<H: EventHandler<Note = ServerNote>>()
    ensures { JournalsAreWithin H.means }
{}

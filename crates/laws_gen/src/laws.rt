//! Laws of runs over generated scripts. Each function has an empty body: what it says is its
//! contract.
ghost use Rattle.laws_gen.specs.Reading.{GeneratedTextsAreRead};
ghost use Rattle.laws_gen.specs.Runs.{SummariesAreKnown, FullRunsAreKnown, GroupedTextsAreKnown};

use laws_script_complete::{EventHandler, ServerNote};

/// A run over a generated script took all its connections, records and bytes, and its lines are
/// those of its records and of the closings of its connections.
pub fn summaries_are_known<H: EventHandler<Note = ServerNote>>()
    ensures unrefused { SummariesAreKnown H.means }
    ensures with_room { FullRunsAreKnown H.means }
{}

/// The grouped text of a generated script has the lines of all its records, and each connection's
/// closing word is `end`.
pub fn grouped_texts_are_known()
    ensures { GroupedTextsAreKnown }
{}

/// A reader of scripts reads a generated text as the generated script, and refuses it for want of
/// memory alone.
pub fn generated_texts_are_read()
    ensures { GeneratedTextsAreRead }
{}

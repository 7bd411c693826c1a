//! Laws of whole runs over a script, however they ended. Each function has an empty body: what it
//! says is its contract.

ghost use Rattle.laws_script_taken.specs.Laws.{ConnectionsAreTaken, NotesAreOfAccepted};
ghost use Rattle.laws_script_taken.specs.Laws.{OffersBehindTheEnd};

use laws_script_complete::{EventHandler, ServerNote};

/// Each connection that the journal of a run notes as accepted took a front of the bytes that the
/// script brings it, noted the records of these, and was closed once, with a word that has its
/// cause.
pub fn connections_are_taken<H: EventHandler<Note = ServerNote>>()
    ensures { ConnectionsAreTaken H.means }
{}

/// Each note of a connection in the journal of a run, of its turns and of its end, stands after
/// its acceptance.
pub fn notes_are_of_accepted<H: EventHandler<Note = ServerNote>>()
    ensures { NotesAreOfAccepted H.means }
{}

/// After the end of a run each handler that a turn installs is refused, if nothing stands there
/// but removals and closings, or if the journal goes by turns there too.
pub fn offers_behind_the_end<H: EventHandler>()
    ensures { OffersBehindTheEnd H.means }
{}

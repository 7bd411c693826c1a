//! The law of audits. The function has an empty body: what it says is its contract, over the
//! definitions alone.

ghost use Rattle.cmd_audit.specs.Laws.{LegalJournalsPass};

/// The text of a legal journal within the limits of the text is found legal, unless a read or a
/// write fails, it is longer than may be read, or there is no memory.
pub fn legal_journals_pass()
    ensures { LegalJournalsPass }
{}

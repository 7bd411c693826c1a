//! Laws of the summary of a legal journal. Each function has an empty body: what it says is its
//! contract, over the definitions alone.

ghost use Rattle.reactor_summary.specs.Laws.{IsKept, IsTold, PicksThat, PicksNone, SaysWhatFollows};

/// The summary is kept entry by entry, and tells of a legal journal what the journal tells.
pub fn summary_tells<N>()
    ensures kept { IsKept N }
    ensures told { IsTold N }
{}

/// The first event of the first class that has one of a free handle is the event to be started
/// next; if there is none, no event may be started.
pub fn summary_picks<N>()
    ensures that { PicksThat N }
    ensures none { PicksNone N }
{}

/// An entry may follow a legal journal exactly if the summary says so.
pub fn summary_rules<N>()
    ensures { SaysWhatFollows N }
{}

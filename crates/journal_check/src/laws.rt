//! Laws of a refusal. The function has an empty body: what it says is its contract, over the
//! definitions alone.

ghost use Rattle.journal_check.specs.Laws.{IsLegalBefore, IsIllegalBehind, IsIllegalAsWhole};
ghost use Rattle.journal_check.specs.Laws.{RefusesOnce};

/// If a journal is refused at a place, each front up to it is legal and none beyond it is, so that
/// the place is the least one and the only one.
pub fn refused_at_the_least<N>()
    ensures before { IsLegalBefore N }
    ensures behind { IsIllegalBehind N }
    ensures whole { IsIllegalAsWhole N }
    ensures once { RefusesOnce N }
{}

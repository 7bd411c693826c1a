//! Laws of every legal journal. Each function has an empty body: what it says is its contract, over
//! the definitions alone.

ghost use Rattle.laws_reports.specs.Laws.{AnswersEach};

/// If nothing is open and nothing can be started, a handler that is alive has had, for each
/// report of a kind that it was given, one turn of that kind that did not ask for the next.
pub fn answers_each<N>()
    ensures { AnswersEach N }
{}

//! Laws of journals that follow a script. Each function has an empty body: what it says is its
//! contract.

ghost use Rattle.laws_script_told.specs.Laws.{AllIsReported};

/// Once nothing can be reported any more, a handle that is alive was reported as often as there are
/// steps at its end.
pub fn all_is_reported()
    ensures { AllIsReported }
{}

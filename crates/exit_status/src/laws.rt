//! A law of the table of statuses. The function has an empty body: what it says is its contract,
//! over the definitions alone.
ghost use Rattle.exit_status.specs.Laws.{StatusesHaveCodes};

/// A status is told whole by its code and its number, so no two statuses have both alike.
pub fn statuses_have_codes()
    ensures { StatusesHaveCodes }
{}

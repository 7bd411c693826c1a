//! Laws of every picture. Each function has an empty body: what it says is its contract, over the
//! definitions alone.

ghost use Rattle.journal_picture.specs.Laws.{MarksEachOnce, StandsInItsLane, BeginsAtItsStart};
ghost use Rattle.journal_picture.specs.Laws.{HasItsLane};

/// Each entry of a journal has exactly one mark, and the marks stand in the order of the entries,
/// under their numbers.
pub fn each_has_one_mark()
    ensures { MarksEachOnce }
{}

/// In the picture of a legal journal the mark of an entry stands in the lane of the handle that the
/// entry names.
pub fn each_stands_in_its_lane()
    ensures { StandsInItsLane }
{}

/// In the picture of a legal journal the bar of an upcall begins at its `Started`, and it ends at
/// its `Returned`, whose mark it is.
pub fn each_bar_begins_at_its_start()
    ensures { BeginsAtItsStart }
{}

/// In the picture of a legal journal each handle that was opened has a lane of its own.
pub fn each_handle_has_its_lane()
    ensures { HasItsLane }
{}

//! The laws of a connection's turns. Each function here has a law as its contract and does nothing.
ghost use Rattle.log_handler.specs.Laws.{CoursesAccount};

/// What the turns of a connection come to: the bytes that it took, the records of its notes, its
/// reads, its answers Again, and why it ended as it did.
pub fn courses_account()
    ensures { CoursesAccount }
{}

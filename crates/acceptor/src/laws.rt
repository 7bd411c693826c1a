//! The laws of an acceptor's turns. Each function here has a law as its contract and does nothing.
ghost use Rattle.acceptor.specs.Laws.{CoursesAccount};

/// What the turns of an acceptor come to: the numbers of its connections, its accepts, its answers
/// Again, and the ends that it took of its listener's story.
pub fn courses_account()
    ensures { CoursesAccount }
{}

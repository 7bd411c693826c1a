//! Laws of every legal journal. Each function has an empty body: what it says is its contract, over
//! the definitions alone.

ghost use Rattle.reactor_journal.specs.Laws.{HasOneOpenUpcall, HasOneFate, StartsOnce};
ghost use Rattle.reactor_journal.specs.Laws.{StartsEvents, ClosesOnce, OnlyStaleFollows};
ghost use Rattle.reactor_journal.specs.Laws.{HasNoTurnMeanwhile, PicksOne, PicksSome};
ghost use Rattle.reactor_journal.specs.Laws.{ReportsAreEvents, ArmedRises, ArmedOnce, IsAboveNow};
ghost use Rattle.reactor_journal.specs.Laws.{IsOfTheRow, IsLeastAbove};

/// No handle has two open events, so no event handler is in two upcalls at once (POSA2,
/// Leader/Followers; the suspended handle of `ACE_TP_Reactor`, C++NPv2 chapter 4).
pub fn one_open_upcall<N>()
    ensures { HasOneOpenUpcall N }
{}

/// Each event is exactly one of started, dropped and waiting. None is started twice, and what is
/// started is an event.
pub fn one_fate<N>()
    ensures one { HasOneFate N }
    ensures once { StartsOnce N }
    ensures event { StartsEvents N }
{}

/// A handle is closed at most once, and after that only a stale notification names it.
pub fn closed_for_good<N>()
    ensures once { ClosesOnce N }
    ensures stale { OnlyStaleFollows N }
{}

/// While an event of a handle is open its handler has no further turn.
pub fn no_turn_meanwhile<N>()
    ensures { HasNoTurnMeanwhile N }
{}

/// If an event is able there is one pick, and there are never two.
pub fn one_pick<N>()
    ensures one { PicksOne N }
    ensures some { PicksSome N }
{}

/// Each report of a timer, of the demultiplexer and of a poster is an event.
pub fn reports_are_events<N>()
    ensures { ReportsAreEvents N }
{}

/// The armed timers stand in rising order of deadline and number, each once.
pub fn armed_in_order<N>()
    ensures rising { ArmedRises N }
    ensures once { ArmedOnce N }
{}

/// The next deadline of a periodic timer is the least of d + every, d + 2 * every and so on that is
/// above the moment.
pub fn next_is_least()
    ensures above { IsAboveNow }
    ensures of_the_row { IsOfTheRow }
    ensures least { IsLeastAbove }
{}

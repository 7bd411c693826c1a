//! Laws of journals that go by turns. Each function has an empty body: what it says is its
//! contract, over the definitions alone.
ghost use Rattle.laws_by_turns.specs.Laws.{BeginsByTurns, GoesOnDispatching, GoesOnByTurns};

use reactor_model::EventHandler;

/// From its end on every journal goes by turns.
pub fn begins_by_turns<H: EventHandler>()
    ensures { BeginsByTurns H.means }
{}

/// A journal that goes by turns does so still with what waits, notifications and the starts of
/// upcalls append.
pub fn goes_on_dispatching<H: EventHandler>()
    ensures { GoesOnDispatching H.means }
{}

/// It does so still with entries each of which goes by turns after those before it, as those of a
/// turn that is settled.
pub fn goes_on_by_turns<H: EventHandler>()
    ensures { GoesOnByTurns H.means }
{}

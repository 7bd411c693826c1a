//! Laws of what is on its way while a reactor goes on. Each function has an empty body: what it
//! says is its contract.
ghost use Rattle.reactor_core.specs.Laws.{IsSettledLater, IsOverOnceStopped};

use reactor_model::EventHandler;

/// An upcall that was made may be settled later: whatever entries came between, while its event is
/// open, it fits the journal still.
pub fn settled_later<H: EventHandler>()
    ensures { IsSettledLater H.means }
{}

/// A reactor that was stopped, with no upcall on its way, is over: every handler was closed. What a
/// reactor stands for is settled.
pub fn stopped_is_over()
    ensures { IsOverOnceStopped }
{}

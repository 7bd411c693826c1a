//! Observers: what workers show each upcall to.
ghost use Rattle.std.specs.Prelude.{◌≡◌, ◌<◌, IfOk, OnErr, length};

use ev_base::NoMemory;
use reactor_core::Done;
use reactor_model::EventHandler;
use std::alloc::Global;

/// What a worker shows each upcall that it made, before it settles it. A worker has its own, and
/// calls it while it does not hold the token.
pub trait Observer<H: EventHandler> {
    ghost use Rattle.reactor_core.specs.declared.job.Done.{Done};

    /// What it becomes when it is shown an upcall.
    ghost observes: { Self → Done H H.Note H.End → Self → Type 0 };

    /// Is shown an upcall that was made, with its event, its answer and its note.
    fn observe(&mut self, done: &Done<H>)
        ensures { observes self.old done.entry.now self.new };
}

/// An observer that does nothing.
#[derive(Clone, Copy, Drop, PartialEq, Eq, Debug)]
pub struct NoObserver;

impl<H: EventHandler> Observer<H> for NoObserver {
    ghost observes = { λ _ _ _. Unit {0} };

    fn observe(&mut self, _done: &Done<H>) {}
}

// So many observers that do nothing. None takes no memory.
pub(crate) fn no_observers(alloc: Global, many: usize) -> Result<Vec<NoObserver>, NoMemory>
    ensures all { IfOk result (λ observers. length observers.items ≡ many) }
    ensures some { OnErr result (0 < many) }
{
    let mut observers = Vec::new(alloc);
    while observers.len() < many {
        observers.push(NoObserver)?;
    }
    Ok(observers)
}

//! What is left of the operations when a connection is closed.
ghost use Rattle.proactor.specs.Closing.{CancelsOne, CancelsSo};

use crate::standing::Standing;
use crate::sums::Sums;
use crate::{Completed, CompletionHandler, Outcome};

/// Tells a completion handler that the operations which stand are cancelled, reads first, and tells
/// how many they were. What it asks for then is dropped.
pub(crate) fn cancel_all<C: CompletionHandler>(
    handler: &mut C,
    standing: &mut Standing,
    sums: &mut Sums,
) -> u64
    ensures { CancelsSo C.follows standing.old handler.old handler.new sums.old sums.new result }
{
    let mut cancelled = 0u64;
    while let Some(id) = standing.take_out() {
        cancel(handler, id);
        sums.complete(false);
        cancelled = cancelled.saturating_add(1);
    }
    cancelled
}

/// Tells a completion handler that this operation is cancelled.
fn cancel<C: CompletionHandler>(handler: &mut C, id: u64)
    ensures { CancelsOne C.follows id handler.old handler.new }
{
    let outcome = Outcome::Cancelled;
    let _dropped = handler.completed(Completed { id, outcome });
}

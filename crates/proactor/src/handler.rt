//! What is told of completions.
ghost use Rattle.std.specs.Prelude.{IfOk, List};
ghost use Rattle.proactor.specs.declared.operation.Op.{Op};
ghost use Rattle.proactor.specs.Operations.{AreOps, FollowsOn, Told};

use crate::{Completed, Next};
use ev_base::NoMemory;

/// A completion handler (POSA2, Proactor): it is told of each operation that has completed, and
/// asks for the next ones. It says by a relation what the completions so far mean for it.
pub trait CompletionHandler {
    /// Its end began with this operation, and it was told of exactly these completions, in order.
    ghost follows: { Self → Op → List Told → Type 0 };

    /// An operation has completed. After `NoMemory` the handler is as it was before.
    fn completed(&mut self, completed: Completed) -> Result<Next, NoMemory>
        ensures follows { (first : Op) (list : List Told) → follows self.old first list
            → FollowsOn (follows self.new first) list completed result }
        ensures asks { IfOk result (λ next. AreOps next.ops) };
}

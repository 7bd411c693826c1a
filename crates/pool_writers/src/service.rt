//! What is done with the items of a pool.
use std::sync::Wait;
use task_server::Item;

/// What is done with the items of a pool, in its synchronous layer (POSA2, Half-Sync/Half-Async: a
/// synchronous service; C++NPv2 chapter 6, `ACE_Task::svc`). It may wait.
pub trait Service {
    ghost use Rattle.std.specs.Prelude.{◌≡◌, ◌∷◌, ◌++◌, List, []};
    ghost use Rattle.task_server.specs.declared.item.Item.{Item};

    /// The items that it was given, in order.
    ghost served: { Self → List Item };

    /// Is given the next item.
    fn serve<R: Wait>(&mut self, rt: &R, item: Item)
        ensures { served self.new ≡ served self.old ++ item ∷ [] };
}

//! How the items that are left are taken.
ghost use Rattle.std.specs.Prelude.{List};
ghost use Rattle.task_server.specs.Calls.{Remain, TakesFirst};

use crate::rule::Whole;
use crate::sides::Left;
use std::sync::Wait;

impl<T> Left<T> {
    /// Takes the first item. None comes exactly if there is none. It takes no memory.
    pub fn next<R: Wait>(&mut self, rt: &R) -> Option<T>
        ensures { (items : List T) → Remain self.old items
            → TakesFirst items result (Remain self.new) }
    {
        self.queue.pop_as::<Whole, R>(rt, &mut self.pass)
    }
}

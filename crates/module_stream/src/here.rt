//! A task that its caller runs.
ghost use Rattle.std.specs.Prelude.{◌≡◌, [], ◌∷◌, ◌++◌, List, true, IfOk, IfErr};
ghost use Rattle.crossbeam_queue.specs.Passes.{view, IsPassOf, Pass};
ghost use Rattle.message_block.specs.Messages.{MessageState};
ghost use Rattle.message_lines.specs.declared.line.Item.{Item};
ghost use Rattle.message_lines.specs.declared.line.Log.{Log};
ghost use Rattle.message_lines.specs.Caller.{HasStopped};
ghost use Rattle.module_stream.specs.Progress.{Gives, Begins, Progress};
ghost use Rattle.module_stream.specs.Works.{HasWorked};

use crate::work::Worker;
use crate::{Messages, Task};
use ev_types::NoMemory;
use message_block::Message;
use message_lines::{Ends, Lines, Total};
use std::mem;

/// A task that runs in its caller's thread.
#[derive(Drop)]
pub(crate) struct Here<T: Task> {
    pub(crate) task: T,
    /// Whether a message was lost for want of memory. All that come out since are dropped.
    pub(crate) lost: bool,
    /// What came out and was not answered yet.
    pub(crate) held: Vec<Message>,
}

/// The task of a thread that has ended, with what came back from it.
pub(crate) fn settle<T: Task>(lines: Lines, worker: Worker<T>) -> Here<T>
    requires over { lines.inbox.over ≡ true }
    requires takes { IsPassOf lines.feed.value worker.takes × ((view worker.takes).takes ≡ true) }
    requires puts { IsPassOf lines.came.value worker.puts × ((view worker.puts).puts ≡ true) }
    ensures { (task : _) (takes puts : Pass Item Log) (put answered : List MessageState)
        → HasWorked T.gives task takes puts worker → HasStopped put answered lines
        → Progress (T.gives task) put (answered ++ result.held.items) result.lost
        (T.gives result.task) }
{
    let Lines {
        feed,
        came,
        mut puts,
        takes,
        inbox,
        waits: _,
    } = lines;
    let Worker {
        task,
        takes: their_takes,
        puts: mut their_puts,
        lost,
        gathered: _,
    } = worker;
    feed.absorb::<Ends>(&mut puts, their_takes);
    feed.learn_as::<Total>(&mut puts);
    came.absorb::<Ends>(&mut their_puts, takes);
    came.learn_as::<Total>(&mut their_puts);
    Here {
        task,
        lost: lost || inbox.lost,
        held: inbox.messages,
    }
}

impl<T: Task> Here<T> {
    /// Puts a message into the task, and gives what has come out.
    pub(crate) fn put(&mut self, message: Message) -> Vec<Message>
        ensures given { (first : Gives) (put answered : List MessageState)
            → Progress first put (answered ++ self.old.held.items) self.old.lost
            (T.gives self.old.task) → Progress first (put ++ message ∷ [])
            (answered ++ result.items) self.new.lost (T.gives self.new.task) }
        ensures held { self.new.held.items ≡ [] }
    {
        self.take(message);
        let none = Vec::new(*self.held.allocator());
        mem::replace(&mut self.held, none)
    }

    /// Puts messages into the task in order, and gives what has come out.
    pub(crate) fn put_all(&mut self, messages: Vec<Message>) -> Vec<Message>
        ensures given { (first : Gives) (put answered : List MessageState)
            → Progress first put (answered ++ self.old.held.items) self.old.lost
            (T.gives self.old.task) → Progress first (put ++ messages.items)
            (answered ++ result.items) self.new.lost (T.gives self.new.task) }
        ensures held { self.new.held.items ≡ [] }
    {
        for message in messages {
            self.take(message);
        }
        let none = Vec::new(*self.held.allocator());
        mem::replace(&mut self.held, none)
    }

    /// Puts a message into the task, and holds what comes out.
    fn take(&mut self, message: Message)
        ensures { (first : Gives) (put answered : List MessageState)
            → Progress first put (answered ++ self.old.held.items) self.old.lost
            (T.gives self.old.task) → Progress first (put ++ message ∷ [])
            (answered ++ self.new.held.items) self.new.lost (T.gives self.new.task) }
    {
        if self.lost {
            return;
        }
        let Ok(out) = self.task.put(message) else {
            self.lost = true;
            return;
        };
        let mut out = out.into_vec();
        match self.held.append(&mut out) {
            Ok(()) => return,
            Err(_) => self.lost = true,
        }
    }

    /// Finishes the task, and gives what has come out and comes out now.
    pub(crate) fn finish(self) -> Result<Messages, (Messages, NoMemory)>
        ensures whole { (first : Gives) (put answered : List MessageState)
            → Progress first put (answered ++ self.held.items) self.lost (T.gives self.task)
            → IfOk result (λ out. answered ++ out ≡ first put) }
        ensures front { (first : Gives) (put answered : List MessageState)
            → Progress first put (answered ++ self.held.items) self.lost (T.gives self.task)
            → IfErr result (λ refusal. Begins (answered ++ refusal.0) (first put)) }
    {
        let Here {
            mut task,
            lost,
            mut held,
        } = self;
        if lost {
            return Err((Messages::new(held), NoMemory));
        }
        let Ok(rest) = task.finish() else {
            return Err((Messages::new(held), NoMemory));
        };
        let mut rest = rest.into_vec();
        match held.append(&mut rest) {
            Ok(()) => Ok(Messages::new(held)),
            Err(_) => Err((Messages::new(held), NoMemory)),
        }
    }
}

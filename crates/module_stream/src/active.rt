//! Active tasks.
ghost use Rattle.std.specs.Prelude.{◌≡◌, ◌≤◌, [], ◌∷◌, ◌++◌, List, length, IfOk, OnOk, OnErr};
ghost use Rattle.std.specs.Prelude.{IfErr, false};
ghost use Rattle.crossbeam_queue.specs.Passes.{view, IsPassOf};
ghost use Rattle.message_block.specs.Messages.{MessageState};
ghost use Rattle.module_stream.specs.Progress.{Gives, Begins, Progress};
ghost use Rattle.module_stream.specs.Works.{HasWorked};

use crate::here::{Here, settle};
use crate::work::{Worker, Works, work};
use crate::{Messages, Task};
use ev_types::NoMemory;
use message_block::Message;
use message_lines::{Batch, Item, Lines, open};
use std::alloc::Global;
use std::snapshot::Snapshot;
use std::sync::Wait;
use std::thread::{self, PromisedHandle, Threads};

/// A task that runs on a thread of its own. Messages go to it through a queue of 64 places, one by
/// one or some together, and what comes out comes back through another. Whoever waits for the other
/// looks a few times and then sleeps. If no thread can be started, the caller runs the task
/// inside `put` and `finish`. An active task is ended by `finish` and cannot be let go otherwise,
/// so that no thread is left behind.
pub struct ActiveTask<T: Task> {
    runner: Runner<T>,
}

/// Who runs the task.
enum Runner<T: Task> {
    /// A thread.
    Beside(Beside<T>),
    /// The caller.
    Here(Here<T>),
}

/// A thread that runs a task, and the lines to it and back.
struct Beside<T: Task> {
    lines: Lines,
    child: PromisedHandle<Worker<T>, Works<T>>,
    ghost fed: { IsPassOf lines.feed.value child.promise.takes.value },
    ghost gives: { IsPassOf lines.came.value child.promise.puts.value },
}

impl<T: Task + Send + 'static> ActiveTask<T> {
    ghost use Rattle.module_stream.specs.Active.{Runs, KeepsNone};

    /// Starts a thread that runs a task. `NoMemory` gives the task back: there was no memory for
    /// the queues.
    pub fn begin<R: Threads + Wait + Copy + Send + 'static>(
        rt: &R,
        alloc: Global,
        task: T,
    ) -> Result<ActiveTask<T>, (T, NoMemory)>
        ensures runs { IfOk result (λ active. Runs T.gives (T.gives task) [] [] active) }
        ensures refused { IfErr result (λ refusal. refusal.0 ≡ task) }
    {
        let Ok((lines, side)) = open(alloc) else {
            return Err((task, NoMemory));
        };
        let mut lines = lines;
        let promise = Works {
            task: Snapshot::of(&task),
            takes: Snapshot::of(&side.takes),
            puts: Snapshot::of(&side.puts),
        };
        let own = *rt;
        let there = move || -> Worker<T>
            ensures { HasWorked T.gives task side.takes side.puts result }
        {
            let (side, task) = (side, task);
            work(&own, alloc, side, task)
        };
        match thread::spawn_with(rt, promise, there) {
            Ok(child) => Ok(ActiveTask {
                runner: Runner::Beside(Beside { lines, child }),
            }),
            Err(refused) => {
                lines.stop(rt);
                let worker = (refused.value)();
                lines.take_rest(rt);
                Ok(ActiveTask {
                    runner: Runner::Here(settle(lines, worker)),
                })
            }
        }
    }

    /// Puts a message, and gives all that has come out and was not given yet. It waits until the
    /// queue to the thread has room. `NoMemory` gives the message back, which was not put: there
    /// was no memory for what may have come out. The active task is as before, and nothing is lost.
    pub fn put<R: Wait>(&mut self, rt: &R, m: Message) -> Result<Messages, (Message, NoMemory)>
        ensures given { (first : Gives) (put answered : List MessageState)
            → Runs T.gives first put answered self.old
            → IfOk result (λ out. Runs T.gives first (put ++ m ∷ []) (answered ++ out) self.new) }
        ensures none_kept { OnOk result (KeepsNone self.new) }
        ensures refused { IfErr result (λ refusal. refusal.0 ≡ m) }
        ensures unchanged { (first : Gives) (put answered : List MessageState)
            → Runs T.gives first put answered self.old
            → OnErr result (Runs T.gives first put answered self.new) }
    {
        match &mut self.runner {
            Runner::Beside(beside) => beside.put(rt, m),
            Runner::Here(here) => Ok(Messages::new(here.put(m))),
        }
    }

    /// Puts messages in order, at most 256, as `put` does one: they go to the thread together.
    pub fn put_all<R: Wait>(
        &mut self,
        rt: &R,
        messages: Messages,
    ) -> Result<Messages, (Messages, NoMemory)>
        requires { length messages ≤ 256 }
        ensures given { (first : Gives) (put answered : List MessageState)
            → Runs T.gives first put answered self.old
            → IfOk result (λ out. Runs T.gives first (put ++ messages) (answered ++ out) self.new) }
        ensures none_kept { OnOk result (KeepsNone self.new) }
        ensures refused { IfErr result (λ refusal. refusal.0 ≡ messages) }
        ensures unchanged { (first : Gives) (put answered : List MessageState)
            → Runs T.gives first put answered self.old
            → OnErr result (Runs T.gives first put answered self.new) }
    {
        match &mut self.runner {
            Runner::Beside(beside) => beside.put_all(rt, messages),
            Runner::Here(here) => Ok(Messages::new(here.put_all(messages.into_vec()))),
        }
    }

    /// Ends the list of messages, waits until the thread has ended, and gives all that was not
    /// given yet. With what `put` gave before, that is what the task gives for all messages that
    /// were put. `NoMemory` comes if the task refused a message or its end, or if there was
    /// no memory for what came out; the messages that it gives are those that came before the first
    /// that was lost.
    pub fn finish<R: Threads + Wait>(self, rt: &R) -> Result<Messages, (Messages, NoMemory)>
        ensures whole { (first : Gives) (put answered : List MessageState)
            → Runs T.gives first put answered self
            → IfOk result (λ out. answered ++ out ≡ first put) }
        ensures front { (first : Gives) (put answered : List MessageState)
            → Runs T.gives first put answered self
            → IfErr result (λ refusal. Begins (answered ++ refusal.0) (first put)) }
    {
        let ActiveTask { runner } = self;
        match runner {
            Runner::Beside(beside) => beside.end(rt).finish(),
            Runner::Here(here) => here.finish(),
        }
    }
}

impl<T: Task> Beside<T> {
    ghost use Rattle.module_stream.specs.Active.{RunsBeside};

    /// Sends a message, and gives what has come back.
    fn put<R: Wait>(&mut self, rt: &R, m: Message) -> Result<Messages, (Message, NoMemory)>
        ensures given { (first : Gives) (put answered : List MessageState)
            → RunsBeside T.gives first put answered self.old
            → IfOk result (λ out. RunsBeside T.gives first (put ++ m ∷ []) (answered ++ out)
            self.new) }
        ensures none_kept { OnOk result (self.new.lines.inbox.messages.items ≡ []) }
        ensures refused { IfErr result (λ refusal. refusal.0 ≡ m) }
        ensures unchanged { (first : Gives) (put answered : List MessageState)
            → RunsBeside T.gives first put answered self.old
            → OnErr result (RunsBeside T.gives first put answered self.new) }
    {
        match self.lines.put(rt, Item::One(m)) {
            Ok(()) => Ok(Messages::new(self.lines.inbox.take())),
            Err(Item::One(back)) => Err((back, NoMemory)),
            Err(_) => unreachable!("what is given back is what was put"),
        }
    }

    /// Sends messages together, and gives what has come back.
    fn put_all<R: Wait>(
        &mut self,
        rt: &R,
        messages: Messages,
    ) -> Result<Messages, (Messages, NoMemory)>
        requires { length messages ≤ 256 }
        ensures given { (first : Gives) (put answered : List MessageState)
            → RunsBeside T.gives first put answered self.old
            → IfOk result (λ out. RunsBeside T.gives first (put ++ messages) (answered ++ out)
            self.new) }
        ensures none_kept { OnOk result (self.new.lines.inbox.messages.items ≡ []) }
        ensures refused { IfErr result (λ refusal. refusal.0 ≡ messages) }
        ensures unchanged { (first : Gives) (put answered : List MessageState)
            → RunsBeside T.gives first put answered self.old
            → OnErr result (RunsBeside T.gives first put answered self.new) }
    {
        let batch = Batch::new(messages.into_vec());
        match self.lines.put(rt, Item::Many(batch)) {
            Ok(()) => {
                let came = self.lines.inbox.take();
                Ok(Messages::new(came))
            }
            Err(Item::Many(back)) => Err((Messages::new(back.messages), NoMemory)),
            Err(_) => unreachable!("what is given back is what was put"),
        }
    }

    /// Ends what is sent, and waits for the thread.
    fn end<R: Threads + Wait>(self, rt: &R) -> Here<T>
        ensures { (first : Gives) (put answered : List MessageState)
            → RunsBeside T.gives first put answered self
            → Progress first put (answered ++ result.held.items) result.lost (T.gives result.task) }
    {
        let Beside { lines, child } = self;
        let mut lines = lines;
        lines.stop(rt);
        lines.take_rest(rt);
        let worker = child.join(rt);
        settle(lines, worker)
    }
}

//! Two active tasks one after the other, and the sink after them.
ghost use Rattle.std.specs.Prelude.{◌≡◌, ◌≤◌, ◌++◌, [], List, length, OnOk, OnErr, IfOk, IfErr};
ghost use Rattle.ev_base.specs.Sink.{SinkFacts};
ghost use Rattle.sink_buffer.specs.Gathers.{Gathers, is_broken};
ghost use Rattle.message_block.specs.Messages.{MessageState};
ghost use Rattle.module_stream.specs.Progress.{Gives, Begins};
ghost use Rattle.cmd_display.specs.Pipelines.{Prints, Shows, ShowsFront, ArePut, HasEnded};
ghost use Rattle.cmd_display.specs.Pipelines.{StaysBroken};

use crate::second::Second;
use crate::spares::Spares;
use ev_base::{NoMemory, Sink};
use message_block::Message;
use module_stream::{ActiveTask, Messages, Task};
use sink_buffer::SinkBuffer;
use std::alloc::Global;
use std::sync::Wait;
use std::thread::Threads;

/// Two active tasks, each on a thread of its own: what comes out of the first is put into the
/// second, and what comes out of that into a sink. It is ended by `end` and cannot be let go
/// otherwise.
pub(crate) struct Pipeline<F: Task, G: Task, K> {
    pub(crate) first: ActiveTask<F>,
    pub(crate) second: Second<G, K>,
}

impl<F: Task + Send + 'static, G: Task + Send + 'static, K: Sink> Pipeline<F, G, K> {
    /// Starts both tasks before a sink. `NoMemory` gives the sink back: there was no memory for the
    /// queues.
    pub(crate) fn begin<R: Threads + Wait + Copy + Send + 'static>(
        rt: &R,
        alloc: Global,
        first: F,
        second: G,
        output: K,
    ) -> Result<Pipeline<F, G, K>, (K, NoMemory)>
        ensures begins { IfOk result (λ pipeline. Shows F.gives G.gives K.facts (F.gives first)
            (G.gives second) (K.facts output) [] pipeline) }
        ensures refused { IfErr result (λ refusal. refusal.0 ≡ output) }
    {
        let first = match ActiveTask::begin(rt, alloc, first) {
            Ok(first) => first,
            Err(_) => return Err((output, NoMemory)),
        };
        match ActiveTask::begin(rt, alloc, second) {
            Ok(task) => {
                let lines = SinkBuffer::new(output);
                let second = Second {
                    task,
                    lines,
                    spares: Spares::new(alloc),
                };
                Ok(Pipeline { first, second })
            }
            Err(_) => {
                let _ = first.finish(rt);
                Err((output, NoMemory))
            }
        }
    }

    /// Puts messages, at most 256. After `NoMemory` no message is to be put any more: these, or
    /// what came out before them, were lost.
    pub(crate) fn put_all<R: Wait>(&mut self, rt: &R, messages: Messages) -> Result<(), NoMemory>
        requires { length messages ≤ 256 }
        ensures put { (first second : Gives) (o : SinkFacts) (put : List MessageState)
            → Shows F.gives G.gives K.facts first second o put self.old
            → OnOk result (Shows F.gives G.gives K.facts first second o (put ++ messages)
            self.new) }
        ensures front { (first second : Gives) (o : SinkFacts) (put : List MessageState)
            → Shows F.gives G.gives K.facts first second o put self.old
            → OnErr result (ShowsFront F.gives G.gives K.facts first second o (put ++ messages)
            self.new) }
        ensures broken { StaysBroken self.old.second.lines self.new.second.lines }
    {
        match self.first.put_all(rt, messages) {
            Ok(texts) => self.second.put_all(rt, texts),
            Err((_, refused)) => Err(refused),
        }
    }

    /// A message whose memory is used again, if there is one.
    pub(crate) fn spare(&mut self) -> Option<Message>
        ensures { (first second : Gives) (o : SinkFacts) (put : List MessageState)
            → Shows F.gives G.gives K.facts first second o put self.old
            → Shows F.gives G.gives K.facts first second o put self.new }
    {
        self.second.spares.message()
    }

    /// A list of no messages, in memory that is used again, if there is some.
    pub(crate) fn list(&mut self) -> Vec<Message>
        ensures none { result.items ≡ [] }
        ensures shows { (first second : Gives) (o : SinkFacts) (put : List MessageState)
            → Shows F.gives G.gives K.facts first second o put self.old
            → Shows F.gives G.gives K.facts first second o put self.new }
    {
        self.second.spares.list()
    }

    /// Prints what the sink gathered.
    pub(crate) fn flush(&mut self)
        ensures shows { (first second : Gives) (o : SinkFacts) (put : List MessageState)
            → Shows F.gives G.gives K.facts first second o put self.old
            → Shows F.gives G.gives K.facts first second o put self.new }
    {
        self.second.lines.flush();
    }

    /// Whether a write failed.
    pub(crate) fn is_broken(&self) -> bool
        ensures { result ≡ is_broken self.now.second.lines }
    {
        self.second.lines.is_broken()
    }

    /// Ends both tasks, and tells whether all came out that was to come. `all` says whether every
    /// message was put; if one was lost, what comes out of the first task is lost too.
    pub(crate) fn end<R: Threads + Wait>(self, rt: &R, all: bool) -> (SinkBuffer<K>, bool)
        ensures ends { (first second : Gives) (o : SinkFacts) (put : List MessageState)
            → ArePut F.gives G.gives K.facts first second o put all self
            → HasEnded K.facts first second o put result.1 result.0 }
        ensures broken { StaysBroken self.second.lines result.0 }
    {
        let Pipeline { first, second } = self;
        match first.finish(rt) {
            Ok(texts) => second.end(rt, texts, all),
            Err((texts, _)) => {
                let (lines, _) = second.end(rt, texts, all);
                (lines, false)
            }
        }
    }
}

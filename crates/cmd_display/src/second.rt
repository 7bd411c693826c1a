//! The second of two active tasks, and the sink after it.
ghost use Rattle.std.specs.Prelude.{◌≡◌, ◌≤◌, ◌++◌, ◌∷◌, [], ℕ, List, length, true, false, OnOk};
ghost use Rattle.std.specs.Prelude.{OnErr};
ghost use Rattle.ev_base.specs.Sink.{SinkFacts};
ghost use Rattle.sink_buffer.specs.Gathers.{Gathers, held_of, is_broken};
ghost use Rattle.message_block.specs.Messages.{MessageState, bytes_of};
ghost use Rattle.module_stream.specs.Progress.{Gives, Begins};
ghost use Rattle.cmd_display.specs.Pipelines.{text_of, Prints, PutsLast, WritesLast, StaysBroken};

use crate::spares::Spares;
use ev_base::{NoMemory, Sink};
use message_block::Message;
use module_stream::{ActiveTask, MOST_TOGETHER, Messages, Task};
use sink_buffer::{SinkBuffer, TextOut};
use std::sync::Wait;
use std::thread::Threads;

/// An active task, and a sink that what comes out of it is put into.
pub(crate) struct Second<G: Task, K> {
    pub(crate) task: ActiveTask<G>,
    pub(crate) lines: SinkBuffer<K>,
    pub(crate) spares: Spares,
}

impl<G: Task + Send + 'static, K: Sink> Second<G, K> {
    /// Puts a message into the task. `NoMemory` leaves all as it was, and the message is lost.
    pub(crate) fn put<R: Wait>(&mut self, rt: &R, message: Message) -> Result<(), NoMemory>
        ensures put { (second : Gives) (o : SinkFacts) (fed : List MessageState)
            → Prints G.gives K.facts second o fed self.old
            → OnOk result (Prints G.gives K.facts second o (fed ++ message ∷ []) self.new) }
        ensures same { (second : Gives) (o : SinkFacts) (fed : List MessageState)
            → Prints G.gives K.facts second o fed self.old
            → OnErr result (Prints G.gives K.facts second o fed self.new) }
        ensures broken { StaysBroken self.old.lines self.new.lines }
    {
        match self.task.put(rt, message) {
            Ok(came) => {
                write_messages(&mut self.lines, &mut self.spares, came);
                Ok(())
            }
            Err((_, refused)) => Err(refused),
        }
    }

    /// Puts messages into the task, up to the first for which there is no memory.
    pub(crate) fn put_all<R: Wait>(&mut self, rt: &R, messages: Messages) -> Result<(), NoMemory>
        ensures put { (second : Gives) (o : SinkFacts) (fed : List MessageState)
            → Prints G.gives K.facts second o fed self.old
            → OnOk result (Prints G.gives K.facts second o (fed ++ messages) self.new) }
        ensures front { (second : Gives) (o : SinkFacts) (fed : List MessageState)
            → Prints G.gives K.facts second o fed self.old
            → OnErr result ((front : List MessageState) × Begins front messages
            × Prints G.gives K.facts second o (fed ++ front) self.new) }
        ensures broken { StaysBroken self.old.lines self.new.lines }
    {
        match messages.as_slice().len() {
            0 => Ok(()),
            1..=MOST_TOGETHER => self.put_some(rt, messages),
            _ => self.put_each(rt, messages),
        }
    }

    /// Puts messages into the task together. After `NoMemory` all is as it was, and they are lost.
    fn put_some<R: Wait>(&mut self, rt: &R, messages: Messages) -> Result<(), NoMemory>
        requires { length messages ≤ 256 }
        ensures put { (second : Gives) (o : SinkFacts) (fed : List MessageState)
            → Prints G.gives K.facts second o fed self.old
            → OnOk result (Prints G.gives K.facts second o (fed ++ messages) self.new) }
        ensures front { (second : Gives) (o : SinkFacts) (fed : List MessageState)
            → Prints G.gives K.facts second o fed self.old
            → OnErr result ((front : List MessageState) × Begins front messages
            × Prints G.gives K.facts second o (fed ++ front) self.new) }
        ensures broken { StaysBroken self.old.lines self.new.lines }
    {
        match self.task.put_all(rt, messages) {
            Ok(came) => {
                write_messages(&mut self.lines, &mut self.spares, came);
                Ok(())
            }
            Err((_, refused)) => Err(refused),
        }
    }

    /// Puts messages into the task one by one, up to the first for which there is no memory.
    fn put_each<R: Wait>(&mut self, rt: &R, messages: Messages) -> Result<(), NoMemory>
        ensures put { (second : Gives) (o : SinkFacts) (fed : List MessageState)
            → Prints G.gives K.facts second o fed self.old
            → OnOk result (Prints G.gives K.facts second o (fed ++ messages) self.new) }
        ensures front { (second : Gives) (o : SinkFacts) (fed : List MessageState)
            → Prints G.gives K.facts second o fed self.old
            → OnErr result ((front : List MessageState) × Begins front messages
            × Prints G.gives K.facts second o (fed ++ front) self.new) }
        ensures broken { StaysBroken self.old.lines self.new.lines }
    {
        for message in messages.into_vec() {
            match self.put(rt, message) {
                Ok(()) => {}
                Err(refused) => return Err(refused),
            }
        }
        Ok(())
    }

    /// Puts the last messages, if they may follow what was put, and tells whether all were put.
    fn put_last<R: Wait>(&mut self, rt: &R, messages: Messages, follow: bool) -> bool
        ensures puts { (second : Gives) (o : SinkFacts) (fed : List MessageState)
            → Prints G.gives K.facts second o fed self.old
            → PutsLast G.gives K.facts second o fed messages follow result self.new }
        ensures broken { StaysBroken self.old.lines self.new.lines }
    {
        if !follow {
            return false;
        }
        match self.put_all(rt, messages) {
            Ok(()) => true,
            Err(_) => false,
        }
    }

    /// Puts the last messages into the task, if they may follow what was put, ends it, and
    /// writes what comes out. It tells whether all came out; what did not was lost for want of
    /// memory.
    pub(crate) fn end<R: Threads + Wait>(
        self,
        rt: &R,
        messages: Messages,
        follow: bool,
    ) -> (SinkBuffer<K>, bool)
        ensures ends { (second : Gives) (o : SinkFacts) (fed : List MessageState)
            → Prints G.gives K.facts second o fed self
            → WritesLast K.facts second o fed messages follow result.1 result.0 }
        ensures broken { StaysBroken self.lines result.0 }
    {
        let mut last = self;
        let put = last.put_last(rt, messages, follow);
        let Second {
            task,
            lines,
            spares,
        } = last;
        match task.finish(rt) {
            Ok(came) => (write_last(lines, spares, came), put),
            Err((came, _)) => (write_last(lines, spares, came), false),
        }
    }
}

/// Puts the bytes of the last messages into a sink, and writes all that it gathered.
fn write_last<K: Sink>(lines: SinkBuffer<K>, spares: Spares, messages: Messages) -> SinkBuffer<K>
    ensures text { (o : SinkFacts) (put : List ℕ) → Gathers K.facts o lines put
        → Gathers K.facts o result (put ++ text_of messages) }
    ensures nothing_held { is_broken result ≡ false → held_of result ≡ [] }
    ensures broken { StaysBroken lines result }
{
    let (mut lines, mut spares) = (lines, spares);
    if lines.is_broken() {
        return lines;
    }
    write_messages(&mut lines, &mut spares, messages);
    lines.flush();
    lines
}

/// Puts the bytes of messages into a sink, unless a write failed.
fn write_messages<K: Sink>(lines: &mut SinkBuffer<K>, spares: &mut Spares, messages: Messages)
    ensures broken { StaysBroken lines.old lines.new }
    ensures text { (o : SinkFacts) (put : List ℕ) → Gathers K.facts o lines.old put
        → Gathers K.facts o lines.new (put ++ text_of messages) }
{
    if lines.is_broken() {
        return;
    }
    let mut list = messages.into_vec();
    for message in list.drain(..) {
        write_message(lines, &message);
        spares.keep(message);
    }
    spares.keep_list(list);
}

/// Puts the bytes of a message into a sink.
fn write_message<K: Sink>(lines: &mut SinkBuffer<K>, message: &Message)
    ensures { (o : SinkFacts) (put : List ℕ) → Gathers K.facts o lines.old put
        → Gathers K.facts o lines.new (put ++ bytes_of message.now) }
{
    for block in message.blocks() {
        lines.put(block.bytes());
    }
}

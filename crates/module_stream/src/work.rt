//! The work of the thread.
ghost use Rattle.std.specs.Prelude.{◌≡◌, ◌≤◌, ◌<◌, [], ◌∷◌, ◌++◌, List, true, false, OnOk, OnErr};
ghost use Rattle.std.specs.Prelude.{MatchOption, vec_len};
ghost use Rattle.crossbeam_queue.specs.Passes.{view, IsSamePass, IsPassOf};
ghost use Rattle.message_block.specs.Messages.{MessageState};
ghost use Rattle.message_lines.specs.Lines.{log};
ghost use Rattle.message_lines.specs.Boxes.{each_of, ones};
ghost use Rattle.module_stream.specs.Progress.{Gives};
ghost use Rattle.module_stream.specs.Works.{Gave, HasGiven, HasWorked, IsSameRest};

use crate::Task;
use crate::passed::Passed;
use ev_types::NoMemory;
use message_block::Message;
use message_lines::{Batch, End, Item, Line, MOST_TOGETHER, Side, Waits, receive, send};
use std::alloc::Global;
use std::mem;
use std::snapshot::Snapshot;
use std::sync::Wait;
use std::thread::Promise;

/// A task, the ends of the lines that it works between, and whether it lost a message for want of
/// memory.
#[derive(Drop)]
pub struct Worker<T: Task> {
    pub(crate) task: T,
    pub(crate) takes: End,
    pub(crate) puts: End,
    pub(crate) lost: bool,
    // What came out and is sent next.
    pub(crate) gathered: Batch,
}

/// What the thread promises of the worker that it gives at its end: it is the one that began with
/// this task and these ends.
#[derive(Drop)]
pub struct Works<T: Task> {
    pub(crate) task: Snapshot<T>,
    pub(crate) takes: Snapshot<End>,
    pub(crate) puts: Snapshot<End>,
}

impl<T: Task> Promise<Worker<T>> for Works<T> {
    ghost kept_by = { λ p worker. HasWorked T.gives p.task.value p.takes.value p.puts.value
        worker };
}

/// Works until the end comes, and then sends the end.
pub(crate) fn work<T: Task, R: Wait>(rt: &R, alloc: Global, side: Side, task: T) -> Worker<T>
    ensures { HasWorked T.gives task side.takes side.puts result }
{
    let Side {
        feed,
        came,
        takes,
        puts,
        waits,
    } = side;
    let mut worker = Worker {
        task,
        takes,
        puts,
        lost: false,
        gathered: Batch::new(Vec::new(alloc)),
    };
    for _ in rt.forever() {
        match receive(rt, &feed, &mut worker.takes, &waits) {
            Item::One(message) => worker.put_one(rt, &came, &waits, message),
            Item::Many(batch) => worker.put_all(rt, &came, &waits, batch),
            Item::Stop => {
                send(rt, &came, &mut worker.puts, &waits, Item::Stop);
                return worker;
            }
        }
    }
    unreachable!()
}

impl<T: Task> Worker<T> {
    /// Puts a message into the task, and sends what comes out.
    fn put_one<R: Wait>(&mut self, rt: &R, came: &Line, waits: &Waits, message: Message)
        requires { IsPassOf came.now self.old.puts × ((view self.old.puts).puts ≡ true) }
        ensures same { IsSamePass self.old.puts self.new.puts }
        ensures takes { self.new.takes ≡ self.old.takes }
        ensures none { self.new.gathered.messages.items ≡ [] }
        ensures gave { (first : Gives) (taken sent : List MessageState)
            → Gave T.gives first taken sent self.old → (all : List MessageState)
            × Gave T.gives first (taken ++ message ∷ []) all self.new }
    {
        self.put(rt, came, waits, message);
        self.send_gathered(rt, came, waits);
    }

    /// Puts messages into the task, and sends what comes out.
    fn put_all<R: Wait>(&mut self, rt: &R, came: &Line, waits: &Waits, batch: Batch)
        requires { IsPassOf came.now self.old.puts × ((view self.old.puts).puts ≡ true) }
        ensures same { IsSamePass self.old.puts self.new.puts }
        ensures takes { self.new.takes ≡ self.old.takes }
        ensures none { self.new.gathered.messages.items ≡ [] }
        ensures gave { (first : Gives) (taken sent : List MessageState)
            → Gave T.gives first taken sent self.old → (all : List MessageState)
            × Gave T.gives first (taken ++ batch.messages.items) all self.new }
    {
        let Batch { mut messages } = batch;
        let _ = self.gathered.messages.reserve(messages.len());
        for message in messages.drain(..) {
            self.put(rt, came, waits, message);
        }
        self.send_gathered(rt, came, waits);
        self.keep_memory(messages);
    }

    /// Takes the memory of a list of which nothing is left for what is gathered next, if nothing
    /// is: so lists that go through the lines need no memory anew, and the threads do not wait for
    /// each other at the allocator.
    fn keep_memory(&mut self, list: Vec<Message>)
        requires list { list.items ≡ [] }
        requires none { self.old.gathered.messages.items ≡ [] }
        ensures puts { self.new.puts ≡ self.old.puts }
        ensures rest { IsSameRest self.old self.new }
        ensures none { self.new.gathered.messages.items ≡ [] }
        ensures given { (sent : List MessageState) → HasGiven sent self.old
            → HasGiven sent self.new }
    {
        if self.gathered.messages.capacity() == 0 {
            self.gathered = Batch::new(list);
        }
    }

    /// Puts a message into the task, and gathers or sends what comes out. Once a message was lost,
    /// all that follow are dropped.
    fn put<R: Wait>(&mut self, rt: &R, came: &Line, waits: &Waits, message: Message)
        requires { IsPassOf came.now self.old.puts × ((view self.old.puts).puts ≡ true) }
        ensures same { IsSamePass self.old.puts self.new.puts }
        ensures puts { (view self.new.puts).puts ≡ true }
        ensures takes { self.new.takes ≡ self.old.takes }
        ensures gave { (first : Gives) (taken sent : List MessageState)
            → Gave T.gives first taken sent self.old → (all : List MessageState)
            × Gave T.gives first (taken ++ message ∷ []) all self.new }
    {
        if self.lost {
            return;
        }
        match self.task.pass(message) {
            Ok(Passed::One(out)) => match self.gather(rt, came, waits, out) {
                Ok(()) => return,
                Err(_) => self.lost = true,
            },
            Ok(Passed::Many(out)) => {
                self.send_gathered(rt, came, waits);
                send_all(rt, came, &mut self.puts, waits, out.into_vec());
            }
            Err(NoMemory) => self.lost = true,
        }
    }

    /// Gathers a message after the others. After `NoMemory` it is lost.
    fn gather<R: Wait>(
        &mut self,
        rt: &R,
        came: &Line,
        waits: &Waits,
        message: Message,
    ) -> Result<(), NoMemory>
        requires { IsPassOf came.now self.old.puts × ((view self.old.puts).puts ≡ true) }
        ensures same { IsSamePass self.old.puts self.new.puts }
        ensures puts { (view self.new.puts).puts ≡ true }
        ensures rest { IsSameRest self.old self.new }
        ensures gathered { (sent : List MessageState) → HasGiven sent self.old
            → OnOk result (HasGiven (sent ++ message ∷ []) self.new) }
        ensures lost { (sent : List MessageState) → HasGiven sent self.old
            → OnErr result (HasGiven sent self.new) }
    {
        self.make_room(rt, came, waits);
        match self.gathered.messages.push(message) {
            Ok(()) => Ok(()),
            Err(_) => Err(NoMemory),
        }
    }

    /// Sends what was gathered if that is as much as goes together.
    fn make_room<R: Wait>(&mut self, rt: &R, came: &Line, waits: &Waits)
        requires { IsPassOf came.now self.old.puts × ((view self.old.puts).puts ≡ true) }
        ensures same { IsSamePass self.old.puts self.new.puts }
        ensures puts { (view self.new.puts).puts ≡ true }
        ensures rest { IsSameRest self.old self.new }
        ensures room { vec_len self.new.gathered.messages < 256 }
        ensures given { (sent : List MessageState) → HasGiven sent self.old
            → HasGiven sent self.new }
    {
        if self.gathered.messages.len() >= MOST_TOGETHER {
            self.send_gathered(rt, came, waits);
        }
    }

    /// Sends what was gathered.
    fn send_gathered<R: Wait>(&mut self, rt: &R, came: &Line, waits: &Waits)
        requires { IsPassOf came.now self.old.puts × ((view self.old.puts).puts ≡ true) }
        ensures same { IsSamePass self.old.puts self.new.puts }
        ensures puts { (view self.new.puts).puts ≡ true }
        ensures rest { IsSameRest self.old self.new }
        ensures none { self.new.gathered.messages.items ≡ [] }
        ensures given { (sent : List MessageState) → HasGiven sent self.old
            → HasGiven sent self.new }
    {
        if let Some(item) = item_of(&mut self.gathered) {
            send(rt, came, &mut self.puts, waits, item);
        }
    }
}

/// What was gathered as an item: one message as itself, so that the list stays for the next.
fn item_of(gathered: &mut Batch) -> Option<Item>
    ensures none { gathered.new.messages.items ≡ [] }
    ensures item { MatchOption result (gathered.old.messages.items ≡ [])
        (λ item. each_of item ≡ ones gathered.old.messages.items) }
{
    if gathered.messages.len() > 1 {
        let none = Batch::new(Vec::new(*gathered.messages.allocator()));
        return Some(Item::Many(mem::replace(gathered, none)));
    }
    match gathered.messages.pop() {
        Some(message) => Some(Item::One(message)),
        None => None,
    }
}

/// Sends messages in order.
fn send_all<R: Wait>(rt: &R, came: &Line, puts: &mut End, waits: &Waits, messages: Vec<Message>)
    requires end { IsPassOf came.now puts.old }
    requires puts { (view puts.old).puts ≡ true }
    ensures same { IsSamePass puts.old puts.new }
    ensures sent { view puts.new ≡ log true (view puts.old).takes
        ((view puts.old).sent ++ ones messages.items) (view puts.old).got }
{
    for message in messages {
        send(rt, came, puts, waits, Item::One(message));
    }
}

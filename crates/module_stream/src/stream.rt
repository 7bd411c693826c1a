//! Streams of modules.
ghost use Rattle.std.specs.Prelude.{◌≡◌, ◌≤◌, ◌+◌, true, false, [], ◌∷◌, IfOk, OnOk, IfErr, IfSome};
ghost use Rattle.std.specs.Prelude.{IfNone, vec_len, vec_capacity};
ghost use Rattle.module_stream.specs.Composition.{Comes};
ghost use Rattle.module_stream.specs.Flows.{flow};
ghost use Rattle.module_stream.specs.Passing.{passed_on};

use crate::messages::Messages;
use crate::passed::Passed;
use crate::row::{finish_through, pass_one};
use crate::task::Task;
use ev_types::NoMemory;
use message_block::Message;
use std::alloc::{AllocError, Global};

/// How many modules a stream has at most.
const MOST_MODULES: usize = 16;

/// A module of a stream (ACE's `ACE_Module`): a name, and a task for each direction.
#[derive(Drop)]
pub struct Module {
    /// The name. No two modules of a stream have the same.
    pub name: u32,
    /// The task for messages from the head to the tail.
    pub writer: Box<dyn Task>,
    /// The task for messages from the tail to the head.
    pub reader: Box<dyn Task>,
}

/// A stream of at most 16 modules between a head and a tail (ACE's `ACE_Stream`). The tasks of each
/// direction stand in the order in which messages go through them. Messages go past a task that
/// says that it is passing (`Task::is_passing`).
#[derive(Drop)]
pub struct Stream {
    names: Vec<u32>,
    writers: Vec<Box<dyn Task>>,
    readers: Vec<Box<dyn Task>>,
    started: bool,
    spent: bool,
    ghost writers_paired: { vec_len writers ≡ vec_len names },
    ghost readers_paired: { vec_len readers ≡ vec_len names },
    ghost spent_starts: { spent ≡ true → started ≡ true },
}

/// Why a module is not pushed.
#[derive(Clone, Copy, PartialEq, Eq, Hash, Debug)]
pub enum PushRefused {
    /// A module of that name is in the stream.
    SameName,
    /// The stream has 16 modules.
    Full {
        /// How many it has.
        modules: usize,
    },
    /// There was no memory for its places.
    NoMemory,
}

/// Why a stream takes no message.
#[derive(Clone, Copy, PartialEq, Eq, Hash, Debug)]
pub enum StreamRefused {
    /// There was no memory in an earlier call, or the stream was finished.
    Spent,
    /// There was no memory. The stream is spent from now on.
    NoMemory,
}

impl Stream {
    ghost use Rattle.module_stream.specs.Streams.{writers_of, readers_of, names_of, has_started};
    ghost use Rattle.module_stream.specs.Streams.{is_spent, StaysOpen, IsEmptyStream, HasOneMore};
    ghost use Rattle.module_stream.specs.Streams.{IsUnchanged, TakesModule, RefusesModule};
    ghost use Rattle.module_stream.specs.Streams.{RefusesMessage};

    /// A stream without modules. It takes no memory.
    pub fn new(alloc: Global) -> Stream
        ensures { IsEmptyStream result }
    {
        Stream {
            names: Vec::new(alloc),
            writers: Vec::new(alloc),
            readers: Vec::new(alloc),
            started: false,
            spent: false,
        }
    }

    /// Pushes a module just below the head, before the first message. A refusal gives it back, and
    /// the stream is as before: `SameName` comes exactly if a module of that name is in the
    /// stream, `Full` exactly if it is not and there are 16.
    pub fn push(&mut self, m: Module) -> Result<(), (Module, PushRefused)>
        requires { has_started self.old ≡ false }
        ensures accepts { OnOk result (TakesModule self.old m.name) }
        ensures pushed { OnOk result (HasOneMore self.old m self.new) }
        ensures refused { IfErr result (λ refusal. RefusesModule self.old m.name refusal.1) }
        ensures unchanged { IfErr result (λ refusal. (refusal.0 ≡ m)
            × IsUnchanged self.old self.new) }
    {
        if self.names.contains(&m.name) {
            return Err((m, PushRefused::SameName));
        }
        let modules = self.names.len();
        if modules >= MOST_MODULES {
            return Err((m, PushRefused::Full { modules }));
        }
        if self.reserve().is_err() {
            return Err((m, PushRefused::NoMemory));
        }
        let Module {
            name,
            writer,
            reader,
        } = m;
        self.names.push(name).unwrap();
        self.writers.insert(0, writer).unwrap();
        self.readers.push(reader).unwrap();
        Ok(())
    }

    /// Makes room for one more module.
    fn reserve(&mut self) -> Result<(), AllocError>
        ensures unchanged { IsUnchanged self.old self.new }
        ensures names { OnOk result (vec_len self.new.names + 1 ≤ vec_capacity self.new.names) }
        ensures writers { OnOk result (vec_len self.new.writers + 1
            ≤ vec_capacity self.new.writers) }
        ensures readers { OnOk result (vec_len self.new.readers + 1
            ≤ vec_capacity self.new.readers) }
    {
        self.names.reserve(1)?;
        self.writers.reserve(1)?;
        self.readers.reserve(1)
    }

    /// Takes the module just below the head, before the first message. None comes exactly if
    /// there is none.
    pub fn pop(&mut self) -> Option<Module>
        requires { has_started self.old ≡ false }
        ensures popped { IfSome result (λ popped. HasOneMore self.new popped self.old) }
        ensures none { IfNone result ((names_of self.old ≡ []) × IsUnchanged self.old self.new) }
    {
        let name = self.names.pop()?;
        let writer = self.writers.remove(0);
        let reader = self.readers.pop().unwrap();
        Some(Module {
            name,
            writer,
            reader,
        })
    }

    /// Whether a message was put, or the stream was finished: from then on no module is pushed or
    /// popped.
    pub fn has_started(&self) -> bool
        ensures { result ≡ has_started self.now }
    {
        self.started
    }

    /// Puts a message at the head. It goes through the writers down to the tail, and the answer is
    /// what leaves the last; the changed stream gives the rest. `Spent` comes exactly if there
    /// was no memory in an earlier `put`, `put_up` or `finish`, or if the stream was finished;
    /// the message is dropped then. After `NoMemory` the stream is spent.
    pub fn put(&mut self, m: Message) -> Result<Messages, StreamRefused>
        ensures given { IfOk result (λ out. Comes (flow ⟦<dyn Task as Task>⟧ (writers_of self.old))
            (m ∷ []) out (flow ⟦<dyn Task as Task>⟧ (writers_of self.new))) }
        ensures names { names_of self.new ≡ names_of self.old }
        ensures readers { readers_of self.new ≡ readers_of self.old }
        ensures started { has_started self.new ≡ true }
        ensures stays { OnOk result (StaysOpen self.old self.new) }
        ensures refused { IfErr result (λ why. RefusesMessage self.old why self.new) }
    {
        let passed = self.pass(m)?;
        match passed.into_messages(*self.names.allocator()) {
            Ok(out) => Ok(out),
            Err(NoMemory) => {
                self.spent = true;
                Err(StreamRefused::NoMemory)
            }
        }
    }

    /// Puts a message at the head as `put` does. If one message leaves the last task, no list is
    /// made for it.
    // Within its callers, since a `Passed` that a call returns goes through memory.
    #[inline(always)]
    pub fn pass(&mut self, m: Message) -> Result<Passed, StreamRefused>
        ensures given { IfOk result (λ out. Comes (flow ⟦<dyn Task as Task>⟧ (writers_of self.old))
            (m ∷ []) (passed_on out) (flow ⟦<dyn Task as Task>⟧ (writers_of self.new))) }
        ensures names { names_of self.new ≡ names_of self.old }
        ensures readers { readers_of self.new ≡ readers_of self.old }
        ensures started { has_started self.new ≡ true }
        ensures stays { OnOk result (StaysOpen self.old self.new) }
        ensures refused { IfErr result (λ why. RefusesMessage self.old why self.new) }
    {
        if self.spent {
            return Err(StreamRefused::Spent);
        }
        self.started = true;
        match pass_one(&mut self.writers, m) {
            Ok(out) => Ok(out),
            Err(NoMemory) => {
                self.spent = true;
                Err(StreamRefused::NoMemory)
            }
        }
    }

    /// Puts a message at the tail. It goes through the readers up to the head. Refusals are those
    /// of `put`.
    pub fn put_up(&mut self, m: Message) -> Result<Messages, StreamRefused>
        ensures given { IfOk result (λ out. Comes (flow ⟦<dyn Task as Task>⟧ (readers_of self.old))
            (m ∷ []) out (flow ⟦<dyn Task as Task>⟧ (readers_of self.new))) }
        ensures names { names_of self.new ≡ names_of self.old }
        ensures writers { writers_of self.new ≡ writers_of self.old }
        ensures started { has_started self.new ≡ true }
        ensures stays { OnOk result (StaysOpen self.old self.new) }
        ensures refused { IfErr result (λ why. RefusesMessage self.old why self.new) }
    {
        let passed = self.pass_up(m)?;
        match passed.into_messages(*self.names.allocator()) {
            Ok(out) => Ok(out),
            Err(NoMemory) => {
                self.spent = true;
                Err(StreamRefused::NoMemory)
            }
        }
    }

    /// Puts a message at the tail as `put_up` does. If one message leaves the last task, no list
    /// is made for it.
    // Within its callers, since a `Passed` that a call returns goes through memory.
    #[inline(always)]
    pub fn pass_up(&mut self, m: Message) -> Result<Passed, StreamRefused>
        ensures given { IfOk result (λ out. Comes (flow ⟦<dyn Task as Task>⟧ (readers_of self.old))
            (m ∷ []) (passed_on out) (flow ⟦<dyn Task as Task>⟧ (readers_of self.new))) }
        ensures names { names_of self.new ≡ names_of self.old }
        ensures writers { writers_of self.new ≡ writers_of self.old }
        ensures started { has_started self.new ≡ true }
        ensures stays { OnOk result (StaysOpen self.old self.new) }
        ensures refused { IfErr result (λ why. RefusesMessage self.old why self.new) }
    {
        if self.spent {
            return Err(StreamRefused::Spent);
        }
        self.started = true;
        match pass_one(&mut self.readers, m) {
            Ok(out) => Ok(out),
            Err(NoMemory) => {
                self.spent = true;
                Err(StreamRefused::NoMemory)
            }
        }
    }

    /// Ends the writer side: finishes its tasks from the head to the tail, and gives all that still
    /// comes out. After it the stream is spent. Refusals are those of `put`.
    pub fn finish(&mut self) -> Result<Messages, StreamRefused>
        ensures given { IfOk result (λ out. out ≡ flow ⟦<dyn Task as Task>⟧ (writers_of self.old)
            []) }
        ensures names { names_of self.new ≡ names_of self.old }
        ensures readers { readers_of self.new ≡ readers_of self.old }
        ensures started { has_started self.new ≡ true }
        ensures ended { OnOk result ((is_spent self.old ≡ false) × (is_spent self.new ≡ true)) }
        ensures refused { IfErr result (λ why. RefusesMessage self.old why self.new) }
    {
        if self.spent {
            return Err(StreamRefused::Spent);
        }
        self.started = true;
        self.spent = true;
        let none = Vec::new(*self.names.allocator());
        match finish_through(&mut self.writers, none) {
            Ok(out) => Ok(Messages::new(out)),
            Err(NoMemory) => Err(StreamRefused::NoMemory),
        }
    }
}

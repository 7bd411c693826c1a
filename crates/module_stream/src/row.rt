//! Tasks that stand one after another.
ghost use Rattle.std.specs.Prelude.{◌≡◌, ◌≤◌, true, [], ◌∷◌, ◌++◌, length, IfOk, vec_len};
ghost use Rattle.module_stream.specs.Composition.{Comes, GiveTheSame};
ghost use Rattle.module_stream.specs.Flows.{flow, ArePassedBy};
ghost use Rattle.module_stream.specs.Passing.{passed_on};

use crate::messages::Messages;
use crate::passed::Passed;
use crate::task::Task;
use ev_types::NoMemory;
use message_block::Message;

/// Puts a message into a task.
fn pass_into(task: &mut Box<dyn Task>, message: Message) -> Result<Passed, NoMemory>
    ensures { IfOk result (λ out. Comes (gives task.old) (message ∷ []) (passed_on out)
        (gives task.new)) }
{
    task.pass(message)
}

/// Whether a task gives each message as it was put.
fn gives_the_same(task: &Box<dyn Task>) -> bool
    ensures { result ≡ true → GiveTheSame (gives task.now) (λ messages. messages) }
{
    task.is_passing()
}

/// Ends the list of messages of a task.
fn end(task: &mut Box<dyn Task>) -> Result<Messages, NoMemory>
    ensures { IfOk result (λ out. out ≡ gives task.old []) }
{
    task.finish()
}

/// Messages after others. If there are no others the list is kept as it is.
fn joined(first: Vec<Message>, second: Vec<Message>) -> Result<Vec<Message>, NoMemory>
    ensures { IfOk result (λ all. all.items ≡ first.items ++ second.items) }
{
    if first.is_empty() {
        return Ok(second);
    }
    let (mut first, mut second) = (first, second);
    first.append(&mut second)?;
    Ok(first)
}

/// What comes out of a task after other messages.
fn add(out: Vec<Message>, given: Passed) -> Result<Vec<Message>, NoMemory>
    ensures { IfOk result (λ all. all.items ≡ out.items ++ passed_on given) }
{
    match given {
        Passed::One(message) => {
            let mut out = out;
            out.push(message)?;
            Ok(out)
        }
        Passed::Many(messages) => joined(out, messages.into_vec()),
    }
}

/// Puts messages in order, and gives all that come out now.
// A call of its own, so that a single message goes through little code.
#[inline(never)]
fn put_all(task: &mut Box<dyn Task>, messages: Vec<Message>) -> Result<Vec<Message>, NoMemory>
    ensures { IfOk result (λ out. Comes (gives task.old) messages.items out.items
        (gives task.new)) }
{
    let mut out = Vec::new(*messages.allocator());
    for message in messages {
        let given = pass_into(task, message)?;
        out = add(out, given)?;
    }
    Ok(out)
}

/// Puts what came out of the task before.
fn put_on(task: &mut Box<dyn Task>, passed: Passed) -> Result<Passed, NoMemory>
    ensures { IfOk result (λ out. Comes (gives task.old) (passed_on passed) (passed_on out)
        (gives task.new)) }
{
    match passed {
        Passed::One(message) => pass_into(task, message),
        Passed::Many(messages) => {
            let out = put_all(task, messages.into_vec())?;
            Ok(Passed::Many(Messages::new(out)))
        }
    }
}

/// Puts messages in order, ends the list, and gives all that come out.
fn finish_with(task: &mut Box<dyn Task>, messages: Vec<Message>) -> Result<Vec<Message>, NoMemory>
    ensures { IfOk result (λ out. out.items ≡ gives task.old messages.items) }
{
    let out = put_all(task, messages)?;
    let held = end(task)?.into_vec();
    joined(out, held)
}

/// The place of the first task from a place on that may give other messages than it gets, or the
/// number of tasks.
fn next_working(tasks: &[Box<dyn Task>], from: usize) -> usize
    requires { from ≤ length tasks.now }
    ensures within { result ≤ length tasks.now }
    ensures passed_by { ArePassedBy ⟦<dyn Task as Task>⟧ tasks.now from result }
{
    for place in from..tasks.len() {
        if !gives_the_same(&tasks[place]) {
            return place;
        }
    }
    tasks.len()
}

/// Puts a message into the task of a place, what comes out of it into the next, and so on, and
/// gives what comes out of the last. The tasks before the place give what they get, and so do those
/// that are passed by.
// Within its caller, as `pass_one` is.
#[inline(always)]
fn put_through(
    tasks: &mut [Box<dyn Task>],
    first: usize,
    message: Message,
) -> Result<Passed, NoMemory>
    requires first { first ≤ length tasks.old }
    requires passed_by { ArePassedBy ⟦<dyn Task as Task>⟧ tasks.old 0 first }
    ensures { IfOk result (λ out. Comes (flow ⟦<dyn Task as Task>⟧ tasks.old) (message ∷ [])
        (passed_on out) (flow ⟦<dyn Task as Task>⟧ tasks.new)) }
{
    let mut passed = Passed::One(message);
    let mut place = first;
    while place < tasks.len() {
        passed = put_on(&mut tasks[place], passed)?;
        place = next_working(tasks, place + 1);
    }
    Ok(passed)
}

/// Finishes the first task, then the next with what came out, and so on, and gives what comes out
/// of the last.
pub(crate) fn finish_through(
    tasks: &mut [Box<dyn Task>],
    messages: Vec<Message>,
) -> Result<Vec<Message>, NoMemory>
    ensures { IfOk result (λ out. out.items ≡ flow ⟦<dyn Task as Task>⟧ tasks.old messages.items) }
{
    let mut messages = messages;
    for place in 0..tasks.len() {
        messages = finish_with(&mut tasks[place], messages)?;
    }
    Ok(messages)
}

/// Passes one message through tasks.
// Within its callers, since a `Passed` that is returned goes through memory.
#[inline(always)]
pub(crate) fn pass_one(tasks: &mut Vec<Box<dyn Task>>, message: Message) -> Result<Passed, NoMemory>
    ensures given { IfOk result (λ out. Comes (flow ⟦<dyn Task as Task>⟧ tasks.old.items)
        (message ∷ []) (passed_on out) (flow ⟦<dyn Task as Task>⟧ tasks.new.items)) }
    ensures count { vec_len tasks.new ≡ vec_len tasks.old }
{
    let first = next_working(tasks, 0);
    if first == tasks.len() {
        return Ok(Passed::One(message));
    }
    let passed = put_through(tasks, first, message)?;
    Ok(passed)
}

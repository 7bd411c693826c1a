//! Active tasks: worked examples.
ghost use Rattle.std.specs.Prelude.{◌≡◌};

use crate::asserts::assert_same;
use ev_base::NoMemory;
use message_block::{Block, Message};
use module_stream::{ActiveTask, Messages, PassTask, Task};
use std::alloc::Global;
use std::sync::atomic::{AtomicBool, Ordering};
use std::sync::{Arc, Wait};
use std::test::Fail;
use std::thread::{self, Threads};

/// A message without bytes, of this priority.
fn message_of(alloc: Global, priority: u32) -> Result<Message, NoMemory> {
    match Message::new(alloc, Block::new(alloc, 0)?, priority) {
        Ok(message) => Ok(message),
        Err((_, refused)) => Err(refused),
    }
}

/// Adds the priorities of messages.
fn note(messages: Messages, numbers: &mut Vec<u32>) -> Result<(), NoMemory> {
    for message in messages.into_vec() {
        numbers.push(message.priority())?;
    }
    Ok(())
}

/// Adds the priorities of the messages that the end of an active task gave.
fn note_rest(
    rest: Result<Messages, (Messages, NoMemory)>,
    numbers: &mut Vec<u32>,
) -> Result<(), NoMemory> {
    match rest {
        Ok(rest) => note(rest, numbers),
        Err((_, refused)) => Err(refused),
    }
}

/// Puts messages of the priorities from 0 on, and adds those of the messages that are given.
fn put_numbers<T: Task + Send + 'static, R: Wait>(
    rt: &R,
    alloc: Global,
    active: &mut ActiveTask<T>,
    count: u32,
    numbers: &mut Vec<u32>,
) -> Result<(), NoMemory> {
    for priority in 0..count {
        let message = message_of(alloc, priority)?;
        match active.put(rt, message) {
            Ok(given) => note(given, numbers)?,
            Err((_, refused)) => return Err(refused),
        }
    }
    Ok(())
}

/// The priorities of the messages that an active task gives for messages of the priorities from 0
/// on.
fn through<T: Task + Send + 'static, R: Threads + Wait + Copy + Send + 'static>(
    rt: &R,
    alloc: Global,
    task: T,
    count: u32,
) -> Result<Vec<u32>, NoMemory> {
    let mut active = match ActiveTask::begin(rt, alloc, task) {
        Ok(active) => active,
        Err((_, refused)) => return Err(refused),
    };
    let mut numbers = Vec::new(alloc);
    let put = put_numbers(rt, alloc, &mut active, count, &mut numbers);
    let rest = active.finish(rt);
    put?;
    note_rest(rest, &mut numbers)?;
    Ok(numbers)
}

#[test]
fn two_hundred_come_back_in_order(rt: HostRuntime) -> Result<(), Fail> {
    let numbers = through(&rt, rt.alloc(), PassTask::new(rt.alloc()), 200)?;
    assert_same(&rt, numbers.len(), 200);
    for (place, number) in numbers.iter().enumerate() {
        assert_same(&rt, *number as usize, place);
    }
    Ok(())
}

/// Puts messages of the priorities from 0 on together, and adds those of the messages that are
/// given.
fn put_together<T: Task + Send + 'static, R: Wait>(
    rt: &R,
    alloc: Global,
    active: &mut ActiveTask<T>,
    numbers: &mut Vec<u32>,
) -> Result<(), NoMemory> {
    let mut messages = Vec::new(alloc);
    for priority in 0..3u32 {
        messages.push(message_of(alloc, priority)?)?;
    }
    if messages.len() > 256 {
        return Ok(());
    }
    match active.put_all(rt, Messages::new(messages)) {
        Ok(given) => note(given, numbers),
        Err((_, refused)) => Err(refused),
    }
}

/// Puts messages together into an active task that passes them on, finishes it, and adds their
/// priorities.
fn through_together<R: Threads + Wait + Copy + Send + 'static>(
    rt: &R,
    alloc: Global,
    numbers: &mut Vec<u32>,
) -> Result<(), NoMemory> {
    let mut active = match ActiveTask::begin(rt, alloc, PassTask::new(alloc)) {
        Ok(active) => active,
        Err((_, refused)) => return Err(refused),
    };
    let put = put_together(rt, alloc, &mut active, numbers);
    let rest = note_rest(active.finish(rt), numbers);
    put?;
    rest
}

#[test]
fn messages_that_are_put_together_come_back(rt: HostRuntime) -> Result<(), Fail> {
    let mut numbers = Vec::new(rt.alloc());
    let ended = through_together(&rt, rt.alloc(), &mut numbers);
    ended?;
    assert_same(&rt, numbers.as_slice(), [0, 1, 2].as_slice());
    Ok(())
}

#[test]
fn nothing_comes_of_nothing(rt: HostRuntime) -> Result<(), Fail> {
    assert_same(
        &rt,
        through(&rt, rt.alloc(), PassTask::new(rt.alloc()), 0)?.len(),
        0,
    );
    Ok(())
}

/// A task that passes messages on, but first waits for a flag for so many turns, and tells whether
/// it was set.
#[derive(Drop)]
struct FlagTask {
    pass: PassTask,
    flag: Arc<AtomicBool, Global>,
    seen: Arc<AtomicBool, Global>,
    turns: u32,
}

impl Task for FlagTask {
    ghost gives = { λ _ messages. messages };

    fn put(&mut self, m: Message) -> Result<Messages, NoMemory> {
        for _ in 0..self.turns {
            if self.flag.load(Ordering::SeqCst) {
                self.seen.store(true, Ordering::SeqCst);
                break;
            }
            thread::yield_now();
        }
        self.pass.put(m)
    }

    fn finish(&mut self) -> Result<Messages, NoMemory> {
        self.pass.finish()
    }
}

/// Sets a flag after a put, and adds the priorities of the messages that the put gave.
fn note_put(
    put: Result<Messages, (Message, NoMemory)>,
    flag: &AtomicBool,
    numbers: &mut Vec<u32>,
) -> Result<(), NoMemory> {
    flag.store(true, Ordering::SeqCst);
    match put {
        Ok(given) => note(given, numbers),
        Err((_, refused)) => Err(refused),
    }
}

/// A task that waits for the first flag, and sets the second once it has seen it.
fn flag_task(
    alloc: Global,
    flag: &Arc<AtomicBool, Global>,
    seen: &Arc<AtomicBool, Global>,
) -> Result<FlagTask, NoMemory> {
    let flag = Arc::try_clone(flag)?;
    let seen = Arc::try_clone(seen)?;
    Ok(FlagTask {
        pass: PassTask::new(alloc),
        flag,
        seen,
        turns: 100_000_000,
    })
}

/// Runs a task beside, puts a message, sets the flag for which the task waits, finishes the task,
/// and adds the priorities of the messages that are given.
fn set_while_it_runs<R: Threads + Wait + Copy + Send + 'static>(
    rt: &R,
    alloc: Global,
    task: FlagTask,
    flag: &AtomicBool,
    numbers: &mut Vec<u32>,
) -> Result<(), NoMemory> {
    let message = message_of(alloc, 7)?;
    let mut active = match ActiveTask::begin(rt, alloc, task) {
        Ok(active) => active,
        Err((_, refused)) => return Err(refused),
    };
    let put = note_put(active.put(rt, message), flag, numbers);
    let rest = note_rest(active.finish(rt), numbers);
    put?;
    rest
}

#[test]
fn task_runs_beside(rt: HostRuntime) -> Result<(), Fail> {
    let flag = Arc::new(rt.alloc(), AtomicBool::new(false))?;
    let seen = Arc::new(rt.alloc(), AtomicBool::new(false))?;
    let task = flag_task(rt.alloc(), &flag, &seen)?;
    let mut numbers = Vec::new(rt.alloc());
    let ended = set_while_it_runs(&rt, rt.alloc(), task, &flag, &mut numbers);
    ended?;
    assert!(rt; seen.load(Ordering::SeqCst));
    assert_same(&rt, numbers.as_slice(), [7].as_slice());
    Ok(())
}

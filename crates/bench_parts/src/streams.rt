//! Messages that go through streams.
ghost use Rattle.std.specs.Prelude.{◌≡◌, false};
ghost use Rattle.module_stream.specs.Streams.{has_started};

use crate::messages::message_of;
use ev_types::NoMemory;
use module_stream::{Module, PassTask, Passed, Stream};
use std::alloc::Global;

/// Puts a message through a stream of so many passing modules, so many times, and tells how often
/// it came out: in a list, or alone.
pub fn run(alloc: Global, modules: u32, count: u64, listed: bool) -> Result<u64, NoMemory> {
    let mut stream = Stream::new(alloc);
    for name in 0..modules {
        let module = Module {
            name,
            writer: Box::new(alloc, PassTask::new(alloc))?,
            reader: Box::new(alloc, PassTask::new(alloc))?,
        };
        push(&mut stream, module)?;
    }
    if listed {
        put_again(alloc, stream, count)
    } else {
        pass_again(alloc, stream, count)
    }
}

/// Pushes a module.
fn push(stream: &mut Stream, module: Module) -> Result<(), NoMemory>
    requires { has_started stream.old ≡ false }
    ensures { has_started stream.new ≡ false }
{
    match stream.push(module) {
        Ok(()) => Ok(()),
        Err(_) => Err(NoMemory),
    }
}

/// Puts a message through a stream, so many times, and tells how often it came out in a list.
fn put_again(alloc: Global, mut stream: Stream, count: u64) -> Result<u64, NoMemory> {
    let mut message = message_of(alloc)?;
    let mut passed = 0u64;
    for _ in 0..count {
        let Ok(given) = stream.put(message) else {
            return Err(NoMemory);
        };
        match given.into_vec().pop() {
            Some(next) => message = next,
            None => return Ok(passed),
        }
        passed = passed.saturating_add(1);
    }
    Ok(passed)
}

/// Passes a message through a stream, so many times, and tells how often it came out.
fn pass_again(alloc: Global, mut stream: Stream, count: u64) -> Result<u64, NoMemory> {
    let mut message = message_of(alloc)?;
    let mut passed = 0u64;
    for _ in 0..count {
        let Ok(given) = stream.pass(message) else {
            return Err(NoMemory);
        };
        match given {
            Passed::One(next) => message = next,
            Passed::Many(_) => return Ok(passed),
        }
        passed = passed.saturating_add(1);
    }
    Ok(passed)
}

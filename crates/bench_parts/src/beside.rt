//! Messages that go through an active task.

use crate::messages::message_of;
use ev_types::NoMemory;
use message_block::Message;
use module_stream::{ActiveTask, PassTask};
use std::alloc::Global;
use std::sync::Wait;
use std::thread::Threads;

/// Puts so many messages through a passing task on a thread of its own, and tells how many came
/// out. Messages that came out are put again.
pub fn run<R: Threads + Wait + Copy + Send + 'static>(
    rt: &R,
    alloc: Global,
    count: u64,
) -> Result<u64, NoMemory> {
    let mut active = match ActiveTask::begin(rt, alloc, PassTask::new(alloc)) {
        Ok(active) => active,
        Err((_, refused)) => return Err(refused),
    };
    let put = put_again(rt, alloc, &mut active, count);
    let rest = active.finish(rt);
    let put = put?;
    match rest {
        Ok(_) => Ok(put),
        Err((_, refused)) => Err(refused),
    }
}

/// Puts messages, those that came out before new ones.
fn put_again<R: Wait>(
    rt: &R,
    alloc: Global,
    active: &mut ActiveTask<PassTask>,
    count: u64,
) -> Result<u64, NoMemory> {
    let mut spare: Vec<Message> = Vec::new(alloc);
    let mut put = 0u64;
    for _ in 0..count {
        let message = match spare.pop() {
            Some(message) => message,
            None => message_of(alloc)?,
        };
        match active.put(rt, message) {
            Ok(given) => {
                let mut given = given.into_vec();
                spare.append(&mut given)?;
            }
            Err((_, refused)) => return Err(refused),
        }
        put = put.saturating_add(1);
    }
    Ok(put)
}

//! What the parts of the framework cost, each beside others of its kind. Untimed each part runs
//! once, small, and prints what it did; timed it runs large and prints nanoseconds for each timer,
//! entry, message and so on.
#![tactic(auto)]

mod beside;
mod check;
mod cost;
mod holds;
mod journals;
mod map;
mod message_queue;
mod messages;
mod passing;
mod posts;
mod queues;
mod script;
mod sharing;
mod streams;
mod timers;

use std::alloc::Global;
use std::io;
use std::rt::Runtime;
use std::sync::Wait;
use std::thread::Threads;

/// The parts that are asked for.
#[derive(Clone, Copy, PartialEq, Eq)]
pub struct Picked {
    /// The queues of timers.
    pub timers: bool,
    /// The checker of journals.
    pub check: bool,
    /// Queues of messages and streams.
    pub messages: bool,
    /// The token and the ring.
    pub sharing: bool,
    /// The reader of scripts, over the script that standard input is.
    pub script: bool,
}

/// Runs the queues of timers and the checker, if they are asked for.
pub fn run_plain(rt: &HostRuntime, timed: bool, picked: Picked) -> io::Result<()> {
    if picked.timers {
        timers::run(rt, timed)?;
    }
    if picked.check {
        check::run(rt, timed)?;
    }
    Ok(())
}

/// Runs the parts that start threads, if they are asked for.
pub fn run_threads<R: Runtime + Threads + Wait + Copy + Send + Sync + 'static>(
    rt: &R,
    alloc: Global,
    timed: bool,
    picked: Picked,
) -> io::Result<()> {
    if picked.messages {
        passing::run(rt, alloc, timed)?;
    }
    if picked.sharing {
        sharing::run(rt, alloc, timed)?;
    }
    Ok(())
}

/// Runs the reader of scripts, if it is asked for.
pub fn run_script(rt: &HostRuntime, timed: bool, picked: Picked) -> io::Result<()> {
    if picked.script {
        script::run(rt, timed)?;
    }
    Ok(())
}

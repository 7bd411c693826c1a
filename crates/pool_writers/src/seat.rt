//! The threads that writers run on.
ghost use Rattle.pool_writers.specs.Seats.{FinishesSo, RunsOrLeft, StartsSo};
ghost use Rattle.pool_writers.specs.Writers.{HasServed};

use crate::service::Service;
use crate::writer::{Ended, Writer};
use std::mem;
use std::snapshot::Snapshot;
use std::sync::Wait;
use std::thread::{Promise, PromisedHandle, Threads, spawn_with};

/// What the thread of a writer promises of what the writer leaves: it gave what it took to its
/// service.
#[derive(Drop)]
pub struct Serves<S: Service> {
    pub(crate) writer: Snapshot<Writer<S>>,
}

impl<S: Service> Promise<Ended<S>> for Serves<S> {
    ghost use Rattle.pool_writers.specs.Seats.{promised};
    ghost use Rattle.pool_writers.specs.Writers.{HasServed};

    ghost kept_by = { λ promise ended. HasServed S.served (promised promise) ended };
}

/// A writer before and while a thread runs it.
#[derive(Drop)]
pub enum Seat<S: Service> {
    /// It was not started.
    Ready(Writer<S>),
    /// A thread runs it.
    Running(PromisedHandle<Ended<S>, Serves<S>>),
    /// No thread could be started. What it would have taken is left to who runs last.
    Left,
}

impl<S: Service + Send + Drop + 'static> Seat<S> {
    /// Starts a thread for the writer, if it was not started. If none can be started the writer is
    /// dropped: it has taken nothing.
    pub fn start<R: Threads + Wait + Copy + Send + 'static>(&mut self, rt: &R)
        ensures { StartsSo self.old self.new }
    {
        match mem::replace(self, Seat::Left) {
            Seat::Ready(writer) => *self = running(rt, writer),
            other => *self = other,
        }
    }

    /// Waits until its thread has ended, and gives what its writer left.
    pub fn finish<R: Threads + Wait>(self, rt: &R) -> Option<Ended<S>>
        ensures { FinishesSo S.served self result }
    {
        match self {
            Seat::Running(child) => Some(child.join(rt)),
            Seat::Ready(_) | Seat::Left => None,
        }
    }
}

/// The seat of a writer for which a thread is started, if one can be.
fn running<S: Service + Send + Drop + 'static, R: Threads + Wait + Copy + Send + 'static>(
    rt: &R,
    writer: Writer<S>,
) -> Seat<S>
    ensures { RunsOrLeft writer result }
{
    let promise = Serves {
        writer: Snapshot::of(&writer),
    };
    let own = *rt;
    let there = move || -> Ended<S>
        ensures { HasServed S.served writer result }
    {
        let writer = writer;
        writer.run(&own)
    };
    match spawn_with(rt, promise, there) {
        Ok(child) => Seat::Running(child),
        Err(_) => Seat::Left,
    }
}

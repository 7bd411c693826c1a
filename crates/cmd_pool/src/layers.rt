//! The two layers of a run: what the workers put with, and the writers.
ghost use Rattle.std.specs.Prelude.{◌≡◌, ◌<◌, ◌≤◌, ◌+◌, length, IfOk};
ghost use Rattle.task_server.specs.Calls.{pool_id, put_log, putter_pool, take_log, taker_pool};

use crate::line::Lines;
use crate::making::LineMaker;
use crate::putter::RecordPutter;
use ev_base::NoMemory;
use pool_writers::{Seat, Shared, Writer};
use std::alloc::Global;
use std::sync::{Arc, Wait};
use std::thread::Threads;
use task_server::{Item, Pool, Putter, Taker};

/// The two layers of a run, with the pool between them.
#[derive(Drop)]
pub(crate) struct Layers<R> {
    pub(crate) shared: Arc<Shared, Global>,
    /// For the first worker, and for each of the others.
    pub(crate) root: RecordPutter<R>,
    pub(crate) hired: Vec<RecordPutter<R>>,
    pub(crate) seats: Vec<Seat<LineMaker>>,
    /// The caller's own, for what is left.
    pub(crate) last: Writer<LineMaker>,
}

impl<R: Wait + Copy> Layers<R> {
    /// Those of so many workers and writers.
    pub(crate) fn open(
        rt: &R,
        alloc: Global,
        workers: usize,
        writers: usize,
    ) -> Result<Layers<R>, NoMemory>
        requires some { 1 ≤ workers }
        requires few { workers ≤ 64 }
        requires few_writers { writers ≤ 16 }
        ensures { IfOk result (λ layers. workers ≡ length layers.hired.items + 1) }
    {
        let (pool, mut putter, mut taker) = Pool::new(alloc)?;
        let shared = Arc::new(alloc, Shared::new(alloc, pool, writers)?)?;
        let hired = putters(rt, alloc, &shared, &mut putter, workers - 1)?;
        let seats = seats(alloc, &shared, &mut taker, writers)?;
        let root = RecordPutter::new(*rt, alloc, Arc::try_clone(&shared)?, putter);
        let maker = LineMaker::new(alloc);
        let last = Writer::new(Arc::try_clone(&shared)?, taker, writers, maker);
        Ok(Layers {
            shared,
            root,
            hired,
            seats,
            last,
        })
    }
}

/// What so many workers put with.
fn putters<R: Wait + Copy>(
    rt: &R,
    alloc: Global,
    shared: &Arc<Shared, Global>,
    root: &mut Putter<Item>,
    many: usize,
) -> Result<Vec<RecordPutter<R>>, NoMemory>
    requires pool { putter_pool root.old ≡ pool_id shared.now.value.pool }
    requires shares { many < (put_log root.old).shares }
    ensures pool { putter_pool root.new ≡ putter_pool root.old }
    ensures many { IfOk result (λ putters. length putters.items ≡ many) }
{
    let mut putters = Vec::new(alloc);
    while putters.len() < many {
        let putter = shared.pool.split_putter(root)?;
        putters.push(RecordPutter::new(*rt, alloc, Arc::try_clone(shared)?, putter))?;
    }
    Ok(putters)
}

/// So many writers.
fn seats(
    alloc: Global,
    shared: &Arc<Shared, Global>,
    root: &mut Taker<Item>,
    many: usize,
) -> Result<Vec<Seat<LineMaker>>, NoMemory>
    requires pool { taker_pool root.old ≡ pool_id shared.now.value.pool }
    requires shares { many < (take_log root.old).shares }
    ensures { taker_pool root.new ≡ taker_pool root.old }
{
    let mut seats = Vec::new(alloc);
    for number in 0..many {
        let taker = shared.pool.split_taker(root)?;
        let maker = LineMaker::new(alloc);
        let writer = Writer::new(Arc::try_clone(shared)?, taker, number, maker);
        seats.push(Seat::Ready(writer))?;
    }
    Ok(seats)
}

/// Starts the threads of the writers.
pub(crate) fn start_all<R: Threads + Wait + Copy + Send + 'static>(
    rt: &R,
    seats: &mut [Seat<LineMaker>],
) {
    for seat in seats {
        seat.start(rt);
    }
}

/// The lines that the writers made. The caller takes what is left, and waits for the threads.
pub(crate) fn gather<R: Threads + Wait>(
    rt: &R,
    alloc: Global,
    seats: Vec<Seat<LineMaker>>,
    last: Writer<LineMaker>,
) -> Vec<Lines> {
    let mut made = Vec::new(alloc);
    last.run(rt).service.move_lines(&mut made);
    for seat in seats {
        if let Some(ended) = seat.finish(rt) {
            ended.service.move_lines(&mut made);
        }
    }
    made
}

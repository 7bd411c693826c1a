//! Who puts the records that a worker read.
ghost use Rattle.std.specs.Prelude.{◌≡◌};
ghost use Rattle.task_server.specs.Calls.{pool_id, putter_pool};

use pool_writers::Shared;
use std::alloc::Global;
use std::sync::Arc;
use task_server::{Item, Putter};

/// It is shown each upcall of a worker before that is settled, and puts copies of the records that
/// the upcall read.
#[derive(Drop)]
pub(crate) struct RecordPutter<R> {
    pub(crate) rt: R,
    pub(crate) alloc: Global,
    pub(crate) shared: Arc<Shared, Global>,
    pub(crate) putter: Putter<Item>,
    ghost of: { putter_pool putter ≡ pool_id shared.value.pool },
}

impl<R> RecordPutter<R> {
    /// One with a putter of the pool.
    pub(crate) fn new(
        rt: R,
        alloc: Global,
        shared: Arc<Shared, Global>,
        putter: Putter<Item>,
    ) -> RecordPutter<R>
        requires { putter_pool putter ≡ pool_id shared.value.pool }
    {
        RecordPutter {
            rt,
            alloc,
            shared,
            putter,
        }
    }
}

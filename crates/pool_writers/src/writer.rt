//! Writers.
ghost use Rattle.std.specs.Prelude.{◌≡◌};
ghost use Rattle.task_server.specs.Calls.{pool_id, taker_pool};

use crate::shared::Shared;
use std::alloc::Global;
use std::sync::Arc;
use task_server::{Item, Taker};

/// It takes items out of a pool and gives them to its service.
#[derive(Drop)]
pub struct Writer<S> {
    pub(crate) shared: Arc<Shared, Global>,
    pub(crate) taker: Taker<Item>,
    pub(crate) number: usize,
    pub(crate) service: S,
    ghost of: { taker_pool taker ≡ pool_id shared.value.pool },
}

/// What a writer leaves when it has ended.
#[derive(Drop)]
pub struct Ended<S> {
    /// The service, which was given all that the writer took.
    pub service: S,
    /// The taker that the writer took with.
    pub taker: Taker<Item>,
}

//! What a writer does.
ghost use Rattle.std.specs.Prelude.{◌≡◌};
ghost use Rattle.task_server.specs.Calls.{pool_id, taker_pool};
ghost use Rattle.pool_writers.specs.Writers.{HasServed, service_of, taker_of};

use crate::service::Service;
use crate::shared::Shared;
use crate::writer::{Ended, Writer};
use std::alloc::Global;
use std::sync::{Arc, Wait};
use task_server::{Item, Taker};

impl<S> Writer<S> {
    /// The writer of this number, with a taker of the pool.
    pub fn new(
        shared: Arc<Shared, Global>,
        taker: Taker<Item>,
        number: usize,
        service: S,
    ) -> Writer<S>
        requires { taker_pool taker ≡ pool_id shared.value.pool }
        ensures taker { taker_of result ≡ taker }
        ensures service { service_of result ≡ service }
    {
        Writer {
            shared,
            taker,
            number,
            service,
        }
    }
}

impl<S: Service> Writer<S> {
    /// Takes items until the workers are back and there is none. Each that it takes it gives to its
    /// service, once and in order, before it takes the next.
    pub fn run<R: Wait>(self, rt: &R) -> Ended<S>
        ensures { HasServed S.served self result }
    {
        let Writer {
            shared,
            mut taker,
            number,
            mut service,
        } = self;
        // After a take that found none the count and the end are read before the next take, so that
        // no item that was put before them is passed over.
        let mut looked = None;
        for _ in rt.forever() {
            match (shared.take(rt, &mut taker), looked.take()) {
                (Some(item), _) => service.serve(rt, item),
                (None, None) => looked = Some((shared.count(number), shared.is_ended())),
                (None, Some((_, true))) => return Ended { service, taker },
                (None, Some((count, false))) => shared.rest(rt, number, count),
            }
        }
        unreachable!()
    }
}

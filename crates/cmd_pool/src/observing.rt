//! What the observer of a worker does.
use crate::putter::RecordPutter;
use ev_base::PeerEnd;
use server_run::{Done, Observer, ServerHandler, ServerNote};
use std::sync::Wait;

impl<R: Wait, E: PeerEnd> Observer<ServerHandler<E>> for RecordPutter<R> {
    ghost use Rattle.server_run.specs.tp_reactor.specs.reactor_core.specs.Views.{done_event};
    ghost use Rattle.server_run.specs.tp_reactor.specs.reactor_core.specs.Views.{done_note};
    ghost use Rattle.cmd_pool.specs.PutItems.{PutsOf, log_of};

    ghost observes = { λ old done new. PutsOf (done_note done) (done_event done) (log_of old)
        (log_of new) };

    fn observe(&mut self, done: &Done<ServerHandler<E>>) {
        if let ServerNote::Piece { conn, records, .. } = done.note() {
            self.put_records(*conn, done.event(), records);
        }
    }
}

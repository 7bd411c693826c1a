//! Asynchronous operations on a connection, emulated by a reactor (POSA2, Proactor): a completion
//! handler asks for reads and writes, and is told of each once it has completed.
#![tactic(auto)]

mod acceptor;
mod asynch_end;
mod closing;
mod echo;
mod handler;
mod listener;
mod note;
mod operation;
mod peer;
mod queue;
mod service;
mod standing;
mod sums;

pub use acceptor::AsynchAcceptor;
pub use asynch_end::AsynchEnd;
pub use echo::EchoCompletions;
pub use handler::CompletionHandler;
pub use note::AsynchNote;
pub use operation::{Completed, Next, Op, Ops, Outcome};
pub use service::{AioHandler, AioNote};

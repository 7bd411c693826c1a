//! A small server on the framework, written step by step in docs/TUTORIAL.md: each connection gets
//! back what it sends. The handler of a connection, the acceptor, and the runs of both on one
//! thread and by a pool of workers.
#![tactic(auto)]

mod acceptor;
mod connection;
mod ends;
mod handler;
mod note;
mod opening;
mod pool;
mod waiting;

pub use acceptor::EchoAcceptor;
pub use connection::EchoConnection;
pub use handler::EchoHandler;
pub use note::{EchoNote, Ending};
pub use opening::{EchoCore, EchoParts, MOST, OpenRefused, finish, open};
pub use pool::run_pool;

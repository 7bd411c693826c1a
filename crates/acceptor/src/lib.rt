//! The acceptor of the logging server, and the handlers of the server: the acceptor and the
//! connections that it takes (C++NPv2 chapter 4, `Logging_Acceptor`; POSA2, Acceptor-Connector).
#![tactic(auto)]

mod acceptor;
pub mod laws;
mod listener;
mod server;

pub use acceptor::Acceptor;
pub use server::ServerHandler;

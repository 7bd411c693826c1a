//! Handlers whose connection is made by this side (POSA2, Acceptor-Connector; C++NPv2 chapter 7,
//! `ACE_Connector`): a connector waits until its connection is made, or for too long, and hands its
//! upcalls to a service from then on.
#![tactic(auto)]

mod connector;
pub mod laws;
mod note;
mod peer;
mod service;

pub use connector::Connector;
pub use note::ConnectNote;
pub use service::Service;

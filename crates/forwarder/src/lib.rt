//! The forwarding daemon: records from a source are sent to a peer that this side connects to
//! (POSA2, Acceptor-Connector; C++NPv2 chapter 7, the client logging daemon).
#![tactic(auto)]

mod forward_end;
mod forward_net;
mod forwarder;
pub mod laws;
mod note;
mod peer;
mod reading;
mod sending;
mod spelling;

pub use connector::{ConnectNote, Connector};
pub use forward_end::ForwardEnd;
pub use forward_net::ForwardNet;
pub use forwarder::Forwarder;
pub use note::{ForwardEnding, ForwardNote};
pub use one_net::OneEnd;

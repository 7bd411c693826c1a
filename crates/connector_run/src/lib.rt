//! The run of one connector on a reactor of its own: it is served until it closed itself or nothing
//! can be reported any more (POSA2, Acceptor-Connector; C++NPv2 chapter 7, `ACE_Connector`).
#![tactic(auto)]

mod opening;
mod running;

pub use opening::{OpenRefused, Unopened, open};
pub use running::{ConnectCore, Ended, finish, run};

//! A reactor that several threads call (POSA2, Leader/Followers; ACE's `ACE_TP_Reactor`).
#![tactic(auto)]

mod asking;
mod crew;
mod leading;
mod observer;
mod pool;
mod promoting;
mod reactor;
mod start;
mod working;

pub use ev_base::{Net, PeerEnd};
pub use observer::{NoObserver, Observer};
pub use reactor::{Reactor, Worker};
pub use reactor_core::{Core, Done, Means, Parts, RegisterRefused};
pub use reactor_desk::{Desk, Led};
pub use reactor_model::{DropVolumes, Entry, EventHandler, Journal, NoWatch, Volumes, Watch};
pub use timer_queue::TimerQueue;
pub use working::Ran;

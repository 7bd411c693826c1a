//! Dialling in memory: an end whose answers are laid down, a net that reports it as writable at
//! moments that are laid down, and the dialler that gives both.
#![tactic(auto)]

mod answers;
mod mem_dial_end;
mod mem_dial_net;
mod mem_dialer;
mod moments;
mod watched;

pub use mem_dial_end::MemDialEnd;
pub use mem_dial_net::MemDialNet;
pub use mem_dialer::MemDialer;
pub use moments::Came;

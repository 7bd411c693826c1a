//! Demultiplexers in memory (POSA2, Reactor: Synchronous Event Demultiplexer): `PlayNet`, which
//! plays moments and reports that a test laid down, with its ends, `PlayEnd`.
#![tactic(auto)]

mod planned;
mod play_end;
mod play_net;
mod watched;

pub use play_end::PlayEnd;
pub use play_net::PlayNet;

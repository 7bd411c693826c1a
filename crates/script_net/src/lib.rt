//! A demultiplexer, ends and a host in memory that play a script (POSA2, Reactor: Synchronous Event
//! Demultiplexer; scripts are this project's own): a `Script` is parted into a `ScriptNet`, which
//! reports its steps, the `ScriptEnd` of its listener, which owns the ends of its connections, and
//! a `ScriptWake`; a `ScriptHost` gives them when it is asked to listen.
#![tactic(auto)]

mod end;
mod listener;
mod net;
mod peer;
mod player;
mod script;
mod script_host;
mod seats;
mod sorting;

pub use end::ScriptEnd;
pub use net::ScriptNet;
pub use script::{Connection, End, Group, Offer, Part};
pub use script_host::{Script, ScriptHost, ScriptWake};

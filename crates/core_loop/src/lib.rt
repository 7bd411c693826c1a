//! A one-thread reactor whose upcalls are settled as soon as they were made: its calls one by one,
//! and the loop that makes them (C++NPv2 chapter 3, `ACE_Reactor::run_reactor_event_loop`).
#![tactic(auto)]

mod turns;

pub use turns::{RunEnd, close, poll, post, register, run, turn};

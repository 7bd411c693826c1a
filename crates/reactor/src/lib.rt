//! All of the framework that a server takes, by name (C++NPv2; POSA2: Reactor, Leader/Followers).
//! A crate that lists `reactor` in crates.txt needs no other crate of the framework but a
//! demultiplexer. Its contracts and proofs find the definitions of each crate below as
//! `Rattle.reactor.specs.NAME`.
#![tactic(auto)]

pub use core_loop::{RunEnd, close, poll, post, register, run, turn};
pub use ev_base::{
    Answer, Got, Handle, Host, Kind, ListenRefused, Mask, Net, NetFailed, NoMemory, PeerEnd,
    Report, Sent, Sink, Source, StdSink, StdSource, Taken, Upcall, Waited, Wake, Why, Wrote,
};
pub use notify_ring::{Full, Posting};
pub use reactor_core::{
    CancelRefused, Core, Done, HandOverRefused, Job, LiveRefused, Means, NotLive, Parts,
    PollRefused, Polled, PostRefused, RegisterRefused, Settled, StartRefused, StateRefused,
};
pub use reactor_model::{
    Act, CheckRefused, DropVolumes, Entry, EventHandler, Journal, MemVolumes, NoWatch, TakeRefused,
    Turn, Volumes, Watch, check,
};
pub use timer_queue::{SortedTimers, Timer, TimerQueue};
pub use tp_reactor::{Led, NoObserver, Observer, Ran, Reactor, Worker};

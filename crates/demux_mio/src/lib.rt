//! Sockets on 127.0.0.1 behind the traits of ends, nets, hosts and wakers (POSA2, Reactor:
//! Synchronous Event Demultiplexer; C++NPv2 chapter 3: `ACE_SOCK_Stream`, `ACE_SOCK_Acceptor`),
//! over epoll as crate `mio` has it. They tell counts and which handles are attached, and no bytes,
//! masks or calls.
//!
//! What is proved: that they meet the contracts of their traits. So a report is of an attached
//! handle whose mask has its kind, a wait gives at most 256 of them, the moments do not go back,
//! each `Failed` has its count, and no more bytes are told than the buffer has.
//!
//! What no contract can say, and is trusted and only tested:
//!
//! - What a socket carries, and that the system reports what is ready.
//! - That no report is lost. The system reports each change once (edge-triggered), so it is
//!   remembered that a socket is ready for a kind of call from the moment at which the system says
//!   so until a call of that kind pauses. A report that the mask holds back is given once the mask
//!   has its kind, if the socket is still ready then. Reports beyond 256 of a wait come with the
//!   next.
//! - That a read pauses after four in a row that gave bytes, and that the end is reported again at
//!   the next wait. So no stream keeps others, new connections or timers waiting.
//! - That an accept that failed, as when no descriptor is left, is owed again: its listener is
//!   reported again 100 ms later. So neither is it lost nor does it spin. Want of memory for the
//!   new end goes the same way, which no test shows.
//! - That the end of standard input is found if a host has it as a control, and that bytes which
//!   come there do not stop a server. It is watched with the sockets, and read once for each
//!   report. That a wait answers Over exactly from then on is proved.
//! - That a waker ends a wait. It costs a call of the system only while the net is in a wait; else
//!   the next wait returns at once.
//! - That the connection of a retired end is closed: at once, or, if the host has a closer,
//!   soon: by its thread, or by the next wait. So a reactor does not keep its token meanwhile. At
//!   most 64 wait for that; one more is closed at once.
//! - That a write to a peer that is gone fails and raises no signal: the standard library sends
//!   with `MSG_NOSIGNAL`.
//! - That up to as many connections as the system's `somaxconn` wait to be accepted. It is asked
//!   for the most that there are. No number of descriptors is too great for epoll, as `FD_SETSIZE`
//!   is for `select`.
#![tactic(auto)]

mod closer;
mod control;
mod dialer;
mod end;
mod host;
mod net;
mod readiness;
mod shared;
mod socket;
mod watched;
mod watching;

pub use dialer::MioDialer;
pub use end::MioEnd;
pub use host::{MioHost, MioWake};
pub use net::MioNet;

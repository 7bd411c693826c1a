//! The outside as the framework sees it: sources and sinks of bytes, each as a trait that says what
//! a call does to what the object tells and to its count of faults, with forms in memory and
//! adapters over the standard library.
#![tactic(auto)]

mod calls;
mod dial;
mod end;
mod host;
mod memory;
mod net;
mod ports;
mod sink;
mod source;
mod standard;

pub use calls::{Calls, Made};
pub use dial::{DialEnd, DialRefused, Dialer, Finish};
pub use end::{PeerEnd, Sent, Taken};
pub use ev_types::{Answer, Handle, Kind, Mask, NetFailed, NoMemory, Upcall, Why};
pub use host::{ACCEPTOR, Host, ListenRefused};
pub use memory::{MemSink, MemSource, SteadySource};
pub use net::{MOST_REPORTS, Net, Report, Waited, Wake};
pub use ports::PortLog;
pub use sink::{Sink, Wrote};
pub use source::{Got, Source};
pub use standard::{StdSink, StdSource, read_again, write_some};

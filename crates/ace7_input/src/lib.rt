//! The bytes of clients that use ACE 7 as it stands, read as records of version 2: a source over
//! any source, and an end, a net and a host over any of these.
//!
//! Such a client writes the fields of version 2, whose seconds have 64 bits, after an order octet
//! of version 1. So 2 is added to the first octet of each header, as long as headers follow one
//! another. After what is no header every byte is given as it is.
#![tactic(auto)]

mod begun;
mod end;
mod host;
pub mod laws;
mod net;
mod place;
mod source;

pub use end::Ace7End;
pub use host::Ace7Host;
pub use net::Ace7Net;
pub use source::Ace7Source;

//! The one connection of the command `logd one`: `OneEnd`, the end that reads a source of bytes,
//! such as standard input, up to a limit, and `OneNet`, the demultiplexer that reports it as
//! readable (C++NPv2 chapters 3 and 4).
#![tactic(auto)]

mod one_end;
mod one_net;
mod watched;

pub use one_end::OneEnd;
pub use one_net::OneNet;

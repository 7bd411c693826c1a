//! The lines of an echo service made of operations: one for each connection that was closed,
//! written as the journal says that it was.
#![tactic(auto)]

mod line;
mod watch;

pub use line::put_connection_line;
pub use watch::{AioLines, ConnectionLines};

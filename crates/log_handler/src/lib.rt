//! The event handler of one connection of the logging server, and the watch that writes its lines
//! (C++NPv2 chapter 4, `Logging_Event_Handler`).
#![tactic(auto)]

mod connection;
pub mod laws;
mod lines;
mod logged;
mod note;
mod peer;

pub use connection::LogConnection;
pub use lines::{LineSink, ServerLines, put_entry_lines};
pub use log_lines::EndKind;
pub use logged::LoggedRecords;
pub use note::ServerNote;

//! The reactor's model: the journal with its definitions and its checker, and what the reactor asks
//! of event handlers, of watches and of keepers of volumes.
#![tactic(auto)]

mod handler;
mod volumes;
mod watch;

pub use handler::{Act, EventHandler, Turn};
pub use journal_check::{CheckRefused, check};
pub use reactor_journal::{Entry, Journal};
pub use volumes::{DropVolumes, MemVolumes, TakeRefused, Volumes};
pub use watch::{NoWatch, Watch};

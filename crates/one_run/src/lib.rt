//! The run of one connection, that of a source, on a reactor of its own: it is served turn by turn
//! until it closes itself.
#![tactic(auto)]

mod opening;
mod serving;

pub use opening::{Unopened, open};
pub use serving::{Ending, Halt, OneCore, finish, run};

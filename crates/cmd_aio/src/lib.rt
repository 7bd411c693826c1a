//! The command `logd aio`: an echo service made of asynchronous operations, which a reactor carries
//! out (POSA2, Proactor; C++NPv2 chapter 8).
#![tactic(auto)]

mod ending;
mod opening;
mod running;
mod top;
mod words;

pub use opening::AioCore;
pub use top::{AioServed, aio_main};
pub use words::read_words;

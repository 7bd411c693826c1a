//! A sink before another one, to which a thread of its own writes when pieces come fast
//! (write-behind). So who puts a text need not wait until the system has taken it, as a reactor's
//! leader who has the token.
//!
//! What is put goes through a queue of bytes. One writer writes what comes out of it to the sink
//! below: the thread has the writer while pieces come fast, and else the caller, who writes each
//! piece at once. At any time the sink below has what came out of the queue, in order, or, after a
//! write of it failed, a front of that. At the end the queue is written out, and the sink below has
//! all that was put, or that front.
//!
//! What no contract can say, and is only tested: that a write comes at once when the one before it
//! is long past, that the thread is woken, and that it ends after the sink is finished or dropped.
#![tactic(auto)]

mod helper;
mod mode;
mod pace;
mod queue;
mod sink;
mod start;
#[cfg(test)]
mod tests;
mod writer;

pub use mode::WriterThread;
pub use queue::ByteQueue;
pub use sink::WriteBehind;
pub use start::Start;

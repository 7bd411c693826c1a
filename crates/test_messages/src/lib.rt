//! Rows of what threads hand to one another: queues of messages, streams and active tasks over
//! them, the ring of notifications, and the token with a desk that drains that ring. They show what
//! no contract says.
#![tactic(auto)]

#[cfg(test)]
mod asserts;
#[cfg(test)]
mod ring;
pub mod ring_desk;
#[cfg(test)]
mod streams;
#[cfg(test)]
mod token;

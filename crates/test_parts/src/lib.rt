//! Rows of the parts that stand below all others: the record, sources, sinks, ends and nets, and
//! the timer queues. They show what no contract says.
#![tactic(auto)]

#[cfg(test)]
mod ace7;
#[cfg(test)]
mod asserts;
#[cfg(test)]
mod one_connection;
#[cfg(test)]
mod played;
#[cfg(test)]
mod record;
#[cfg(test)]
mod sources;
pub mod timers;

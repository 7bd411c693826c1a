//! Rows of the one-thread reactor, step by step, with the answers and the journals that it has; and
//! of what it is made of: the handler repository, what it keeps, and the summary of a journal.
#![tactic(auto)]

#[cfg(test)]
mod asserts;
#[cfg(test)]
mod refusals;
#[cfg(test)]
mod repository;
#[cfg(test)]
mod state;
#[cfg(test)]
mod steps;
#[cfg(test)]
mod summary;
#[cfg(test)]
mod tests;
#[cfg(test)]
mod turns;
#[cfg(test)]
mod two_upcalls;

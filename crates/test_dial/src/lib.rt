//! Rows of connectors and dialled ends in memory, called without a reactor, and of the command that
//! forwards records to them.
#![tactic(auto)]

#[cfg(test)]
mod commands;
#[cfg(test)]
mod connectors;
#[cfg(test)]
mod diallers;
#[cfg(test)]
mod forwarding;
#[cfg(test)]
mod lists;

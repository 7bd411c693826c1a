//! Rows of asynchronous operations: over scripts of network events, called without a reactor and as
//! the command that is an echo service made of them, and of the command over sockets.
#![tactic(auto)]

#[cfg(test)]
mod command;
#[cfg(test)]
mod echoing;
#[cfg(test)]
mod handlers;
#[cfg(test)]
mod lines;
#[cfg(test)]
mod peers;
#[cfg(test)]
mod sockets;
#[cfg(test)]
mod turns;
#[cfg(test)]
mod words;

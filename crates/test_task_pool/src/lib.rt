//! Rows of the pool of a half-synchronous server: its queue by itself, writers on threads, and the
//! command that runs both, over hosts that play a script and over sockets.
#![tactic(auto)]

#[cfg(test)]
mod clients;
#[cfg(test)]
mod meeting;
#[cfg(test)]
mod queue;
#[cfg(test)]
mod rows;
#[cfg(test)]
mod sockets;

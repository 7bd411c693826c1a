//! Rows of the demultiplexer over sockets, over loopback. They show what no contract says: that
//! what is sent is reported, read and written, that no report is lost, and what ends a wait.
#![tactic(auto)]

#[cfg(test)]
mod asserts;
#[cfg(test)]
mod courses;
#[cfg(test)]
mod masks;
#[cfg(test)]
mod rig;
#[cfg(test)]
mod stand;
#[cfg(test)]
mod steps;
#[cfg(test)]
mod streams;
#[cfg(test)]
mod two_threads;
#[cfg(test)]
mod waits;

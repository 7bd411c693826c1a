//! Rows of whole runs: scripts that are played by one thread, by pools and as words ask, and a run
//! over sockets, with the journals and lines that come of them.
#![tactic(auto)]

#[cfg(test)]
mod asserts;
#[cfg(test)]
mod many_records;
#[cfg(test)]
mod play;
#[cfg(test)]
mod replay;
#[cfg(test)]
mod serve;
#[cfg(test)]
mod sockets;

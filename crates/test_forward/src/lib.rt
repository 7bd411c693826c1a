//! Rows of the forwarding daemon over sockets, over loopback: what no contract says of a peer.
#![tactic(auto)]

#[cfg(test)]
mod peers;
#[cfg(test)]
mod sockets;

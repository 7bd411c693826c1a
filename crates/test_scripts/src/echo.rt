//! The echo server over scripts of network events, on one thread and by a pool of workers, and over
//! sockets.

mod scripts;
mod sockets;

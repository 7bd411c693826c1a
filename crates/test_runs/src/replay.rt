//! Scripts that are replayed as words ask: how each replay ends, and what it writes. They show what
//! no contract says: that a replay is done if there is memory.

mod many;
mod replays;
mod running;

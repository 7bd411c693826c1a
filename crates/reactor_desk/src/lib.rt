//! The desk of a reactor that several threads call: the one-thread reactor and the drainer of its
//! notifications, kept under a leader's token (POSA2, Leader/Followers: the thread pool's shared
//! handle set). Whoever holds the token calls the desk alone.
#![tactic(auto)]

mod asking;
mod desk;
pub mod laws;
mod leading;
mod settling;
mod terms;

pub use desk::Desk;
pub use leading::Led;
pub use terms::DeskTerms;

//! Runs of a one-thread reactor of steady handlers, over a net that plays what was laid down and
//! one that reports its handles in turn.
#![tactic(auto)]

mod handler;
mod round_robin;
mod rows;

pub use handler::Steady;
pub use round_robin::RoundRobinNet;
pub use rows::{
    Left, Rows, cancel, cancel_meanwhile, close, hand_over, poll, post, post_in_room, register,
    register_timed, remove, remove_meanwhile, resume, schedule, set_mask, settle, settle_one,
    start, start_meanwhile, stop, suspend, turn,
};

//! Timer queues (C++NPv2 section 3.4, `ACE_Timer_Queue`): the trait that every timer queue keeps,
//! and the plain one over sorted rows.
#![tactic(auto)]

mod queue;
mod row;
mod sorted;
mod timer;

pub use queue::TimerQueue;
pub use sorted::SortedTimers;
pub use timer::Timer;

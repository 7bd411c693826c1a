//! A timer queue over a binary heap (C++NPv2 section 3.4, `ACE_Timer_Heap`).
#![tactic(auto)]

mod heap;
mod index;
mod tree;

pub use heap::HeapTimers;

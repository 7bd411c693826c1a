//! A timer queue over a hashed timing wheel (C++NPv2 section 3.4, `ACE_Timer_Wheel`).
#![tactic(auto)]

mod chain;
mod first;
mod hint;
mod index;
mod place;
mod wheel;

pub use place::Place;
pub use wheel::WheelTimers;

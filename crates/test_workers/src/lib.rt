//! Pools of workers over nets in memory, step by step and as a whole, with the journals that they
//! leave.
#![tactic(auto)]

#[cfg(test)]
mod asserts;
#[cfg(test)]
mod meeting;
#[cfg(test)]
mod pools;
#[cfg(test)]
mod rows;
#[cfg(test)]
mod steps;

//! A desk under a token, which drains a ring into its journal: the drainer lies in the value that
//! the token keeps.

mod desk;
mod terms;
#[cfg(test)]
mod tests;

pub use desk::{Desk, drain_one};
pub use terms::Terms;

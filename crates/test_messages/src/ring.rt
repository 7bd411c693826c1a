//! Four posting threads and one draining thread on one ring of notifications.

mod rows;
mod tests;

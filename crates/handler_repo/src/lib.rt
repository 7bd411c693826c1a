//! The handler repository of a reactor (C++NPv2 section 3.3): it keeps each event handler by its
//! handle, and hands one out while an upcall on it is open.
#![tactic(auto)]

mod cell;
mod cells;
mod index;
mod lending;
mod placed;
mod repository;
mod seat;

pub use cell::Placed;
pub use placed::PlacedRepo;
pub use repository::Repo;
pub use seat::Seat;

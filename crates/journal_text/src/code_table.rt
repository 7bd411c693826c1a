//! Tables of codes and their names.

mod laws;
mod table;

pub use laws::names_and_codes_go_both_ways;
pub use table::{CodeTable, Row};

//! The lines of a journal's notes, connection after connection (this project's own form of what the
//! networked logging server of C++NPv2 prints).
#![tactic(auto)]

mod chains;
mod grouping;

pub use grouping::{
    EntryLines, MadeInPlace, put_by_connection, put_given_by_connection, write_by_connection,
    write_given_by_connection,
};

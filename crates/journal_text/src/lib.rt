//! The text of a journal of the logging server: a line for each entry, so that a run can be read,
//! kept and audited.
#![tactic(auto)]

mod code_table;
mod entries;
mod journal_sink;
mod lent;
mod notes;
mod tables;
mod words;
mod writing;

pub use code_table::{CodeTable, Row, names_and_codes_go_both_ways};
pub use entries::{put_entry_line, put_most_line};
pub use journal_sink::JournalSink;
pub use tables::{entry_kinds, priorities};
pub use writing::{WriteFailed, write_journal};

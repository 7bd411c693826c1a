//! The lines of the logging server: a record's text, a record's line, and the closing line of a
//! connection, put into any text output.
#![tactic(auto)]

mod end_kind;
mod laws;
mod lines;
mod message;
mod numbers;

pub use end_kind::EndKind;
pub use laws::texts_are_short;
pub use lines::{put_borrowed_line, put_borrowed_text, put_closing_line, put_record_lines};
pub use numbers::{put_signed, put_unsigned};

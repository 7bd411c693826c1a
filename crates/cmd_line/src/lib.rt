//! The commands of the program, and the words that call them.
#![tactic(auto)]

mod command;
mod number;
mod options;
mod parse;
mod rows;

pub use command::{Command, has_dashes};
pub use number::number_in;
pub use options::{Form, Options, Timers, text_of};
pub use parse::{option, parse_words};
pub use rows::lines_call_commands;

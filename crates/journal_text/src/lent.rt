//! Texts that are put piece by piece into a sink which is lent for that.

mod buffer;
mod held;
mod text;

pub(crate) use text::{PutText, write_text};

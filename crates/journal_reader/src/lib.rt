//! The reader of texts of journals: it gives the journal that a text spells, or the first line that
//! is none of a journal's.
#![tactic(auto)]

mod laws;
mod lines;
mod parts;
mod read_entries;
mod read_notes;
mod read_records;
mod reading;
mod refusal;
mod values;

pub use laws::texts_have_one_reading;
pub use reading::read_journal;
pub use refusal::JournalRefused;

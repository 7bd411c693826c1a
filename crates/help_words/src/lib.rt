//! The words with which a program is asked what it is and how it is called: `--help` and
//! `--version`, each of which stands alone.
#![tactic(auto)]

mod asking;

pub use asking::{Asks, asked_of, is_only};

//! The leader's token: one value that threads get in turn, and what each of them knows of it.
//!
//! The value stands for a list of entries that only grows. A pass keeps what its holder has seen:
//! the list at its last `put`. Each `get` gives the value standing for a list that begins with it,
//! so no thread ever finds less than it knew. The pattern is Leader/Followers (POSA2, chapter 5);
//! in ACE it is `ACE_TP_Token_Guard`.
#![tactic(auto)]

mod held;
mod kept;
mod pass;
mod plays;
mod start;
mod token;

pub use held::Held;
pub use kept::{Found, Kept, View};
pub use pass::{Pass, Token};
pub use plays::TokenRule;
pub use start::{Key, NoRule};
pub use token::own_events_differ;

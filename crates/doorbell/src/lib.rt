//! What a thread sleeps on until another thread has something for it.
#![tactic(auto)]

mod doorbell;

pub use doorbell::Doorbell;

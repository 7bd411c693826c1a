//! The command `logd audit`: a journal's text on an input is read whole, and its journal is checked
//! (C++NPv2 and POSA2 have no such command; the journal is this project's own).
#![tactic(auto)]

mod auditing;
pub mod laws;

pub use auditing::{AuditEnd, Audited, audit};

//! What a run of the server over a script leaves: its journal follows the script, and if it
//! ended because nothing could be reported any more, it is a whole run of the script.
#![tactic(auto)]

pub mod laws;

//! Worked examples of the logging server's commands, scripts among them: what is written, in how
//! many writes, the journal, and the status; and the program's top call over sockets.
#![tactic(auto)]

#[cfg(test)]
mod asserts;
#[cfg(test)]
mod journal_rows;
#[cfg(test)]
mod long_rows;
#[cfg(test)]
mod many_rows;
#[cfg(test)]
mod one_rows;
#[cfg(test)]
mod played_rows;
#[cfg(test)]
mod running;
#[cfg(test)]
mod sockets;
#[cfg(test)]
mod text_rows;

//! Queues of messages, and streams and active tasks over messages with known bytes, and a task that
//! keeps its messages until it is finished.

mod active_tests;
mod keep;
mod queues;
mod tests;

use keep::KeepTask;

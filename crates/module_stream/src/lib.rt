//! Streams of modules: each module has a task for the messages that go from the head to the tail,
//! and one for those that go from the tail to the head (C++NPv2 chapter 9, `ACE_Stream`,
//! `ACE_Module` and `ACE_Task`). A stream keeps the tasks that its callers make. This crate has
//! three: one that makes the text of a log record, one that ends a message with a line feed, and
//! one that passes messages on; and active tasks, which run a task on a thread of its own (chapter
//! 6, `ACE_Task` as an active object): messages go to the thread through a queue, and what comes
//! out of the task comes back through another.
#![tactic(auto)]

mod active;
mod format;
mod here;
mod laws;
mod messages;
mod pass;
mod passed;
mod row;
mod separate;
mod stream;
mod task;
mod text;
mod work;

pub use active::ActiveTask;
pub use format::FormatTask;
pub use laws::formats_what_spells_a_record;
pub use message_lines::MOST_TOGETHER;
pub use messages::Messages;
pub use pass::PassTask;
pub use passed::Passed;
pub use separate::SeparateTask;
pub use stream::{Module, PushRefused, Stream, StreamRefused};
pub use task::Task;

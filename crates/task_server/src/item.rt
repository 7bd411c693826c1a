//! The items of the logging server.

use cdr_record::LogRecord;

/// A log record on its way from the worker that read it to the writer that makes its line.
#[derive(Debug, Drop)]
pub struct Item {
    /// The number of the connection that it came from.
    pub conn: u64,
    /// The number of the event whose upcall read it.
    pub event: u64,
    /// How many records the same upcall read before it.
    pub index: u64,
    /// The record.
    pub rec: LogRecord,
}

//! How a worker's records are put.
ghost use Rattle.std.specs.Prelude.{◌≡◌, ◌⊎◌, ◌+◌, IfOk, List, Some, slice_get};
ghost use Rattle.cdr_record.specs.Borrowed.{owned};
ghost use Rattle.cdr_record.specs.declared.record.LogRecord.{LogRecord as RecordOf};
ghost use Rattle.task_server.specs.Calls.{HasPut};
ghost use Rattle.task_server.specs.declared.item.Item.{Item as ItemOf};
ghost use Rattle.task_server.specs.declared.rule.Log.{Log};
ghost use Rattle.cmd_pool.specs.PutItems.{PutsBefore, PutsSome, log_of};

use crate::putter::RecordPutter;
use cdr_record::{Bytes, LogRecord, RecordRef};
use server_run::LoggedRecords;
use std::alloc::{AllocError, Global};
use std::sync::Wait;
use task_server::Item;

impl<R: Wait> RecordPutter<R> {
    /// Puts copies of the records of an event, each at most once and in order, and tells the
    /// writers. A record is left out if there is no memory for its copy, or no place in the queue.
    pub(crate) fn put_records(&mut self, conn: u64, event: u64, records: &LoggedRecords)
        ensures { PutsSome conn event records.now (log_of self.old) (log_of self.new) }
    {
        let mut rest = records.iter();
        let mut index = 0u64;
        while let Some(entry) = rest.next() {
            self.put_record(conn, event, index, entry);
            match index.checked_add(1) {
                Some(next) => index = next,
                None => break,
            }
        }
        if records.len() > 0 {
            self.shared.ring();
        }
    }

    /// Puts a copy of a record that has this number among the records of an event.
    fn put_record(&mut self, conn: u64, event: u64, index: u64, entry: RecordRef<'_>)
        ensures { (records : List RecordOf) → slice_get records index ≡ Some (owned entry.entry)
            → (first : Log ItemOf) → PutsBefore conn event records index first (log_of self.old)
            → PutsBefore conn event records (index + 1) first (log_of self.new) }
    {
        if let Ok(rec) = copy_of(self.alloc, entry) {
            self.put(Item {
                conn,
                event,
                index,
                rec,
            });
        }
    }

    /// Puts an item, if the queue has a place.
    fn put(&mut self, item: Item)
        ensures { HasPut (log_of self.old) item (log_of self.new)
            ⊎ (log_of self.new ≡ log_of self.old) }
    {
        let RecordPutter {
            rt,
            alloc: _,
            shared,
            putter,
        } = self;
        shared.put(rt, putter, item);
    }
}

/// A copy of a record.
fn copy_of(alloc: Global, entry: RecordRef<'_>) -> Result<LogRecord, AllocError>
    ensures { IfOk result (λ rec. rec ≡ owned entry.entry) }
{
    let mut text = Vec::with_capacity(alloc, entry.text.len())?;
    text.extend_from_slice(entry.text)?;
    Ok(LogRecord {
        kind: entry.kind,
        pid: entry.pid,
        sec: entry.sec,
        usec: entry.usec,
        text: Bytes::new(text),
    })
}

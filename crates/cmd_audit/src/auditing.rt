//! The run of the command.
ghost use Rattle.std.specs.Prelude.{◌≡◌};
ghost use Rattle.cmd_audit.specs.Audits.{Audits, AuditsText, WritesLegal, ended_by};

use bounded_input::{Ending, Whole, read_whole};
use ev_base::{Sink, Source};
use journal_check::{CheckRefused, check};
use journal_reader::{JournalRefused, read_journal};
use log_lines::put_unsigned;
use sink_buffer::{SinkBuffer, TextOut};
use std::alloc::Global;

/// How auditing a journal ended.
#[derive(Clone, Copy, PartialEq, Eq, Debug)]
pub enum AuditEnd {
    /// The journal is legal, and its line was written.
    Legal,
    /// This line, from 1, is the first that is none of a journal's text.
    BadText {
        /// The number of the line.
        line: u64,
    },
    /// A read failed.
    ReadFault,
    /// The journal is legal, and the write of its line failed.
    WriteFault,
    /// There was no memory.
    NoMemory,
    /// The entry of this number, from 0, is the first that may not follow those before it.
    Illegal {
        /// The number of the entry.
        at: u64,
    },
    /// As many bytes as the limit were read, and one more was there.
    TooLong,
}

/// What auditing a journal leaves.
#[derive(Drop)]
pub struct Audited<S, K> {
    /// How it ended.
    pub end: AuditEnd,
    /// The source that was handed in.
    pub input: S,
    /// The sink that was handed in.
    pub output: K,
}

/// Reads the text of a journal to its end, of which `limit` bytes may be read, checks the journal,
/// and writes `legal N` and a line feed if it is legal, N its number of entries.
pub fn audit<S: Source, K: Sink>(alloc: Global, input: S, output: K, limit: u64) -> Audited<S, K>
    ensures { Audits limit (S.facts input) (K.facts output) (S.facts result.input)
        (K.facts result.output) result.end }
{
    let Whole {
        bytes,
        ending,
        input,
    } = read_whole(alloc, input, limit);
    match ending {
        Ending::Over => {
            let (end, output) = audit_text(alloc, bytes, output);
            Audited { end, input, output }
        }
        Ending::Failed => refused(AuditEnd::ReadFault, input, output),
        Ending::TooLong => refused(AuditEnd::TooLong, input, output),
        Ending::NoMemory => refused(AuditEnd::NoMemory, input, output),
    }
}

/// What is left if nothing was written.
fn refused<S, K>(end: AuditEnd, input: S, output: K) -> Audited<S, K>
    ensures { result ≡ record { end = end; input = input; output = output } }
{
    Audited { end, input, output }
}

/// Checks the journal that a text spells. The text is let go before that.
fn audit_text<K: Sink>(alloc: Global, text: Vec<u8>, output: K) -> (AuditEnd, K)
    ensures { AuditsText text.items (K.facts output) (K.facts result.1) result.0 }
{
    let read = read_journal(alloc, &text);
    drop(text);
    let (most, journal) = match read {
        Ok(read) => read,
        Err(JournalRefused::BadLine { line }) => return (AuditEnd::BadText { line }, output),
        Err(JournalRefused::NoMemory) => return (AuditEnd::NoMemory, output),
    };
    let entries = journal.as_slice();
    match check(alloc, entries, most) {
        Ok(()) => write_legal(entries.len() as u64, output),
        Err(refused) => (end_of(refused), output),
    }
}

/// How it ends if the check refused the journal.
fn end_of(refused: CheckRefused) -> AuditEnd
    ensures { result ≡ ended_by refused }
{
    match refused {
        CheckRefused::Illegal { at } => AuditEnd::Illegal { at },
        CheckRefused::NoMemory => AuditEnd::NoMemory,
    }
}

/// Writes the line of a legal journal of so many entries.
fn write_legal<K: Sink>(entries: u64, output: K) -> (AuditEnd, K)
    ensures { WritesLegal (K.facts output) entries (K.facts result.1) result.0 }
{
    let mut line = SinkBuffer::new(output);
    line.put(b"legal ");
    put_unsigned(&mut line, entries);
    line.put(b"\n");
    let (output, whole) = line.finish();
    if whole {
        return (AuditEnd::Legal, output);
    }
    (AuditEnd::WriteFault, output)
}

//! The text of a journal, read line by line.
ghost use Rattle.std.specs.Prelude.{IfOk, IfErr};
ghost use Rattle.journal_reader.specs.Journals.{IsJournalText, RefusesRightly};

use crate::lines::{read_first, read_most};
use crate::refusal::JournalRefused;
use log_handler::ServerNote;
use reactor_model::Journal;
use std::alloc::Global;

/// Reads the text of a journal: how many handlers may be live at once, and the entries. It is read
/// in one pass.
///
/// `BadLine` names the first line that the grammar or one of its limits does not allow.
pub fn read_journal(
    alloc: Global,
    bytes: &[u8],
) -> Result<(u64, Journal<ServerNote>), JournalRefused>
    ensures journal { IfOk result (λ read. IsJournalText bytes.now read.0 read.1.entries) }
    ensures refused { IfErr result (λ refused. RefusesRightly bytes.now refused) }
{
    let Some((most, behind)) = read_most(bytes) else {
        return Err(JournalRefused::BadLine { line: 1 });
    };
    let mut journal = Journal::new(alloc);
    let mut rest = behind;
    let mut line: u64 = 1;
    while !rest.is_empty() {
        line += 1;
        let Some((entry, behind)) = read_first(alloc, rest)? else {
            return Err(JournalRefused::BadLine { line });
        };
        journal.reserve(1)?;
        journal.append(entry);
        rest = behind;
    }
    Ok((most, journal))
}

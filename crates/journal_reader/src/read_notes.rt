//! Notes, read.
ghost use Rattle.std.specs.Prelude.{◌≡◌, IfOk};
ghost use Rattle.journal_reader.specs.Reading.{at_end, accepted_of, finished_of, short_note_of};
ghost use Rattle.journal_reader.specs.Reading.{counts_of, piece_of, note_of};
ghost use Rattle.journal_reader.specs.Parts.{left, ReadsAll};

use crate::parts::Parts;
use crate::read_records::read_records;
use cdr_record::Records;
use ev_types::NoMemory;
use log_handler::{LoggedRecords, ServerNote};
use std::alloc::Global;
use text_parts::is_word;

/// A note, if no part is left.
fn at_end(parts: &Parts, note: ServerNote) -> Option<ServerNote>
    ensures { result ≡ at_end (left parts.now) (Some note) }
{
    if parts.is_over() { Some(note) } else { None }
}

#[tactic(auto, unfolding(crate::specs::Reading::accepted_of))]
fn read_accepted(parts: &mut Parts) -> Option<ServerNote>
    ensures { result ≡ accepted_of (left parts.old) }
{
    let conn = parts.number()?;
    at_end(parts, ServerNote::Accepted { conn })
}

#[tactic(auto, unfolding(crate::specs::Reading::finished_of))]
fn read_finished(parts: &mut Parts) -> Option<ServerNote>
    ensures { result ≡ finished_of (left parts.old) }
{
    let conn = parts.number()?;
    let end = parts.end()?;
    at_end(parts, ServerNote::Finished { conn, end })
}

/// A note without records.
#[tactic(auto, unfolding(crate::specs::Reading::short_note_of))]
fn read_short(name: &[u8], parts: &mut Parts) -> Option<ServerNote>
    ensures { result ≡ short_note_of name.now (left parts.old) }
{
    if is_word(name, b"none") {
        at_end(parts, ServerNote::NoneWaiting)
    } else if is_word(name, b"end") {
        read_finished(parts)
    } else if is_word(name, b"accepted") {
        read_accepted(parts)
    } else if is_word(name, b"listenerfailed") {
        at_end(parts, ServerNote::ListenerFailed)
    } else if is_word(name, b"shut") {
        at_end(parts, ServerNote::ListenerShut)
    } else {
        None
    }
}

/// The connection, how many bytes it took, and how many records follow.
#[tactic(auto, unfolding(crate::specs::Reading::counts_of))]
fn read_counts(parts: &mut Parts) -> Option<(u64, u64, u64)>
    ensures { ReadsAll counts_of parts.old result parts.new }
{
    let conn = parts.number()?;
    let took = parts.number()?;
    let count = parts.number()?;
    Some((conn, took, count))
}

/// A turn of a connection, with its records.
#[tactic(auto, unfolding(crate::specs::Reading::piece_of))]
fn read_piece(alloc: Global, parts: &mut Parts) -> Result<Option<ServerNote>, NoMemory>
    ensures { IfOk result (λ read. read ≡ piece_of (left parts.old)) }
{
    let Some((conn, took, count)) = read_counts(parts) else {
        return Ok(None);
    };
    let Some(records) = read_records(alloc, count, parts)? else {
        return Ok(None);
    };
    if records.len() as u64 != count {
        return Ok(None);
    }
    let records = LoggedRecords::new(alloc, Records::new(records))?;
    Ok(Some(ServerNote::Piece {
        conn,
        took,
        records,
    }))
}

/// All parts that are left, as a note.
#[tactic(auto, unfolding(crate::specs::Reading::note_of))]
pub(crate) fn read_note(alloc: Global, parts: &mut Parts) -> Result<Option<ServerNote>, NoMemory>
    ensures { IfOk result (λ read. read ≡ note_of (left parts.old)) }
{
    let Some(name) = parts.take() else {
        return Ok(None);
    };
    if is_word(name, b"piece") {
        read_piece(alloc, parts)
    } else {
        Ok(read_short(name, parts))
    }
}

//! The lines of entries, read.
ghost use Rattle.std.specs.Prelude.{◌≡◌, IfOk};
ghost use Rattle.journal_reader.specs.Reading.{opened_of, masked_of, scheduled_of, ready_of};
ghost use Rattle.journal_reader.specs.Reading.{posted_of, stale_of, entry_with, numbered_of};
ghost use Rattle.journal_reader.specs.Reading.{plain_of, returned_of, refused_of, closed_of};
ghost use Rattle.journal_reader.specs.Reading.{whole_of, named_of, entry_of};
ghost use Rattle.journal_reader.specs.Parts.{left, ReadsAll};

use crate::parts::Parts;
use crate::read_notes::read_note;
use ev_types::{Handle, NoMemory};
use log_handler::ServerNote;
use reactor_model::Entry;
use std::alloc::Global;
use text_parts::is_word;

#[tactic(auto, unfolding(crate::specs::Reading::opened_of))]
fn read_opened(parts: &mut Parts) -> Option<Entry<ServerNote>>
    ensures { ReadsAll opened_of parts.old result parts.new }
{
    let handle = Handle(parts.number()?);
    let mask = parts.mask()?;
    Some(Entry::Opened { handle, mask })
}

#[tactic(auto, unfolding(crate::specs::Reading::masked_of))]
fn read_masked(parts: &mut Parts) -> Option<Entry<ServerNote>>
    ensures { ReadsAll masked_of parts.old result parts.new }
{
    let handle = Handle(parts.number()?);
    let mask = parts.mask()?;
    Some(Entry::Masked { handle, mask })
}

#[tactic(auto, unfolding(crate::specs::Reading::scheduled_of))]
fn read_scheduled(parts: &mut Parts) -> Option<Entry<ServerNote>>
    ensures { ReadsAll scheduled_of parts.old result parts.new }
{
    let timer = parts.number()?;
    let handle = Handle(parts.number()?);
    let first = parts.number()?;
    let every = parts.number()?;
    Some(Entry::Scheduled {
        timer,
        handle,
        first,
        every,
    })
}

#[tactic(auto, unfolding(crate::specs::Reading::ready_of))]
fn read_ready(parts: &mut Parts) -> Option<Entry<ServerNote>>
    ensures { ReadsAll ready_of parts.old result parts.new }
{
    let handle = Handle(parts.number()?);
    let kind = parts.kind()?;
    Some(Entry::Ready { handle, kind })
}

#[tactic(auto, unfolding(crate::specs::Reading::posted_of))]
fn read_posted(parts: &mut Parts) -> Option<Entry<ServerNote>>
    ensures { ReadsAll posted_of parts.old result parts.new }
{
    let handle = Handle(parts.number()?);
    let kind = parts.kind()?;
    let from = parts.number()?;
    let seq = parts.number()?;
    Some(Entry::Posted {
        handle,
        kind,
        from,
        seq,
    })
}

#[tactic(auto, unfolding(crate::specs::Reading::stale_of))]
fn read_stale(parts: &mut Parts) -> Option<Entry<ServerNote>>
    ensures { ReadsAll stale_of parts.old result parts.new }
{
    let handle = Handle(parts.number()?);
    let from = parts.number()?;
    let seq = parts.number()?;
    Some(Entry::Stale { handle, from, seq })
}

/// An entry that has one number and no more.
#[tactic(auto, unfolding(crate::specs::Reading::entry_with))]
fn entry_with(name: &[u8], number: u64) -> Option<Entry<ServerNote>>
    ensures { result ≡ entry_with name.now number }
{
    let handle = Handle(number);
    if is_word(name, b"started") {
        Some(Entry::Started { event: number })
    } else if is_word(name, b"polled") {
        Some(Entry::Polled { now: number })
    } else if is_word(name, b"due") {
        Some(Entry::Due { timer: number })
    } else if is_word(name, b"cancelled") {
        Some(Entry::Cancelled { timer: number })
    } else if is_word(name, b"suspended") {
        Some(Entry::Suspended { handle })
    } else if is_word(name, b"resumed") {
        Some(Entry::Resumed { handle })
    } else if is_word(name, b"removed") {
        Some(Entry::Removed { handle })
    } else {
        None
    }
}

#[tactic(auto, unfolding(crate::specs::Reading::numbered_of))]
fn read_numbered(name: &[u8], parts: &mut Parts) -> Option<Entry<ServerNote>>
    ensures { ReadsAll (numbered_of name.now) parts.old result parts.new }
{
    let number = parts.number()?;
    entry_with(name, number)
}

/// An entry without a note.
#[tactic(auto, unfolding(crate::specs::Reading::plain_of))]
fn read_plain(name: &[u8], parts: &mut Parts) -> Option<Entry<ServerNote>>
    ensures { ReadsAll (plain_of name.now) parts.old result parts.new }
{
    if is_word(name, b"ready") {
        read_ready(parts)
    } else if is_word(name, b"opened") {
        read_opened(parts)
    } else if is_word(name, b"masked") {
        read_masked(parts)
    } else if is_word(name, b"scheduled") {
        read_scheduled(parts)
    } else if is_word(name, b"posted") {
        read_posted(parts)
    } else if is_word(name, b"stale") {
        read_stale(parts)
    } else if is_word(name, b"ended") {
        Some(Entry::Ended)
    } else {
        read_numbered(name, parts)
    }
}

#[tactic(auto, unfolding(crate::specs::Reading::returned_of))]
fn read_returned(alloc: Global, parts: &mut Parts) -> Result<Option<Entry<ServerNote>>, NoMemory>
    ensures { IfOk result (λ read. read ≡ returned_of (left parts.old)) }
{
    let Some(event) = parts.number() else {
        return Ok(None);
    };
    let Some(answer) = parts.answer() else {
        return Ok(None);
    };
    let Some(note) = read_note(alloc, parts)? else {
        return Ok(None);
    };
    Ok(Some(Entry::Returned {
        event,
        answer,
        note,
    }))
}

#[tactic(auto, unfolding(crate::specs::Reading::refused_of))]
fn read_refused(alloc: Global, parts: &mut Parts) -> Result<Option<Entry<ServerNote>>, NoMemory>
    ensures { IfOk result (λ read. read ≡ refused_of (left parts.old)) }
{
    let Some(live) = parts.number() else {
        return Ok(None);
    };
    let Some(fault) = parts.fault() else {
        return Ok(None);
    };
    let Some(note) = read_note(alloc, parts)? else {
        return Ok(None);
    };
    Ok(Some(Entry::Refused { live, fault, note }))
}

#[tactic(auto, unfolding(crate::specs::Reading::closed_of))]
fn read_closed(alloc: Global, parts: &mut Parts) -> Result<Option<Entry<ServerNote>>, NoMemory>
    ensures { IfOk result (λ read. read ≡ closed_of (left parts.old)) }
{
    let Some(handle) = parts.number() else {
        return Ok(None);
    };
    let Some(note) = read_note(alloc, parts)? else {
        return Ok(None);
    };
    Ok(Some(Entry::Closed {
        handle: Handle(handle),
        note,
    }))
}

/// An entry without a note, if no part is left after it.
#[tactic(auto, unfolding(crate::specs::Reading::whole_of))]
fn read_whole(name: &[u8], parts: &mut Parts) -> Option<Entry<ServerNote>>
    ensures { result ≡ whole_of name.now (left parts.old) }
{
    let entry = read_plain(name, parts)?;
    if parts.is_over() { Some(entry) } else { None }
}

/// The entry of a line that begins with this name.
#[tactic(auto, unfolding(crate::specs::Reading::named_of))]
fn read_named(
    alloc: Global,
    name: &[u8],
    parts: &mut Parts,
) -> Result<Option<Entry<ServerNote>>, NoMemory>
    ensures { IfOk result (λ read. read ≡ named_of name.now (left parts.old)) }
{
    if is_word(name, b"returned") {
        read_returned(alloc, parts)
    } else if is_word(name, b"closed") {
        read_closed(alloc, parts)
    } else if is_word(name, b"refused") {
        read_refused(alloc, parts)
    } else {
        Ok(read_whole(name, parts))
    }
}

/// The entry that a line spells, without its line feed; None if it spells none.
#[tactic(auto, unfolding(crate::specs::Reading::entry_of))]
pub(crate) fn read_entry(alloc: Global, line: &[u8]) -> Result<Option<Entry<ServerNote>>, NoMemory>
    ensures { IfOk result (λ read. read ≡ entry_of line.now) }
{
    let mut parts = Parts::new(line, b' ');
    match parts.take() {
        Some(name) => read_named(alloc, name, &mut parts),
        None => Ok(None),
    }
}

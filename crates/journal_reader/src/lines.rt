//! The first line of a text, read.
ghost use Rattle.std.specs.Prelude.{◌≡◌, IfOk};
ghost use Rattle.journal_reader.specs.Reading.{most_of, limited};
ghost use Rattle.journal_reader.specs.Parts.{left};
ghost use Rattle.journal_reader.specs.FirstLines.{IsFirstLine, ReadsMost, ReadsEntry};

use crate::parts::Parts;
use crate::read_entries::read_entry;
use ev_types::NoMemory;
use log_handler::ServerNote;
use reactor_model::Entry;
use std::alloc::Global;
use text_parts::is_word;

/// The first line of a text, without its line feed, and the text after it; None if the text has
/// no line feed.
fn next_line(text: &[u8]) -> Option<(&[u8], &[u8])>
    ensures { IsFirstLine text.now result }
{
    match text.iter().position(|byte| *byte == b'\n') {
        Some(at) => Some((&text[..at], &text[at + 1..])),
        None => None,
    }
}

/// How many handlers may be live at once, if a line `most N` says it.
#[tactic(auto, unfolding(crate::specs::Reading::most_of))]
fn most_of_line(line: &[u8]) -> Option<u64>
    ensures { result ≡ most_of line.now }
{
    let mut parts = Parts::new(line, b' ');
    let name = parts.take()?;
    let most = parts.number()?;
    if !parts.is_over() || !is_word(name, b"most") {
        return None;
    }
    limited(most)
}

/// A number of handlers, if so many may be live at once.
fn limited(most: u64) -> Option<u64>
    ensures { result ≡ limited most }
{
    if most >= 1 && most <= 4097 {
        Some(most)
    } else {
        None
    }
}

/// The number of the first line `most N`, and the text after that line; None if the first line
/// is none.
pub(crate) fn read_most(text: &[u8]) -> Option<(u64, &[u8])>
    ensures { ReadsMost text.now result }
{
    let (line, rest) = next_line(text)?;
    let most = most_of_line(line)?;
    Some((most, rest))
}

/// The entry of the first line, and the text after that line; None if the first line is that of
/// no entry.
pub(crate) fn read_first(
    alloc: Global,
    text: &[u8],
) -> Result<Option<(Entry<ServerNote>, &[u8])>, NoMemory>
    ensures { IfOk result (λ read. ReadsEntry text.now read) }
{
    let Some((line, rest)) = next_line(text) else {
        return Ok(None);
    };
    match read_entry(alloc, line)? {
        Some(entry) => Ok(Some((entry, rest))),
        None => Ok(None),
    }
}

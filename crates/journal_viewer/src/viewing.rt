//! A journal's text is read whole, its journal is checked, and its picture is written.
ghost use Rattle.std.specs.Prelude.{◌≡◌, IfOk};
ghost use Rattle.journal_viewer.specs.Views.{Views, ViewsText, IsVerdict, ended_by};

use crate::ending::ViewEnd;
use bounded_input::{Ending, Whole, read_whole};
use ev_base::{NoMemory, Sink, Source};
use journal_check::{CheckRefused, check};
use journal_picture::{Drawn, draw};
use journal_reader::{JournalRefused, read_journal};
use log_handler::ServerNote;
use reactor_journal::Entry;
use std::alloc::Global;

/// What viewing a journal leaves.
#[derive(Drop)]
pub struct Viewed<S, K> {
    /// How it ended.
    pub end: ViewEnd,
    /// The source that was handed in.
    pub input: S,
    /// The sink that was handed in.
    pub output: K,
}

/// Reads the text of a journal to its end, of which `limit` bytes may be read, and writes the
/// picture of the journal: of a legal one whole, and of another up to the first entry that may not
/// follow those before it.
pub fn view<S: Source, K: Sink>(alloc: Global, input: S, output: K, limit: u64) -> Viewed<S, K>
    ensures { Views limit (S.facts input) (K.facts output) (S.facts result.input)
        (K.facts result.output) result.end }
{
    let Whole {
        bytes,
        ending,
        input,
    } = read_whole(alloc, input, limit);
    match ending {
        Ending::Over => {
            let (end, output) = view_text(alloc, bytes, output);
            Viewed { end, input, output }
        }
        Ending::Failed => refused(ViewEnd::ReadFault, input, output),
        Ending::TooLong => refused(ViewEnd::TooLong { limit }, input, output),
        Ending::NoMemory => refused(ViewEnd::NoMemory, input, output),
    }
}

/// What is left if nothing was written.
fn refused<S, K>(end: ViewEnd, input: S, output: K) -> Viewed<S, K>
    ensures { result ≡ record { end = end; input = input; output = output } }
{
    Viewed { end, input, output }
}

/// Writes the picture of the journal that a text spells. The text is let go before that.
fn view_text<K: Sink>(alloc: Global, text: Vec<u8>, output: K) -> (ViewEnd, K)
    ensures { ViewsText text.items (K.facts output) (K.facts result.1) result.0 }
{
    let read = read_journal(alloc, &text);
    drop(text);
    let (most, journal) = match read {
        Ok(read) => read,
        Err(JournalRefused::BadLine { line }) => return (ViewEnd::BadText { line }, output),
        Err(JournalRefused::NoMemory) => return (ViewEnd::NoMemory, output),
    };
    let entries = journal.as_slice();
    let Ok(bad) = verdict(alloc, entries, most) else {
        return (ViewEnd::NoMemory, output);
    };
    let (drawn, output) = draw(alloc, entries, bad, output);
    (end_of(bad, drawn), output)
}

/// The first entry that may not follow those before it, or None if the journal is legal.
fn verdict(alloc: Global, entries: &[Entry<ServerNote>], most: u64) -> Result<Option<u64>, NoMemory>
    ensures { IfOk result (IsVerdict entries.now most) }
{
    match check(alloc, entries, most) {
        Ok(()) => Ok(None),
        Err(CheckRefused::Illegal { at }) => Ok(Some(at)),
        Err(CheckRefused::NoMemory) => Err(NoMemory),
    }
}

/// How it ends if the journal was found to be this, and its picture was drawn so.
fn end_of(bad: Option<u64>, drawn: Drawn) -> ViewEnd
    ensures { result ≡ ended_by bad drawn }
{
    match (drawn, bad) {
        (Drawn::Whole, None) => ViewEnd::Drawn,
        (Drawn::Whole, Some(at)) => ViewEnd::Illegal { at },
        (Drawn::WriteFault, _) => ViewEnd::WriteFault,
        (Drawn::NoMemory, _) => ViewEnd::NoMemory,
    }
}

//! The whole picture.
ghost use Rattle.std.specs.Prelude.{◌≡◌, ◌≤◌, ◌<◌, ◌++◌, ℕ, length, flat_map};
ghost use Rattle.std.specs.Option.{ForSome};
ghost use Rattle.std.specs.List.{count_by};
ghost use Rattle.sink_buffer.specs.Texts.{Puts};
ghost use Rattle.reactor_journal.specs.Past.{past_of, is_opened};
ghost use Rattle.journal_picture.specs.Places.{nothing};
ghost use Rattle.journal_picture.specs.Rooms.{tables_of, room_of};
ghost use Rattle.journal_picture.specs.Marks.{marks, text_of};
ghost use Rattle.journal_picture.specs.Pictures as P;

use crate::header::put_header;
use crate::layout::Layout;
use crate::marks::{put_bad_mark, put_mark};
use crate::seen::Seen;
use ev_base::{NoMemory, Sink};
use log_handler::ServerNote;
use reactor_journal::Entry;
use sink_buffer::{SinkBuffer, TextOut};
use std::alloc::Global;

/// How drawing a picture ended.
#[derive(Clone, Copy, PartialEq, Eq, Debug)]
pub enum Drawn {
    /// The sink took the picture.
    Whole,
    /// A write failed; the sink took a front of the picture.
    WriteFault,
    /// There was no memory; nothing was written.
    NoMemory,
}

/// Writes the picture of a journal: of all its entries, or, if `bad` is the number of one that
/// may not follow those before it, of those before it, and of that one as a bad one. Memory is
/// taken before anything is written.
pub fn draw<K: Sink>(
    alloc: Global,
    journal: &[Entry<ServerNote>],
    bad: Option<u64>,
    output: K,
) -> (Drawn, K)
    requires { ForSome bad (λ at. at < length journal.now) }
    ensures { P.Draws (K.facts output) (P.picture journal.now bad) (K.facts result.1) result.0 }
{
    let good = good_part(journal, bad);
    let handles = opened_in(good);
    let Ok(seen) = Seen::with_room(alloc, handles, good.len()) else {
        return (Drawn::NoMemory, output);
    };
    let mut text = SinkBuffer::new(output);
    put_picture(&mut text, journal, bad, seen);
    let (output, whole) = text.finish();
    if whole {
        return (Drawn::Whole, output);
    }
    (Drawn::WriteFault, output)
}

/// The entries before the bad one, or all.
fn good_part(journal: &[Entry<ServerNote>], bad: Option<u64>) -> &[Entry<ServerNote>]
    requires { ForSome bad (λ at. at < length journal.now) }
    ensures { result.now ≡ P.good_part journal.now bad }
{
    match bad {
        Some(at) => &journal[..at as usize],
        None => journal,
    }
}

/// How many entries are drawn: those before the bad one and that one, or all.
fn drawn_count(journal: &[Entry<ServerNote>], bad: Option<u64>) -> u64
    requires { ForSome bad (λ at. at < length journal.now) }
    ensures { result ≡ P.drawn_count journal.now bad }
{
    match bad {
        Some(at) => at + 1,
        None => journal.len() as u64,
    }
}

/// How many handles some entries opened.
fn opened_in(entries: &[Entry<ServerNote>]) -> u64
    ensures { result ≡ count_by is_opened entries.now }
{
    let mut opened = 0;
    for entry in entries {
        if is_opened(entry) {
            opened += 1;
        }
    }
    opened
}

/// Whether an entry opened a handle.
fn is_opened(entry: &Entry<ServerNote>) -> bool
    ensures { result ≡ is_opened entry.now }
{
    matches!(entry, Entry::Opened { .. })
}

/// Puts the picture, if nothing was seen yet.
fn put_picture<T: TextOut>(out: &mut T, journal: &[Entry<ServerNote>], bad: Option<u64>, seen: Seen)
    requires bad { ForSome bad (λ at. at < length journal.now) }
    requires seen { tables_of seen ≡ nothing }
    requires handles { seen.handles ≡ count_by is_opened (P.good_part journal.now bad) }
    requires room { length (P.good_part journal.now bad) ≤ room_of seen }
    ensures { Puts T.stands out.old (P.picture journal.now bad) out.new }
{
    let layout = Layout::of(drawn_count(journal, bad), seen.handles());
    put_header(out, layout);
    put_marks(out, layout, good_part(journal, bad), seen);
    put_bad(out, layout, journal, bad);
    out.put(b"</svg>\n");
}

/// Puts the marks of entries, one after another.
fn put_marks<T: TextOut>(out: &mut T, layout: Layout, entries: &[Entry<ServerNote>], seen: Seen)
    requires seen { tables_of seen ≡ nothing }
    requires room { length entries.now ≤ room_of seen }
    ensures { Puts T.stands out.old (flat_map (text_of layout)
        (marks seen.handles (past_of entries.now))) out.new }
{
    let mut seen = seen;
    for entry in entries {
        put_mark(out, layout, seen.place_of(entry), entry);
        seen.add(entry);
    }
}

/// Puts the mark of the bad entry, if there is one.
fn put_bad<T: TextOut>(out: &mut T, layout: Layout, journal: &[Entry<ServerNote>], bad: Option<u64>)
    requires { ForSome bad (λ at. at < length journal.now) }
    ensures { Puts T.stands out.old (P.bad_part layout journal.now bad) out.new }
{
    if let Some(at) = bad {
        put_bad_mark(
            out,
            layout.across(at),
            layout.bottom(),
            at,
            &journal[at as usize],
        );
    }
}

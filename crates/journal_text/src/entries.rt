//! The lines of a journal.
ghost use Rattle.std.specs.Prelude.{◌++◌, codes, decimal};
ghost use Rattle.sink_buffer.specs.Texts.{Puts};
ghost use Rattle.journal_text.specs.Texts.{entry_text, entry_line, most_line, note_text, mask_text};

use crate::notes::put_note;
use crate::words::{answer_word, fault_word, kind_word, put_counted, put_mask, put_number};
use ev_base::{Handle, Mask};
use log_handler::ServerNote;
use reactor_model::Entry;
use sink_buffer::TextOut;

/// Puts the line `most N`, the first of a journal's text: how many handlers may be live at once.
pub fn put_most_line<T: TextOut>(out: &mut T, most: u64)
    ensures { Puts T.stands out.old (most_line most) out.new }
{
    put_counted(out, b"most ", most);
    out.put(b"\n");
}

/// Puts the line of an entry.
pub fn put_entry_line<T: TextOut>(out: &mut T, entry: &Entry<ServerNote>)
    ensures { Puts T.stands out.old (entry_line entry.now) out.new }
{
    put_entry(out, entry);
    out.put(b"\n");
}

/// Puts a space and a word.
fn put_word<T: TextOut>(out: &mut T, word: &[u8])
    ensures { Puts T.stands out.old (codes " " ++ word.now) out.new }
{
    out.put(b" ");
    out.put(word);
}

/// Puts a space and a note.
fn put_said<T: TextOut>(out: &mut T, note: &ServerNote)
    ensures { Puts T.stands out.old (codes " " ++ note_text note.now) out.new }
{
    out.put(b" ");
    put_note(out, note);
}

/// Puts a word, a handle and a mask.
fn put_masked<T: TextOut>(out: &mut T, word: &[u8], handle: Handle, mask: Mask)
    ensures { Puts T.stands out.old
        (word.now ++ decimal handle.0 ++ codes " " ++ mask_text mask) out.new }
{
    put_counted(out, word, handle.0);
    out.put(b" ");
    put_mask(out, mask);
}

/// Puts an entry without its line feed.
#[tactic(auto, unfolding(crate::specs::Texts::entry_text))]
fn put_entry<T: TextOut>(out: &mut T, entry: &Entry<ServerNote>)
    ensures { Puts T.stands out.old (entry_text entry.now) out.new }
{
    match entry {
        Entry::Opened { handle, mask } => put_masked(out, b"opened ", *handle, *mask),
        Entry::Scheduled {
            timer,
            handle,
            first,
            every,
        } => {
            put_counted(out, b"scheduled ", *timer);
            put_number(out, handle.0);
            put_number(out, *first);
            put_number(out, *every);
        }
        Entry::Cancelled { timer } => put_counted(out, b"cancelled ", *timer),
        Entry::Polled { now } => put_counted(out, b"polled ", *now),
        Entry::Due { timer } => put_counted(out, b"due ", *timer),
        Entry::Ready { handle, kind } => {
            put_counted(out, b"ready ", handle.0);
            put_word(out, kind_word(*kind));
        }
        Entry::Posted {
            handle,
            kind,
            from,
            seq,
        } => {
            put_counted(out, b"posted ", handle.0);
            put_word(out, kind_word(*kind));
            put_number(out, *from);
            put_number(out, *seq);
        }
        Entry::Stale { handle, from, seq } => {
            put_counted(out, b"stale ", handle.0);
            put_number(out, *from);
            put_number(out, *seq);
        }
        Entry::Started { event } => put_counted(out, b"started ", *event),
        Entry::Returned {
            event,
            answer,
            note,
        } => {
            put_counted(out, b"returned ", *event);
            put_word(out, answer_word(*answer));
            put_said(out, note);
        }
        Entry::Masked { handle, mask } => put_masked(out, b"masked ", *handle, *mask),
        Entry::Suspended { handle } => put_counted(out, b"suspended ", handle.0),
        Entry::Resumed { handle } => put_counted(out, b"resumed ", handle.0),
        Entry::Refused { live, fault, note } => {
            put_counted(out, b"refused ", *live);
            put_word(out, fault_word(*fault));
            put_said(out, note);
        }
        Entry::Removed { handle } => put_counted(out, b"removed ", handle.0),
        Entry::Closed { handle, note } => {
            put_counted(out, b"closed ", handle.0);
            put_said(out, note);
        }
        Entry::Ended => out.put(b"ended"),
    }
}

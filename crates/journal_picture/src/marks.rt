//! The marks of entries.
ghost use Rattle.sink_buffer.specs.Texts.{Puts};
ghost use Rattle.journal_picture.specs.Marks as M;

use crate::layout::{Layout, down};
use crate::pieces::{put_bar, put_counted, put_ground, put_line, put_moment, put_name, put_shape};
use crate::seen::Place;
use crate::words::{class_of, shape_of};
use ev_base::Handle;
use journal_text::put_entry_line;
use log_handler::ServerNote;
use reactor_journal::Entry;
use sink_buffer::TextOut;

/// Puts the begin of the mark of an entry: its class, and as its title the number of the entry and
/// its text.
fn put_titled<T: TextOut>(out: &mut T, class: &[u8], number: u64, entry: &Entry<ServerNote>)
    ensures { Puts T.stands out.old (M.titled class.now number entry.now) out.new }
{
    out.put(b"<g class='");
    out.put(class);
    put_counted(out, b"'><title>", number);
    out.put(b" ");
    put_entry_line(out, entry);
}

/// Puts the mark of an entry. It takes no memory.
pub(crate) fn put_mark<T: TextOut>(
    out: &mut T,
    layout: Layout,
    place: Place,
    entry: &Entry<ServerNote>,
)
    ensures { Puts T.stands out.old (M.mark_text layout place entry.now) out.new }
{
    put_titled(out, class_of(entry), place.number, entry);
    out.put(b"</title>");
    put_drawing(out, layout, place, entry);
    out.put(b"</g>\n");
}

/// Puts what the mark of an entry shows.
fn put_drawing<T: TextOut>(out: &mut T, layout: Layout, place: Place, entry: &Entry<ServerNote>)
    ensures { Puts T.stands out.old (M.drawing layout place entry.now) out.new }
{
    let x = layout.across(place.number);
    let y = down(place.lane);
    match entry {
        Entry::Polled { now } => put_wait(out, x, layout.bottom(), *now),
        Entry::Ended => put_line(out, x, layout.bottom(), b"h3"),
        Entry::Started { .. } => put_bar(out, layout.across(place.from), x, y, b"m0 6H", b"v2H"),
        Entry::Returned { .. } => put_bar(out, layout.across(place.from), x, y, b"m0-6H", b"v12H"),
        _ => {
            put_life(out, x, layout.right(), y, entry);
            put_shape(out, x, y, shape_of(entry));
        }
    }
}

/// Puts the line of a wait, and the moment at which it was answered.
fn put_wait<T: TextOut>(out: &mut T, x: u64, bottom: u64, now: u64)
    ensures { Puts T.stands out.old (M.wait_text x bottom now) out.new }
{
    put_line(out, x, bottom, b"h1");
    put_moment(out, x, now);
}

/// Puts the ground of the lane from this entry on, if the entry changes it.
fn put_life<T: TextOut>(out: &mut T, x: u64, right: u64, y: u64, entry: &Entry<ServerNote>)
    ensures { Puts T.stands out.old (M.life x right y entry.now) out.new }
{
    match entry {
        Entry::Opened { handle, .. } => put_birth(out, x, right, y, *handle),
        Entry::Suspended { .. } => put_ground(out, b"held", x, right, y),
        Entry::Resumed { .. } => put_ground(out, b"life", x, right, y),
        Entry::Closed { .. } => put_ground(out, b"gone", x, right, y),
        _ => {}
    }
}

/// Puts the ground of the lane of a handle that was opened, and its name.
fn put_birth<T: TextOut>(out: &mut T, x: u64, right: u64, y: u64, handle: Handle)
    ensures { Puts T.stands out.old (M.birth x right y handle) out.new }
{
    put_ground(out, b"life", x, right, y);
    put_name(out, x, y, b"handle ", handle.0);
}

/// Puts the mark of the first entry that may not follow those before it: a line through all lanes,
/// which end at `bottom`.
pub(crate) fn put_bad_mark<T: TextOut>(
    out: &mut T,
    x: u64,
    bottom: u64,
    number: u64,
    entry: &Entry<ServerNote>,
)
    ensures { Puts T.stands out.old (M.bad_mark x bottom number entry.now) out.new }
{
    put_titled(out, b"bad", number, entry);
    out.put(b"may not follow</title>");
    put_line(out, x, bottom, b"h3");
    put_name(out, x, bottom, b"bad entry ", number);
    out.put(b"</g>\n");
}

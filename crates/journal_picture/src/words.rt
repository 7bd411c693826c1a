//! The words and shapes of marks.
ghost use Rattle.std.specs.Prelude.{◌≡◌};
ghost use Rattle.journal_picture.specs.Shapes.{class_of, answer_class, shape_of};

use ev_base::Answer;
use log_handler::ServerNote;
use reactor_journal::Entry;

/// The class of an entry's mark, which the style sheet gives its colour.
pub(crate) fn class_of(entry: &Entry<ServerNote>) -> &'static [u8]
    ensures { result.now ≡ class_of entry.now }
{
    match entry {
        Entry::Opened { .. } => b"opened",
        Entry::Scheduled { .. } => b"scheduled",
        Entry::Cancelled { .. } => b"cancelled",
        Entry::Polled { .. } => b"polled",
        Entry::Due { .. } => b"due",
        Entry::Ready { .. } => b"ready",
        Entry::Posted { .. } => b"posted",
        Entry::Stale { .. } => b"stale",
        Entry::Started { .. } => b"started",
        Entry::Returned { answer, .. } => answer_class(*answer),
        Entry::Masked { .. } => b"masked",
        Entry::Suspended { .. } => b"suspended",
        Entry::Resumed { .. } => b"resumed",
        Entry::Refused { .. } => b"refused",
        Entry::Removed { .. } => b"removed",
        Entry::Closed { .. } => b"closed",
        Entry::Ended => b"ended",
    }
}

/// The class of the bar of an upcall, by its answer.
fn answer_class(answer: Answer) -> &'static [u8]
    ensures { result.now ≡ answer_class answer }
{
    match answer {
        Answer::Keep => b"keep",
        Answer::Again => b"again",
        Answer::Close => b"close",
    }
}

/// The shape of an entry's mark, from where the entry stands on. The entries that have a bar or a
/// line have none.
pub(crate) fn shape_of(entry: &Entry<ServerNote>) -> &'static [u8]
    ensures { result.now ≡ shape_of entry.now }
{
    match entry {
        Entry::Opened { .. } => b"m0-7l9 7-9 7z",
        Entry::Scheduled { .. } | Entry::Due { .. } | Entry::Cancelled { .. } => b"m0-4h8v8h-8z",
        Entry::Ready { .. } => b"m0 0a4 4 0 1 0 8 0a4 4 0 1 0-8 0z",
        Entry::Posted { .. } | Entry::Stale { .. } => b"m0 0l5-5 5 5-5 5z",
        Entry::Masked { .. } => b"m0-1h8v3h-8z",
        Entry::Suspended { .. } => b"m0-6h3v12h-3zm5 0h3v12h-3z",
        Entry::Resumed { .. } => b"m0-6l8 6-8 6z",
        Entry::Refused { .. } => b"m5-6l5 11h-10z",
        Entry::Removed { .. } => b"m0-4l2-2 3 3 3-3 2 2-3 3 3 3-2 2-3-3-3 3-2-2 3-3z",
        Entry::Closed { .. } => b"m0-9h4v18h-4z",
        _ => b"",
    }
}

//! The lines of a journal.
ghost use Rattle.std.specs.Prelude.{List, ℕ};
ghost use Rattle.reactor_model.specs.reactor_journal.specs.declared.entry.Entry.{Entry};
ghost use Rattle.sink_buffer.specs.Texts.{Puts};

use reactor_model::Entry;
use sink_buffer::TextOut;

/// Which lines the entries of a journal have. A type that implements it stands for its lines and
/// holds nothing.
pub trait JournalLines {
    /// What the handlers of the journal note.
    type Note;

    /// The lines of an entry, one after another; an entry can have none.
    ghost lines: { Entry Self.Note → List ℕ };

    /// Puts the lines of an entry into what takes texts.
    fn put<T: TextOut>(out: &mut T, entry: &Entry<Self::Note>)
        ensures { Puts T.stands out.old (lines entry.now) out.new };
}

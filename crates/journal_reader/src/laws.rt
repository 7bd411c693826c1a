//! Laws of the texts of journals.
ghost use Rattle.std.specs.Prelude.{◌≡◌, List, ℕ};
ghost use Rattle.reactor_model.specs.reactor_journal.specs.declared.entry.Entry.{Entry};
ghost use Rattle.log_handler.specs.declared.note.ServerNote.{ServerNote};
ghost use Rattle.journal_reader.specs.Journals.{IsJournalText, IsBadAt};

/// A text is that of one journal at most, a journal's text has no bad line, and no text has two
/// first bad lines. So what `read_journal` answers depends on the text alone, unless there is no
/// memory: a journal whose numbers and messages are within the limits is read from its text as it
/// was written.
pub fn texts_have_one_reading()
    ensures journals { (text : List ℕ) (m n : ℕ) (a b : List (Entry ServerNote))
        → IsJournalText text m a → IsJournalText text n b → (m ≡ n) × (a ≡ b) }
    ensures good { (text : List ℕ) (m n : ℕ) (a : List (Entry ServerNote)) → IsJournalText text m a
        → IsBadAt text n → ⊥ }
    ensures bad { (text : List ℕ) (m n : ℕ) → IsBadAt text m → IsBadAt text n → m ≡ n }
{}

//! The tables of names.
ghost use Rattle.std.specs.Prelude.{◌≡◌, ℕ, pos, Some, decimal, unwrap_or};
ghost use Rattle.log_lines.specs.Texts.{type_text};
ghost use Rattle.reactor_model.specs.reactor_journal.specs.declared.entry.Entry.{Entry};
ghost use Rattle.log_handler.specs.declared.note.ServerNote.{ServerNote};
ghost use Rattle.journal_text.specs.Rows.{name_in};
ghost use Rattle.journal_text.specs.Tables.{names_in};
ghost use Rattle.journal_text.specs.Texts.{entry_text};
ghost use Rattle.journal_text.specs.Names.{kind_names, kind_number, first_word, priority_names};

use crate::code_table::{CodeTable, Row};

/// The kinds of entries, each with a number of its own and the word with which its line begins.
pub fn entry_kinds() -> CodeTable<17>
    ensures names { names_in result ≡ kind_names }
    ensures lines { (e : Entry ServerNote) → name_in (names_in result) (kind_number e)
        ≡ Some (first_word (entry_text e)) }
{
    CodeTable::new(&KINDS)
}

/// The priorities of records, each with the type that stands for it and its name in the lines of a
/// log.
pub fn priorities() -> CodeTable<11>
    ensures names { names_in result ≡ priority_names }
    ensures lines { (kind : ℕ) → type_text (pos kind) ≡ unwrap_or (name_in (names_in result) kind)
        (decimal kind) }
{
    CodeTable::new(&PRIORITIES)
}

// The rows of a table.
macro_rules! rows {
    ($($code:literal $name:literal),*) => { [$(Row { code: $code, name: $name }),*] };
}

static KINDS: [Row; 17] = rows!(
    0 "opened",
    1 "scheduled",
    2 "cancelled",
    3 "polled",
    4 "due",
    5 "ready",
    6 "posted",
    7 "stale",
    8 "started",
    9 "returned",
    10 "masked",
    11 "suspended",
    12 "resumed",
    13 "refused",
    14 "removed",
    15 "closed",
    16 "ended"
);

static PRIORITIES: [Row; 11] = rows!(
    1 "LM_SHUTDOWN",
    2 "LM_TRACE",
    4 "LM_DEBUG",
    8 "LM_INFO",
    16 "LM_NOTICE",
    32 "LM_WARNING",
    64 "LM_STARTUP",
    128 "LM_ERROR",
    256 "LM_CRITICAL",
    512 "LM_ALERT",
    1024 "LM_EMERGENCY"
);

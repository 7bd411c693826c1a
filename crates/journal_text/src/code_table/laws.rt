//! The law of tables.
ghost use Rattle.std.specs.Prelude.{◌≡◌, ◌↔◌, ℕ, List, Some};
ghost use Rattle.journal_text.specs.Rows.{name_in, code_in};
ghost use Rattle.journal_text.specs.Tables.{names_in};

use crate::code_table::table::CodeTable;

/// In a table of any length, a code has a name exactly if the name has that code.
pub fn names_and_codes_go_both_ways<const N: usize>(table: &CodeTable<N>)
    ensures { (code : ℕ) (name : List ℕ) → (name_in (names_in table.now) code ≡ Some name)
        ↔ (code_in (names_in table.now) name ≡ Some code) }
{
    let _ = table;
}

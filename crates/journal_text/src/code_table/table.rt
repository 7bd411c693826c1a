//! A table of codes and their names.
ghost use Rattle.std.specs.Prelude.{◌≡◌, ◌==◌, true, option_map, length};
ghost use Rattle.std.specs.List.{find};
ghost use Rattle.std.specs.Str.{bytes_eq};
ghost use Rattle.journal_text.specs.Rows.{are_distinct, names_of};

/// A code and its name.
#[derive(Clone, Copy)]
pub struct Row {
    /// The code.
    pub code: u32,
    /// Its name.
    pub name: &'static str,
}

/// N codes and their names. No code and no name stands in two rows.
#[derive(Clone, Copy)]
pub struct CodeTable<const N: usize> {
    rows: &'static [Row],
    ghost distinct: { are_distinct (names_of rows.now) ≡ true },
    ghost count: { length rows.now ≡ N },
}

impl<const N: usize> CodeTable<N> {
    ghost use Rattle.journal_text.specs.Rows.{name_in, code_in};
    ghost use Rattle.journal_text.specs.Tables.{names_in};

    /// The table of these rows, N of them, whose codes and names are distinct.
    pub fn new(rows: &'static [Row]) -> CodeTable<N>
        requires distinct { are_distinct (names_of rows.now) ≡ true }
        requires count { length rows.now ≡ N }
        ensures { names_in result ≡ names_of rows.now }
    {
        CodeTable { rows }
    }

    /// The name of a code, if the table has one.
    pub fn name_of(&self, code: u32) -> Option<&'static str>
        ensures { option_map (λ name. name.now) result ≡ name_in (names_in self.now) code }
    {
        row_name(self.rows, code)
    }

    /// The code of a name, if the table has it.
    pub fn code_of(&self, name: &[u8]) -> Option<u32>
        ensures { result ≡ code_in (names_in self.now) name.now }
    {
        row_code(self.rows, name)
    }
}

/// The name of the first row that has this code.
fn row_name(rows: &'static [Row], code: u32) -> Option<&'static str>
    ensures { option_map (λ name. name.now) result
        ≡ option_map (λ row. row.name.now) (find (λ row. code == row.code) rows.now) }
{
    rows.iter().find(|row| code == row.code).map(|row| row.name)
}

/// The code of the first row that has this name.
fn row_code(rows: &[Row], name: &[u8]) -> Option<u32>
    ensures { result ≡ option_map (λ row. row.code)
        (find (λ row. bytes_eq row.name.now name.now) rows.now) }
{
    rows.iter()
        .find(|row| row.name.as_bytes() == name)
        .map(|row| row.code)
}

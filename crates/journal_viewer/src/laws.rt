//! A law of every picture that is drawn of a text. The function has an empty body: what it says is
//! its contract, over the definitions alone.

ghost use Rattle.journal_viewer.specs.Laws.{LinesAreWords};

/// The line of an entry that was read has lower-case letters, digits, colons, spaces, hyphens and
/// its line feed alone. So the titles of marks have nothing that a reader of the picture takes for
/// markup.
pub fn lines_are_words()
    ensures { LinesAreWords }
{}

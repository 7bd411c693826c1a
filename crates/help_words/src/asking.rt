//! What the words after a program's name ask of the program itself.
ghost use Rattle.std.specs.Prelude.{◌≡◌, map};
ghost use Rattle.std.specs.String.{string_bytes};
ghost use Rattle.help_words.specs.Asking.{asked_by, is_only};

/// What a program is asked of itself.
#[derive(Clone, Copy, PartialEq, Eq, Debug)]
pub enum Asks {
    /// `--help`: how it is called, and what it does.
    Help,
    /// `--version`: which program it is.
    Version,
}

/// What these words ask of the program itself, which stand after its name: `--help` alone,
/// `--version` alone, or nothing. Any other words are for the program to read.
pub fn asked_of(words: &[String]) -> Option<Asks>
    ensures { result ≡ asked_by (map string_bytes words.now) }
{
    if is_only(words, "--help") {
        Some(Asks::Help)
    } else if is_only(words, "--version") {
        Some(Asks::Version)
    } else {
        None
    }
}

/// Whether the words are this word alone.
pub fn is_only(words: &[String], text: &str) -> bool
    ensures { result ≡ is_only text.now (map string_bytes words.now) }
{
    match words {
        [word] => word.as_str() == text,
        _ => false,
    }
}

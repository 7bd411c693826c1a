//! The first part of a text, and words that are keywords.
ghost use Rattle.std.specs.Prelude.{◌≡◌, ◌∷◌, ◌<◌, length, IfSome};
ghost use Rattle.std.specs.Str.{bytes_eq};
ghost use Rattle.text_parts.specs.Parts.{parts, parts_behind};

/// What stands before the first separator, and what stands after it, if there is one.
pub fn cut(bytes: &[u8], separator: u8) -> (&[u8], Option<&[u8]>)
    ensures are { parts separator bytes.now ≡ result.0.now ∷ parts_behind separator result.1 }
    ensures shorter { IfSome result.1 (λ rest. length rest.now < length bytes.now) }
{
    match bytes.iter().position(|byte| *byte == separator) {
        Some(at) => (&bytes[..at], Some(&bytes[at + 1..])),
        None => (bytes, None),
    }
}

/// Whether a word is this keyword.
pub fn is_word(word: &[u8], keyword: &[u8]) -> bool
    ensures { result ≡ bytes_eq word.now keyword.now }
{
    word == keyword
}

//! The words of a line.
ghost use Rattle.std.specs.Prelude.{◌≡◌, ◌∷◌, ◌<◌, ◌≤◌, ◌^◌, ℕ, length, IfSome, None, Some};
ghost use Rattle.script_net.specs.event_script.specs.Grammar.{raw_lines, number, digits_from};

use text_parts::cut;

/// The number that a word spells in decimal digits without a leading zero, if it spells one of 64
/// bits.
pub(crate) fn number(word: &[u8]) -> Option<u64>
    ensures spelt { IfSome result (λ n. number word.now ≡ Some n) }
    ensures beyond { result ≡ None → (n : ℕ) → number word.now ≡ Some n → 2 ^ 64 ≤ n }
{
    if word.is_empty() {
        return None;
    }
    if word[0] == b'0' && word.len() > 1 {
        return None;
    }
    digits(word)
}

/// The number of these decimal digits, if it is one of 64 bits.
fn digits(word: &[u8]) -> Option<u64>
    ensures spelt { IfSome result (λ n. digits_from 0 word.now ≡ Some n) }
    ensures beyond { result ≡ None → (n : ℕ) → digits_from 0 word.now ≡ Some n → 2 ^ 64 ≤ n }
{
    let mut number: u64 = 0;
    for byte in word {
        if !byte.is_ascii_digit() {
            return None;
        }
        number = number
            .checked_mul(10)?
            .checked_add(u64::from(*byte - b'0'))?;
    }
    Some(number)
}

/// The first line of a text that is not empty, and the text after it.
pub(crate) fn next_line(text: &[u8]) -> (&[u8], &[u8])
    requires { 0 < length text.now }
    ensures are { raw_lines text.now ≡ result.0.now ∷ raw_lines result.1.now }
    ensures shorter { length result.1.now < length text.now }
{
    let (line, behind) = cut(text, b'\n');
    match behind {
        Some(rest) => (line, rest),
        None => (line, &text[text.len()..]),
    }
}

//! The program's own words, and those that a command sees.
ghost use Rattle.std.specs.Prelude.{◌≡◌, false, map, IfOk};
ghost use Rattle.std.specs.String.{string_bytes};
ghost use Rattle.program_words.specs.Parting.{is_alone, is_flag, is_joined, is_own};
ghost use Rattle.program_words.specs.Parting.{left_over, taken_off};
ghost use Rattle.cmd_line.specs.Given.{may_be_text};

use crate::takes::Takes;
use ev_types::NoMemory;
use std::alloc::Global;

/// The words of a command, parted.
#[derive(Drop)]
pub(crate) struct Parted {
    /// The program's own, in order.
    pub(crate) own: Vec<String>,
    /// The others, in order.
    pub(crate) rest: Vec<String>,
}

/// Parts the words of a command.
pub(crate) fn part(alloc: Global, takes: Takes, words: Vec<String>) -> Result<Parted, NoMemory>
    ensures own { IfOk result (λ parted. map string_bytes parted.own.items
        ≡ taken_off takes false (map string_bytes words.items)) }
    ensures rest { IfOk result (λ parted. map string_bytes parted.rest.items
        ≡ left_over takes false (map string_bytes words.items)) }
{
    let mut own = Vec::new(alloc);
    let mut rest = Vec::new(alloc);
    let mut waits = false;
    for word in words {
        let is_own = is_own(takes, waits, &word);
        waits = is_alone(takes, &word);
        if is_own {
            own.push(word)?;
        } else {
            rest.push(word)?;
        }
    }
    Ok(Parted { own, rest })
}

// Whether the word is the program's own.
fn is_own(takes: Takes, waits: bool, word: &str) -> bool
    ensures { result ≡ is_own takes waits word.now }
{
    waits && may_be_text(word)
        || is_alone(takes, word)
        || is_joined(takes, word)
        || is_flag(takes, word)
}

// Whether the word may be an option's text.
fn may_be_text(word: &str) -> bool
    ensures { result ≡ may_be_text word.now }
{
    match word.as_bytes() {
        [first, _, ..] => *first != b'-',
        _ => true,
    }
}

// Whether the word is an option whose text is the next word.
fn is_alone(takes: Takes, word: &str) -> bool
    ensures { result ≡ is_alone takes word.now }
{
    takes.address && word == "--address"
}

// Whether the word is an option with its text.
fn is_joined(takes: Takes, word: &str) -> bool
    ensures { result ≡ is_joined takes word.now }
{
    takes.address && word.as_bytes().starts_with(b"--address=")
}

// Whether the word is an option without a text.
fn is_flag(takes: Takes, word: &str) -> bool
    ensures { result ≡ is_flag takes word.now }
{
    takes.control && word == "--control" || takes.ace7 && word == "--ace7"
}

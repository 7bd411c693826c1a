//! The words that call the command.
ghost use Rattle.std.specs.Prelude.{◌≡◌, ◌≤◌, false, codes, map, IfOk, IfSome};
ghost use Rattle.std.specs.String.{string_bytes};
ghost use Rattle.clap.specs.Words.{app_of};
ghost use Rattle.cmd_line.specs.Lines.{has_dashes};
ghost use Rattle.cmd_line.specs.Parse.{Parses, parser_of, text_in};
ghost use Rattle.cmd_line.specs.Numbers.{number_in};
ghost use Rattle.cmd_line.specs.Options.{value_or};
ghost use Rattle.cmd_line.specs.Ranges.{IsWithin};
ghost use Rattle.cmd_forward.specs.Words.{AreInRange, forward_by, forward_line, forward_of};
ghost use Rattle.cmd_forward.specs.Words.{options_of};

use clap::{ArgMatches, Command};
use cmd_line::{has_dashes, number_in, option, parse_words, text_of};
use ev_base::NoMemory;
use std::alloc::{AllocError, Global};

/// The most milliseconds that a connection may be waited for.
const MOST_WAIT: u64 = 4_294_967_295;

/// What the words of `forward` say.
#[derive(Clone, Copy, PartialEq, Eq, Debug)]
pub struct ForwardOptions {
    /// The port that is dialled, 1 to 65,535.
    pub port: u16,
    /// For how many milliseconds the connection is waited for: 1 to 4,294,967,295, and 5,000 if
    /// the words don't say.
    pub wait: u64,
}

impl ForwardOptions {
    /// What these words say, which stand after the program's name, or `None` if they don't call
    /// `forward`.
    ///
    /// The first word is `forward`. After it stand `--port P`, and `--wait MS` if it is wanted,
    /// each as `--name VALUE` or `--name=VALUE`, in any order and once. A number is decimal digits
    /// without a sign and without a leading zero. The word `--` is refused everywhere.
    #[tactic(auto, unfolding(crate::specs::Words::forward_of))]
    pub fn of(alloc: Global, words: &[String]) -> Result<Option<ForwardOptions>, NoMemory>
        ensures options { IfOk result (λ options. options ≡ forward_of
            (map string_bytes words.now)) }
        ensures ranges { IfOk result (λ options. IfSome options AreInRange) }
    {
        if has_dashes(words) {
            return Ok(None);
        }
        match words.split_first() {
            Some((name, rest)) if name.as_str() == "forward" => read_options(alloc, rest),
            _ => Ok(None),
        }
    }
}

// What the words say that stand after the command's name.
fn read_options(alloc: Global, words: &[String]) -> Result<Option<ForwardOptions>, NoMemory>
    requires { has_dashes (map string_bytes words.now) ≡ false }
    ensures options { IfOk result (λ options. options ≡ options_of (map string_bytes words.now)) }
    ensures ranges { IfOk result (λ options. IfSome options AreInRange) }
{
    match parse(alloc, words)? {
        Some(matches) => Ok(options_by(&matches)),
        None => Ok(None),
    }
}

// Parses these words.
fn parse(alloc: Global, words: &[String]) -> Result<Option<ArgMatches<'_>>, NoMemory>
    ensures { IfOk result (Parses (parser_of (codes "forward") forward_line)
        (map string_bytes words.entry.now)) }
{
    parse_words(parser(alloc)?, words)
}

// The parser of the options.
fn parser<'a>(alloc: Global) -> Result<Command<'a>, AllocError>
    ensures { IfOk result (λ command. app_of command
        ≡ parser_of (codes "forward") forward_line) }
{
    Command::new(alloc, "forward")
        .no_binary_name(true)
        .disable_help_flag(true)
        .disable_version_flag(true)
        .arg(option(alloc, "port"))?
        .arg(option(alloc, "wait"))
}

// What the options say that the parse found.
fn options_by(matches: &ArgMatches) -> Option<ForwardOptions>
    ensures options { result ≡ forward_by (text_in matches.now) }
    ensures ranges { IfSome result AreInRange }
{
    let port = number_in(text_of(matches, "port")?, 1, 65_535)?;
    let wait = wait_by(matches)?;
    Some(ForwardOptions {
        port: port as u16,
        wait,
    })
}

// For how long the words say that is waited.
fn wait_by(matches: &ArgMatches) -> Option<u64>
    ensures value { result ≡ value_or 5000 (number_in 1 4294967295)
        (text_in matches.now (codes "wait")) }
    ensures within { IfSome result (IsWithin 1 4294967295) }
{
    match text_of(matches, "wait") {
        Some(word) => number_in(word, 1, MOST_WAIT),
        None => Some(5_000),
    }
}

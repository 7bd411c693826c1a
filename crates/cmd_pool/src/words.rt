//! The words of the command.
ghost use Rattle.std.specs.Prelude.{◌≡◌, ◌≤◌, false, IfOk, IfSome, map, codes};
ghost use Rattle.std.specs.String.{string_bytes};
ghost use Rattle.clap.specs.Words.{app_of};
ghost use Rattle.cmd_line.specs.Lines.{has_dashes};
ghost use Rattle.cmd_line.specs.Numbers.{number_in};
ghost use Rattle.cmd_line.specs.Options.{value_if, value_or};
ghost use Rattle.cmd_line.specs.Parse.{Parses, parser_of, text_in};
ghost use Rattle.cmd_line.specs.Ranges.{IsWithin};
ghost use Rattle.cmd_pool.specs.Words.{AreInRange, options_by, options_of, pool_line, pool_of};

use clap::{ArgMatches, Command};
use cmd_line::{has_dashes, number_in, option, parse_words, text_of};
use ev_base::NoMemory;
use std::alloc::{AllocError, Global};

/// What the words of the command ask for.
#[derive(Clone, Copy, PartialEq, Eq, Debug)]
pub struct PoolOptions {
    /// The port that is listened to: 1 to 65,535.
    pub port: u16,
    /// How many threads lead: 1 to 64, and 1 if the words don't say.
    pub workers: u64,
    /// How many threads make lines: 1 to 16, and 2 if the words don't say.
    pub writers: u64,
    /// After how many connections that were closed or refused the run ends, if it does: 1 to
    /// 4,294,967,295.
    pub until: Option<u64>,
}

/// What these words ask for, which stand after the program's name, or `None` if they do not call
/// the command: `pool --port P [--workers N] [--writers M] [--until N]`, the options in any order,
/// each at most once, as `--name VALUE` or `--name=VALUE`. A number is decimal digits without a
/// sign and without a leading zero. The word `--` is refused.
#[tactic(auto, unfolding(crate::specs::Words::pool_of))]
pub fn read_words(alloc: Global, words: &[String]) -> Result<Option<PoolOptions>, NoMemory>
    ensures options { IfOk result (λ options. options ≡ pool_of (map string_bytes words.now)) }
    ensures ranges { IfOk result (λ options. IfSome options AreInRange) }
{
    if has_dashes(words) {
        return Ok(None);
    }
    match words.split_first() {
        Some((name, rest)) if name.as_str() == "pool" => read_options(alloc, rest),
        _ => Ok(None),
    }
}

// What the words after the command's name ask for.
fn read_options(alloc: Global, words: &[String]) -> Result<Option<PoolOptions>, NoMemory>
    requires { has_dashes (map string_bytes words.now) ≡ false }
    ensures options { IfOk result (λ options. options ≡ options_of (map string_bytes words.now)) }
    ensures ranges { IfOk result (λ options. IfSome options AreInRange) }
{
    match parse_words(parser(alloc)?, words)? {
        Some(matches) => Ok(options_by(&matches)),
        None => Ok(None),
    }
}

// The parser of the options.
fn parser<'a>(alloc: Global) -> Result<Command<'a>, AllocError>
    ensures { IfOk result (λ command. app_of command ≡ parser_of (codes "pool") pool_line) }
{
    Command::new(alloc, "pool")
        .no_binary_name(true)
        .disable_help_flag(true)
        .disable_version_flag(true)
        .arg(option(alloc, "port"))?
        .arg(option(alloc, "workers"))?
        .arg(option(alloc, "writers"))?
        .arg(option(alloc, "until"))
}

// What the options say that the parse found.
fn options_by(matches: &ArgMatches) -> Option<PoolOptions>
    ensures options { result ≡ options_by (text_in matches.now) }
    ensures ranges { IfSome result AreInRange }
{
    let port = number_in(text_of(matches, "port")?, 1, 65_535)?;
    let workers = read_or(matches, "workers", 64, 1)?;
    let writers = read_or(matches, "writers", 16, 2)?;
    let until = read_if(matches, "until", 4_294_967_295)?;
    Some(PoolOptions {
        port: port as u16,
        workers,
        writers,
        until,
    })
}

// The number from 1 to `most` that an option gives, or this if it is not given.
fn read_or(matches: &ArgMatches, name: &str, most: u64, default: u64) -> Option<u64>
    requires least { 1 ≤ default }
    requires greatest { default ≤ most }
    ensures value { result ≡ value_or default (number_in 1 most) (text_in matches.now name.now) }
    ensures within { IfSome result (IsWithin 1 most) }
{
    match text_of(matches, name) {
        Some(word) => number_in(word, 1, most),
        None => Some(default),
    }
}

// The number from 1 to `most` that an option gives, if it is given.
fn read_if(matches: &ArgMatches, name: &str, most: u64) -> Option<Option<u64>>
    ensures value { result ≡ value_if (number_in 1 most) (text_in matches.now name.now) }
    ensures within { IfSome result (λ number. IfSome number (IsWithin 1 most)) }
{
    match text_of(matches, name) {
        Some(word) => number_in(word, 1, most).map(Some),
        None => Some(None),
    }
}

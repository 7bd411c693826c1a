//! The options of `replay` and `serve`, as `clap` reads them.
ghost use Rattle.std.specs.Prelude.{◌≡◌, true, false, map, codes, IfOk};
ghost use Rattle.std.specs.String.{string_bytes};
ghost use Rattle.clap.specs.Words.{app_of, rule_of, is_simple_and_free};
ghost use Rattle.cmd_line.specs.Lines.{replay_line, serve_line};
ghost use Rattle.cmd_line.specs.Parse.{Parses, flag, parser_of, shared_line, valued};

use clap::error::ErrorKind;
use clap::{Arg, ArgAction, ArgMatches, Command};
use ev_types::NoMemory;
use std::alloc::{AllocError, Global};

/// Parses the words after `replay`.
pub(crate) fn parse_replay(
    alloc: Global,
    words: &[String],
) -> Result<Option<ArgMatches<'_>>, NoMemory>
    ensures { IfOk result (Parses (parser_of (codes "replay") replay_line)
        (map string_bytes words.entry.now)) }
{
    parse_words(replay(alloc)?, words)
}

/// Parses the words after `serve`.
pub(crate) fn parse_serve(
    alloc: Global,
    words: &[String],
) -> Result<Option<ArgMatches<'_>>, NoMemory>
    ensures { IfOk result (Parses (parser_of (codes "serve") serve_line)
        (map string_bytes words.entry.now)) }
{
    parse_words(serve(alloc)?, words)
}

/// Parses the words by this command line: None is answered exactly if they are not as it says.
pub fn parse_words<'a>(
    command: Command<'a>,
    words: &'a [String],
) -> Result<Option<ArgMatches<'a>>, NoMemory>
    requires { is_simple_and_free (app_of command) ≡ true }
    ensures { IfOk result (Parses (app_of command.entry) (map string_bytes words.entry.now)) }
{
    match command.try_get_matches_from(words) {
        Ok(matches) => Ok(Some(matches)),
        Err(error) => match error.kind() {
            ErrorKind::OutOfMemory => Err(NoMemory),
            _ => Ok(None),
        },
    }
}

// The parser of `replay`.
fn replay<'a>(alloc: Global) -> Result<Command<'a>, AllocError>
    ensures { IfOk result (λ command. app_of command ≡ parser_of (codes "replay") replay_line) }
{
    plain(alloc, "replay")?
        .arg(flag(alloc, "grouped"))?
        .arg(flag(alloc, "journal"))
}

// The parser of `serve`.
fn serve<'a>(alloc: Global) -> Result<Command<'a>, AllocError>
    ensures { IfOk result (λ command. app_of command ≡ parser_of (codes "serve") serve_line) }
{
    plain(alloc, "serve")?.arg(option(alloc, "port"))
}

// A parser with the options that both have, without help and version.
fn plain<'a>(alloc: Global, name: &'a str) -> Result<Command<'a>, AllocError>
    ensures { IfOk result (λ command. app_of command ≡ parser_of name.entry.now shared_line) }
{
    Command::new(alloc, name)
        .no_binary_name(true)
        .disable_help_flag(true)
        .disable_version_flag(true)
        .arg(option(alloc, "workers"))?
        .arg(option(alloc, "most"))?
        .arg(option(alloc, "idle"))?
        .arg(option(alloc, "until"))?
        .arg(option(alloc, "timers"))
}

/// An option with one value: `--name VALUE` or `--name=VALUE`.
pub fn option<'a>(alloc: Global, name: &'a str) -> Arg<'a>
    ensures rule { rule_of result ≡ valued name.entry.now }
    ensures local { result.global ≡ false }
{
    Arg::new(alloc, name).long(name).action(ArgAction::Set)
}

// An option without a value: `--name`.
fn flag<'a>(alloc: Global, name: &'a str) -> Arg<'a>
    ensures rule { rule_of result ≡ flag name.entry.now }
    ensures local { result.global ≡ false }
{
    Arg::new(alloc, name).long(name).action(ArgAction::SetTrue)
}

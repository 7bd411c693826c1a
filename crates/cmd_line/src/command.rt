//! The commands of the program.
ghost use Rattle.std.specs.Prelude.{◌≡◌, false, map, IfOk, IfSome};
ghost use Rattle.std.specs.String.{string_bytes};
ghost use Rattle.cmd_line.specs.Lines.{alone, command_named, command_of, generate_of, has_dashes};
ghost use Rattle.cmd_line.specs.Lines.{replay_by, replay_of, serve_by, serve_of};
ghost use Rattle.cmd_line.specs.Ranges.{IsInRange};
ghost use Rattle.cmd_line.specs.Parse.{text_in};

use crate::Options;
use crate::number::{GREATEST_U32, number_in};
use crate::options::{Form, read_form, read_options, text_of};
use crate::parse::{parse_replay, parse_serve};
use clap::ArgMatches;
use ev_types::NoMemory;
use std::alloc::Global;

/// A command of the program, with what its words say.
#[derive(Clone, Copy, PartialEq, Eq, Debug)]
pub enum Command {
    /// `one`: standard input is one connection.
    One,
    /// `replay`: standard input is a script.
    Replay(Options),
    /// `serve`: connections come to a port.
    Serve {
        /// The port, 1 to 65,535.
        port: u16,
        /// How they are served.
        options: Options,
    },
    /// `display`: standard input is records, which are shown as text.
    Display,
    /// `audit`: standard input is a journal, which is checked.
    Audit,
    /// `gen`: a script is generated and run.
    Generate {
        /// How many connections it has, 1 to 1,000.
        connections: u64,
        /// What it is generated from, 0 to 4,294,967,295.
        seed: u64,
    },
}

impl Command {
    /// The command that these words call, which stand after the program's name, or `None` if
    /// they call none.
    ///
    /// The first word is the command's name. After `replay` and `serve` stand options, `--name
    /// VALUE` or `--name=VALUE`, and flags, `--name`, in any order and each at most once; `serve`
    /// has a port. After `gen` stand the two numbers. A number is decimal digits without a sign
    /// and without a leading zero. The word `--` is refused everywhere.
    #[tactic(auto, unfolding(crate::specs::Lines::command_of))]
    pub fn of(alloc: Global, words: &[String]) -> Result<Option<Command>, NoMemory>
        ensures command { IfOk result (λ command. command ≡ command_of
            (map string_bytes words.now)) }
        ensures ranges { IfOk result (λ command. IfSome command IsInRange) }
    {
        if has_dashes(words) {
            return Ok(None);
        }
        match words.split_first() {
            Some((name, rest)) => named(alloc, name, rest),
            None => Ok(None),
        }
    }
}

/// Whether the word `--` is one of these. No command takes it.
pub fn has_dashes(words: &[String]) -> bool
    ensures { result ≡ has_dashes (map string_bytes words.now) }
{
    for word in words {
        if word.as_str() == "--" {
            return true;
        }
    }
    false
}

// The command of this name, with the words after it.
fn named(alloc: Global, name: &str, words: &[String]) -> Result<Option<Command>, NoMemory>
    requires { has_dashes (map string_bytes words.now) ≡ false }
    ensures command { IfOk result (λ command. command ≡ command_named name.now
        (map string_bytes words.now)) }
    ensures ranges { IfOk result (λ command. IfSome command IsInRange) }
{
    match name {
        "one" => Ok(alone(Command::One, words)),
        "replay" => replay(alloc, words),
        "serve" => serve(alloc, words),
        "display" => Ok(alone(Command::Display, words)),
        "audit" => Ok(alone(Command::Audit, words)),
        "gen" => Ok(generate(words)),
        _ => Ok(None),
    }
}

// A command that takes no words.
fn alone(command: Command, words: &[String]) -> Option<Command>
    requires { IsInRange command }
    ensures command { result ≡ alone command (map string_bytes words.now) }
    ensures ranges { IfSome result IsInRange }
{
    if words.is_empty() {
        Some(command)
    } else {
        None
    }
}

// `replay` with the words after it.
fn replay(alloc: Global, words: &[String]) -> Result<Option<Command>, NoMemory>
    requires { has_dashes (map string_bytes words.now) ≡ false }
    ensures command { IfOk result (λ command. command ≡ replay_of (map string_bytes words.now)) }
    ensures ranges { IfOk result (λ command. IfSome command IsInRange) }
{
    match parse_replay(alloc, words)? {
        Some(matches) => Ok(replay_by(&matches)),
        None => Ok(None),
    }
}

// `replay` with the options that the parse found.
fn replay_by(matches: &ArgMatches) -> Option<Command>
    ensures command { result ≡ replay_by (text_in matches.now) }
    ensures ranges { IfSome result IsInRange }
{
    let form = read_form(matches)?;
    let options = read_options(matches, form)?;
    Some(Command::Replay(options))
}

// `serve` with the words after it.
fn serve(alloc: Global, words: &[String]) -> Result<Option<Command>, NoMemory>
    requires { has_dashes (map string_bytes words.now) ≡ false }
    ensures command { IfOk result (λ command. command ≡ serve_of (map string_bytes words.now)) }
    ensures ranges { IfOk result (λ command. IfSome command IsInRange) }
{
    match parse_serve(alloc, words)? {
        Some(matches) => Ok(serve_by(&matches)),
        None => Ok(None),
    }
}

// `serve` with the options that the parse found.
fn serve_by(matches: &ArgMatches) -> Option<Command>
    ensures command { result ≡ serve_by (text_in matches.now) }
    ensures ranges { IfSome result IsInRange }
{
    let port = number_in(text_of(matches, "port")?, 1, 65_535)?;
    let options = read_options(matches, Form::Plain)?;
    Some(Command::Serve {
        port: port as u16,
        options,
    })
}

// `gen` with the words after it.
fn generate(words: &[String]) -> Option<Command>
    ensures command { result ≡ generate_of (map string_bytes words.now) }
    ensures ranges { IfSome result IsInRange }
{
    match words {
        [connections, seed] => {
            let connections = number_in(connections, 1, 1_000)?;
            let seed = number_in(seed, 0, GREATEST_U32)?;
            Some(Command::Generate { connections, seed })
        }
        _ => None,
    }
}

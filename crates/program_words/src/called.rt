//! What the words of the program call.
ghost use Rattle.std.specs.Prelude.{◌≡◌, true, false, codes, map, IfOk, MatchOption};
ghost use Rattle.std.specs.String.{string_bytes};
ghost use Rattle.clap.specs.Words.{app_of, rule_of};
ghost use Rattle.cmd_line.specs.Given.{given, has_flag};
ghost use Rattle.cmd_line.specs.Lines.{has_dashes};
ghost use Rattle.cmd_line.specs.Parse.{flag, parser_of, text_in};
ghost use Rattle.help_words.specs.Asking.{is_only};
ghost use Rattle.program_words.specs.Calling.{Calls, ReadsOwn, Says, SaysNone, own_line};

use crate::address::read_address;
use crate::parting::{Parted, part};
use crate::takes::takes_of;
use clap::{Arg, ArgAction, ArgMatches, Command};
use cmd_line::{option, parse_words, text_of};
use ev_types::NoMemory;
use help_words::is_only;
use std::alloc::{AllocError, Global};
use std::net::IpAddr;

/// The options of the program itself.
#[derive(Clone, Copy, PartialEq, Eq, Debug)]
pub struct Own {
    /// What a command that listens listens to, and what one that dials dials: 127.0.0.1 if the
    /// words do not say.
    pub address: IpAddr,
    /// Whether the end of standard input ends a command that listens.
    pub control: bool,
    /// Whether the records are read as clients that use ACE 7 as it stands write them.
    pub ace7: bool,
}

/// What the words of the program call.
#[derive(Drop)]
pub enum Called {
    /// `--help`: what the program does.
    Help,
    /// `--version`: which program it is.
    Version,
    /// A command.
    Command {
        /// The options that were taken off.
        own: Own,
        /// The words that the command sees, in order.
        rest: Vec<String>,
    },
}

/// What these words call, which stand after the program's name, or `None` if an option of the
/// program's own is not as it has to be.
///
/// `--help` and `--version` stand alone. With a command may stand its options of the program's own,
/// each once: `--address A` or `--address=A` with `serve`, `aio`, `pool` and `forward`, where A is
/// an IPv4 or an IPv6 address; `--control` with `serve`, `aio` and `pool`; `--ace7` with `one`,
/// `display`, `serve` and `pool`. They are taken off, and every other word is left: what is wrong
/// with those is for the commands to say.
pub fn call_of(alloc: Global, words: Vec<String>) -> Result<Option<Called>, NoMemory>
    ensures { IfOk result (Calls (map string_bytes words.items)) }
{
    if is_only(&words, "--help") {
        Ok(Some(Called::Help))
    } else if is_only(&words, "--version") {
        Ok(Some(Called::Version))
    } else {
        take_off(alloc, words)
    }
}

// A command: its options of the program's own are taken off and read.
fn take_off(alloc: Global, words: Vec<String>) -> Result<Option<Called>, NoMemory>
    requires no_help { is_only (codes "--help") (map string_bytes words.items) ≡ false }
    requires no_version { is_only (codes "--version") (map string_bytes words.items) ≡ false }
    ensures { IfOk result (Calls (map string_bytes words.items)) }
{
    let takes = takes_of(&words);
    let Parted { own, rest } = part(alloc, takes, words)?;
    match read_own(alloc, &own)? {
        Some(own) => Ok(Some(Called::Command { own, rest })),
        None => Ok(None),
    }
}

// What the program's own options say, and None if they are not as they have to be.
fn read_own(alloc: Global, words: &[String]) -> Result<Option<Own>, NoMemory>
    requires { has_dashes (map string_bytes words.now) ≡ false }
    ensures { IfOk result (ReadsOwn (given own_line (map string_bytes words.now))) }
{
    match parse_words(own_command(alloc)?, words)? {
        Some(matches) => Ok(own_by(&matches)),
        None => Ok(None),
    }
}

// What the options say that the parse found.
fn own_by(matches: &ArgMatches) -> Option<Own>
    ensures { MatchOption result (SaysNone (text_in matches.now (codes "address")))
        (Says (text_in matches.now)) }
{
    let address = read_address(text_of(matches, "address"))?;
    Some(Own {
        address,
        control: has_flag(matches, "control"),
        ace7: has_flag(matches, "ace7"),
    })
}

// Whether a flag was given. The parser gives it the text `true` then, and else `false`.
fn has_flag(matches: &ArgMatches, name: &str) -> bool
    ensures { result ≡ has_flag (text_in matches.now name.now) }
{
    match text_of(matches, name) {
        Some(text) => text == "true",
        None => false,
    }
}

// The parser of the program's own options.
fn own_command<'a>(alloc: Global) -> Result<Command<'a>, AllocError>
    ensures { IfOk result (λ command. app_of command ≡ parser_of (codes "logd") own_line) }
{
    Command::new(alloc, "logd")
        .no_binary_name(true)
        .disable_help_flag(true)
        .disable_version_flag(true)
        .arg(option(alloc, "address"))?
        .arg(flag(alloc, "control"))?
        .arg(flag(alloc, "ace7"))
}

// An option without a value: `--name`.
fn flag<'a>(alloc: Global, name: &'a str) -> Arg<'a>
    ensures rule { rule_of result ≡ flag name.entry.now }
    ensures local { result.global ≡ false }
{
    Arg::new(alloc, name).long(name).action(ArgAction::SetTrue)
}

//! What the words after `aio` say.
ghost use Rattle.std.specs.Prelude.{◌≡◌, codes, false, map, IfOk, IfSome};
ghost use Rattle.std.specs.String.{string_bytes};
ghost use Rattle.clap.specs.Words.{app_of};
ghost use Rattle.cmd_line.specs.Lines.{has_dashes};
ghost use Rattle.cmd_line.specs.Parse.{parser_of, text_in};
ghost use Rattle.aio_words.specs.Words.{AreInRange, aio_by, aio_line, aio_of, options_of};

use clap::{ArgMatches, Command};
use cmd_line::{has_dashes, number_in, option, parse_words, text_of};
use ev_types::NoMemory;
use std::alloc::{AllocError, Global};

/// The greatest number of connections after which a run ends.
const MOST: u64 = 4_294_967_295;

/// What the words say.
#[derive(Clone, Copy, PartialEq, Eq, Debug)]
pub struct AioWords {
    /// The port, 1 to 65,535.
    pub port: u16,
    /// After how many connections that were closed or refused the run ends, if it does: 1 to
    /// 4,294,967,295.
    pub until: Option<u64>,
}

/// What these words say, which stand after `aio`, or `None` if they are not as they have to be:
/// `--port P` and, if wanted, `--until N`, or `--port=P` and `--until=N`, in any order and each at
/// most once. A number is decimal digits without a sign and without a leading zero. The word `--`
/// is refused. `NoMemory` says nothing of the words.
#[tactic(auto, unfolding(crate::specs::Words::aio_of))]
pub fn aio_words(alloc: Global, words: &[String]) -> Result<Option<AioWords>, NoMemory>
    ensures said { IfOk result (λ said. said ≡ aio_of (map string_bytes words.now)) }
    ensures ranges { IfOk result (λ said. IfSome said AreInRange) }
{
    if has_dashes(words) {
        return Ok(None);
    }
    read(alloc, words)
}

// What the options say.
fn read(alloc: Global, words: &[String]) -> Result<Option<AioWords>, NoMemory>
    requires { has_dashes (map string_bytes words.now) ≡ false }
    ensures said { IfOk result (λ said. said ≡ options_of (map string_bytes words.now)) }
    ensures ranges { IfOk result (λ said. IfSome said AreInRange) }
{
    match parse_words(command(alloc)?, words)? {
        Some(matches) => Ok(read_by(&matches)),
        None => Ok(None),
    }
}

// What the options say that the parse found.
fn read_by(matches: &ArgMatches) -> Option<AioWords>
    ensures said { result ≡ aio_by (text_in matches.now) }
    ensures ranges { IfSome result AreInRange }
{
    let port = number_in(text_of(matches, "port")?, 1, 65_535)?;
    let until = match text_of(matches, "until") {
        Some(word) => Some(number_in(word, 1, MOST)?),
        None => None,
    };
    Some(AioWords {
        port: port as u16,
        until,
    })
}

// The parser of the options.
fn command<'a>(alloc: Global) -> Result<Command<'a>, AllocError>
    ensures { IfOk result (λ command. app_of command ≡ parser_of (codes "aio") aio_line) }
{
    Command::new(alloc, "aio")
        .no_binary_name(true)
        .disable_help_flag(true)
        .disable_version_flag(true)
        .arg(option(alloc, "port"))?
        .arg(option(alloc, "until"))
}

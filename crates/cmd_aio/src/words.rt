//! The words of the command.
ghost use Rattle.std.specs.Prelude.{◌≡◌, IfOk, map};
ghost use Rattle.std.specs.String.{string_bytes};
ghost use Rattle.cmd_aio.specs.Words.{called};

use aio_words::{AioWords, aio_words};
use ev_base::NoMemory;
use std::alloc::Global;

/// What these words ask for, which stand after the program's name, or `None` if they do not call
/// the command: `aio --port P [--until N]`, the options in any order, each at most once.
pub fn read_words(alloc: Global, words: &[String]) -> Result<Option<AioWords>, NoMemory>
    ensures { IfOk result (λ said. said ≡ called (map string_bytes words.now)) }
{
    match words.split_first() {
        Some((name, rest)) if name.as_str() == "aio" => aio_words(alloc, rest),
        _ => Ok(None),
    }
}

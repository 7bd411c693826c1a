//! A line of a script.
ghost use Rattle.std.specs.Prelude.{◌≡◌, IfOk};
ghost use Rattle.script_net.specs.event_script.specs.Script.{report_step};
ghost use Rattle.script_net.specs.event_script.specs.Grammar.{quiet_line, two_words, fail_line};
ghost use Rattle.script_net.specs.event_script.specs.Grammar.{data_line};
ghost use Rattle.script_text.specs.Lines.{Says, SaysLine, step_view};
ghost use Rattle.script_net.specs.Scripts.{step_at};

use crate::words::number;
use ev_base::NoMemory;
use hex::FromHexError;
use script_net::End;
use std::alloc::Global;
use text_parts::{cut, is_word};

/// A step of a script.
#[derive(Drop)]
pub(crate) enum Step {
    /// The connection of this number comes.
    Open(u64),
    /// A connection brings bytes.
    Data(u64, Vec<u8>),
    /// A connection is shut.
    Shut(u64),
    /// A connection fails.
    Fail(u64),
    /// The listener fails once.
    FailListener,
}

impl Step {
    /// The end at which the step is reported.
    pub(crate) fn end(&self) -> End
        ensures { step_at result ≡ report_step (step_view self.now) }
    {
        match self {
            Step::Open(_) | Step::FailListener => End::Listener,
            Step::Data(conn, _) | Step::Shut(conn) | Step::Fail(conn) => End::Connection(*conn),
        }
    }
}

/// What a line says.
#[derive(Drop)]
pub(crate) enum Line {
    /// The moment of what follows, in milliseconds.
    At(u64),
    /// A moment at which nothing happens.
    Quiet,
    /// A step.
    Step(Step),
}

/// What a line says; None if it says nothing that may stand in any script.
pub(crate) fn read_line(alloc: Global, bytes: &[u8]) -> Result<Option<Line>, NoMemory>
    ensures { IfOk result (λ line. SaysLine bytes.now line) }
{
    let (word, rest) = cut(bytes, b' ');
    let Some(rest) = rest else {
        return Ok(one_word(word));
    };
    let (value, rest) = cut(rest, b' ');
    let Some(rest) = rest else {
        return Ok(two_words(word, value));
    };
    let (digits, rest) = cut(rest, b' ');
    if rest.is_some() {
        return Ok(None);
    }
    if !is_word(word, b"data") {
        return Ok(None);
    }
    data_line(alloc, value, digits)
}

fn one_word(word: &[u8]) -> Option<Line>
    ensures { Says (quiet_line word.now) result }
{
    if is_word(word, b"quiet") {
        Some(Line::Quiet)
    } else {
        None
    }
}

fn two_words(word: &[u8], value: &[u8]) -> Option<Line>
    ensures { Says (two_words word.now value.now) result }
{
    if is_word(word, b"at") {
        Some(Line::At(number(value)?))
    } else if is_word(word, b"open") {
        Some(Line::Step(Step::Open(number(value)?)))
    } else if is_word(word, b"shut") {
        Some(Line::Step(Step::Shut(number(value)?)))
    } else if is_word(word, b"fail") {
        fail_line(value)
    } else {
        None
    }
}

fn fail_line(value: &[u8]) -> Option<Line>
    ensures { Says (fail_line value.now) result }
{
    if is_word(value, b"listener") {
        return Some(Line::Step(Step::FailListener));
    }
    Some(Line::Step(Step::Fail(number(value)?)))
}

fn data_line(alloc: Global, conn: &[u8], digits: &[u8]) -> Result<Option<Line>, NoMemory>
    ensures { IfOk result (λ line. Says (data_line conn.now digits.now) line) }
{
    let Some(conn) = number(conn) else {
        return Ok(None);
    };
    match hex::decode(alloc, digits) {
        Ok(bytes) => Ok(Some(Line::Step(Step::Data(conn, bytes)))),
        Err(FromHexError::OutOfMemory) => Err(NoMemory),
        Err(_) => Ok(None),
    }
}

//! The options of `replay` and `serve`.
ghost use Rattle.std.specs.Prelude.{◌≡◌, ◌≤◌, IfSome, option_map, codes};
ghost use Rattle.cmd_line.specs.Numbers.{number_in};
ghost use Rattle.cmd_line.specs.Given.{has_flag};
ghost use Rattle.cmd_line.specs.Options.{form_of, timers_named, value_if, value_or};
ghost use Rattle.cmd_line.specs.Lines.{shared};
ghost use Rattle.cmd_line.specs.Ranges.{AreInRange, IsWithin};
ghost use Rattle.cmd_line.specs.Parse.{text_in};

use crate::number::{GREATEST_U32, number_in};
use clap::ArgMatches;

/// The form of what a replay writes.
#[derive(Clone, Copy, PartialEq, Eq, Debug)]
pub enum Form {
    /// The lines of all connections in the order in which they came about.
    Plain,
    /// The lines of one connection after another.
    Grouped,
    /// The text of the journal.
    Journal,
}

/// The queue that keeps the timers.
#[derive(Clone, Copy, PartialEq, Eq, Debug)]
pub enum Timers {
    /// A sorted list.
    List,
    /// A binary heap.
    Heap,
    /// A hashed wheel.
    Wheel,
}

/// How connections are served.
#[derive(Clone, Copy, PartialEq, Eq, Debug)]
pub struct Options {
    /// How many threads lead: 1 to 64, and 1 if the words don't say.
    pub workers: u64,
    /// How many connections may be open at once: 1 to 4,096, and 1,000 if the words don't say.
    pub most: u64,
    /// After how many milliseconds without input a connection is closed, if it is: 1 to
    /// 4,294,967,295.
    pub idle: Option<u64>,
    /// After how many connections that were closed or refused the run ends, if it does: 1 to
    /// 4,294,967,295.
    pub until: Option<u64>,
    /// What is written. A server writes plain lines.
    pub form: Form,
    /// The queue of timers: a list if the words don't say.
    pub timers: Timers,
}

/// The options that the parse found, for output of this form.
pub(crate) fn read_options(matches: &ArgMatches, form: Form) -> Option<Options>
    ensures value { result ≡ shared (text_in matches.now) form }
    ensures ranges { IfSome result AreInRange }
{
    let workers = read_or(matches, "workers", 64, 1)?;
    let most = read_or(matches, "most", 4_096, 1_000)?;
    let idle = read_if(matches, "idle", GREATEST_U32)?;
    let until = read_if(matches, "until", GREATEST_U32)?;
    let timers = read_timers(matches)?;
    Some(Options {
        workers,
        most,
        idle,
        until,
        form,
        timers,
    })
}

/// The form of the output, if no two are asked for.
pub(crate) fn read_form(matches: &ArgMatches) -> Option<Form>
    ensures { result ≡ form_of (has_flag (text_in matches.now (codes "grouped")))
        (has_flag (text_in matches.now (codes "journal"))) }
{
    match (has_flag(matches, "grouped"), has_flag(matches, "journal")) {
        (false, false) => Some(Form::Plain),
        (true, false) => Some(Form::Grouped),
        (false, true) => Some(Form::Journal),
        (true, true) => None,
    }
}

/// The value of an option, as it is written, if the words gave it.
pub fn text_of<'a>(matches: &ArgMatches<'a>, name: &str) -> Option<&'a str>
    ensures { option_map (λ s. s.now) result ≡ text_in matches.now name.now }
{
    matches.get_str(name)
}

// The number from 1 to `most` that an option gives, or this if it is not given.
fn read_or(matches: &ArgMatches, name: &str, most: u64, default: u64) -> Option<u64>
    requires least { 1 ≤ default }
    requires greatest { default ≤ most }
    ensures value { result ≡ value_or default (number_in 1 most) (text_in matches.now name.now) }
    ensures within { IfSome result (IsWithin 1 most) }
{
    match text_of(matches, name) {
        Some(word) => number_in(word, 1, most),
        None => Some(default),
    }
}

// The number from 1 to `most` that an option gives, if it is given.
fn read_if(matches: &ArgMatches, name: &str, most: u64) -> Option<Option<u64>>
    ensures value { result ≡ value_if (number_in 1 most) (text_in matches.now name.now) }
    ensures within { IfSome result (λ number. IfSome number (IsWithin 1 most)) }
{
    match text_of(matches, name) {
        Some(word) => number_in(word, 1, most).map(Some),
        None => Some(None),
    }
}

// The queue that `--timers` names, or the list if it is not given.
fn read_timers(matches: &ArgMatches) -> Option<Timers>
    ensures { result ≡ value_or Timers.List timers_named (text_in matches.now (codes "timers")) }
{
    match text_of(matches, "timers") {
        Some(word) => timers_by_name(word),
        None => Some(Timers::List),
    }
}

fn timers_by_name(name: &str) -> Option<Timers>
    ensures { result ≡ timers_named name.now }
{
    match name {
        "list" => Some(Timers::List),
        "heap" => Some(Timers::Heap),
        "wheel" => Some(Timers::Wheel),
        _ => None,
    }
}

// Whether a flag was given. The parser gives it the text `true` then, and else `false`.
fn has_flag(matches: &ArgMatches, name: &str) -> bool
    ensures { result ≡ has_flag (text_in matches.now name.now) }
{
    match text_of(matches, name) {
        Some(word) => word == "true",
        None => false,
    }
}

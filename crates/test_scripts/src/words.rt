//! Rows of the words of the commands: lines of words, and the commands that they call. That there
//! is an answer if there is memory no contract says.
use crate::asserts::{assert_same, assert_same_in};
use cmd_line::Command;
use program_words::{Called, call_of};
use std::alloc::{AllocError, Global};
use std::test::Fail;

/// Words that are parted by one space, each line with its command.
static LINES: [(&str, &str); 26] = [
    ("one", "Some(One)"),
    ("one x", "None"),
    ("display", "Some(Display)"),
    ("audit", "Some(Audit)"),
    ("gen 40 7", "Some(Generate { connections: 40, seed: 7 })"),
    ("gen 0 1", "None"),
    (
        "gen 1000 4294967295",
        "Some(Generate { connections: 1000, seed: 4294967295 })",
    ),
    (
        "replay",
        "Some(Replay(Options { workers: 1, most: 1000, idle: None, until: None,\
          \x20form: Plain, timers: List }))",
    ),
    (
        "replay --workers=2",
        "Some(Replay(Options { workers: 2, most: 1000, idle: None, until: None,\
          \x20form: Plain, timers: List }))",
    ),
    (
        "replay --journal --most 5 --timers wheel",
        "Some(Replay(Options { workers: 1, most: 5, idle: None, until: None, fo\
          rm: Journal, timers: Wheel }))",
    ),
    (
        "replay --timers=heap --grouped --until 3 --idle 100 --workers 64",
        "Some(Replay(Options { workers: 64, most: 1000, idle: Some(100), until:\
          \x20Some(3), form: Grouped, timers: Heap }))",
    ),
    ("replay --workers 0", "None"),
    ("replay --workers 01", "None"),
    ("replay --workers 2 --workers 2", "None"),
    ("replay --grouped --journal", "None"),
    ("replay --grouped=true", "None"),
    ("replay --", "None"),
    ("replay --timers tree", "None"),
    ("replay --port 7000", "None"),
    ("replay --help", "None"),
    (
        "serve --port 7000",
        "Some(Serve { port: 7000, options: Options { workers: 1, most: 1000, id\
          le: None, until: None, form: Plain, timers: List } })",
    ),
    (
        "serve --until 1 --port=65535 --most 4096",
        "Some(Serve { port: 65535, options: Options { workers: 1, most: 4096, i\
          dle: None, until: Some(1), form: Plain, timers: List } })",
    ),
    ("serve", "None"),
    ("serve --port 65536", "None"),
    ("serve --port 7000 --grouped", "None"),
    ("--help", "None"),
];

#[test]
fn lines_of_words_call_their_commands(rt: HostRuntime) -> Result<(), Fail> {
    let none: Vec<String> = Vec::new(rt.alloc());
    assert_same(&rt, Command::of(rt.alloc(), &none)?, None);
    for &(line, expected) in &LINES {
        let words = words_of(rt.alloc(), line)?;
        let command = Command::of(rt.alloc(), &words)?;
        let text = format!(in rt.alloc(); "{command:?}")?;
        assert_same_in(&rt, line, text.as_str(), expected);
    }
    Ok(())
}

/// Words of the program, and what they call: help, the version, or the words that a command sees,
/// after the options that were taken off.
static CALLS: [(&str, &str); 22] = [
    ("--help", "help"),
    ("--version", "version"),
    ("--version --help", "127.0.0.1: --version --help"),
    ("one", "127.0.0.1: one"),
    ("one --ace7", "127.0.0.1 ace7: one"),
    ("one --control", "127.0.0.1: one --control"),
    ("display --ace7", "127.0.0.1 ace7: display"),
    ("replay --ace7", "127.0.0.1: replay --ace7"),
    ("serve --port 7000", "127.0.0.1: serve --port 7000"),
    ("serve --address ::1 --port 7000", "::1: serve --port 7000"),
    (
        "serve --port 7000 --address=0.0.0.0",
        "0.0.0.0: serve --port 7000",
    ),
    ("serve --address 1.2.3 --port 7000", "none"),
    (
        "serve --control --port 7000 --ace7",
        "127.0.0.1 control ace7: serve --port 7000",
    ),
    ("serve --control --control", "none"),
    (
        "serve --control=yes --port 7000",
        "127.0.0.1: serve --control=yes --port 7000",
    ),
    (
        "serve --ace7 --address ::1 --control",
        "::1 control ace7: serve",
    ),
    ("serve --address --control", "none"),
    (
        "forward --address ::1 --port 7000 --control",
        "::1: forward --port 7000 --control",
    ),
    (
        "aio --control --ace7 --port 7000",
        "127.0.0.1 control: aio --ace7 --port 7000",
    ),
    (
        "pool --ace7 --control --address 10.0.0.1",
        "10.0.0.1 control ace7: pool",
    ),
    (
        "gen 40 7 --address ::1",
        "127.0.0.1: gen 40 7 --address ::1",
    ),
    ("--control serve", "127.0.0.1: --control serve"),
];

#[test]
fn words_of_the_program_are_taken_off(rt: HostRuntime) -> Result<(), Fail> {
    for &(line, expected) in &CALLS {
        let text = match call_of(rt.alloc(), words_of(rt.alloc(), line)?)? {
            Some(called) => text_of(rt.alloc(), &called)?,
            None => String::from_str(rt.alloc(), "none")?,
        };
        assert_same_in(&rt, line, text.as_str(), expected);
    }
    Ok(())
}

fn text_of(alloc: Global, called: &Called) -> Result<String, AllocError> {
    match called {
        Called::Help => String::from_str(alloc, "help"),
        Called::Version => String::from_str(alloc, "version"),
        Called::Command { own, rest } => {
            let control = if own.control { " control" } else { "" };
            let ace7 = if own.ace7 { " ace7" } else { "" };
            let mut text = format!(in alloc; "{}{control}{ace7}:", own.address)?;
            for word in rest {
                text.push(' ')?;
                text.push_str(word)?;
            }
            Ok(text)
        }
    }
}

fn words_of(alloc: Global, line: &str) -> Result<Vec<String>, AllocError> {
    let mut words = Vec::new(alloc);
    for word in line.split(' ') {
        words.push(String::from_str(alloc, word)?)?;
    }
    Ok(words)
}

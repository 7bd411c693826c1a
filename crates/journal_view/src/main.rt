//! `journal_view`: the text of a journal on standard input, as a picture on standard output.
#![tactic(auto)]

use ev_base::{StdSink, StdSource};
use help_words::{Asks, asked_of};
use journal_viewer::{Viewed, view};
use std::alloc::AllocError;
use std::process::ExitCode;
use std::{env, io};

/// How many bytes of text are read at most: 2^28.
const LIMIT: u64 = 268_435_456;

/// The status of words that are none of the program's.
const WRONG_WORDS: u8 = 1;

/// The status of a failed write.
const WRITE_FAILED: u8 = 4;

/// The status of want of memory.
const OUT_OF_MEMORY: u8 = 6;

/// Which program it is, with its version, the kit that it is proved with, and a line feed.
const VERSION: &str = "journal_view 0.1.0, rattle-kit-13f\n";

/// How the program is called, with a line feed after each line.
const USAGE: &str = "\
usage: journal_view < JOURNAL > PICTURE.svg
       journal_view --help | --version
";

/// What the program does, with a line feed after each line.
const HELP: &str = "\
journal_view: draws the journal of a reactor, whose text is on standard input, as a picture (SVG)
on standard output

status
  0 done                 4 a write failed         11 the input is too long
  1 wrong words          6 memory ran out
  2 a line is bad       10 the journal is not legal; the picture up to the bad entry is written
  3 a read failed
";

fn main(rt: HostRuntime) -> ExitCode {
    let words = match given_words(&rt) {
        Ok(words) => words,
        Err(status) => return refuse(&rt, status),
    };
    match asked_of(&words) {
        Some(Asks::Help) => tell(&rt, &[HELP, "\n", USAGE]),
        Some(Asks::Version) => tell(&rt, &[VERSION]),
        None if words.is_empty() => draw(&rt),
        None => refuse(&rt, WRONG_WORDS),
    }
}

/// Draws the journal of standard input.
fn draw(rt: &HostRuntime) -> ExitCode {
    let input = StdSource::new(rt.stdin());
    let output = StdSink::new(io::writer(rt));
    let Viewed { end, .. } = view(rt.alloc(), input, output, LIMIT);
    let _ = eprint!(rt; "{end}");
    ExitCode::from(end.status())
}

/// The words after the program's name, or the status with which to end.
fn given_words(rt: &HostRuntime) -> Result<Vec<String>, u8> {
    let args = env::args(rt).map_err(|error| match error.kind() {
        io::ErrorKind::OutOfMemory => OUT_OF_MEMORY,
        _ => WRONG_WORDS,
    })?;
    let words: Result<Vec<String>, AllocError> = args.skip(1).collect(rt.alloc());
    words.map_err(|_| OUT_OF_MEMORY)
}

/// Writes texts to standard output, and ends with 0, or with 4 if a write failed.
fn tell(rt: &HostRuntime, texts: &[&str]) -> ExitCode {
    for text in texts {
        if print!(rt; "{text}").is_err() {
            let _ = eprintln!(rt; "journal_view: write failed");
            return ExitCode::from(WRITE_FAILED);
        }
    }
    ExitCode::from(0)
}

/// Says why the program does not begin, and ends with this status.
fn refuse(rt: &HostRuntime, status: u8) -> ExitCode {
    let _ = match status {
        OUT_OF_MEMORY => eprintln!(rt; "journal_view: out of memory"),
        _ => eprint!(rt; "journal_view: usage\n{USAGE}"),
    };
    ExitCode::from(status)
}

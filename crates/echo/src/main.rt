//! `echo`: a server on 127.0.0.1 that sends each connection back what it sends.
#![tactic(auto)]

use demux_mio::MioHost;
use echo_server::{finish, open, run_pool};
use help_words::{Asks, asked_of};
use reactor::Host;
use std::alloc::{AllocError, Global};
use std::env;
use std::net::Net;
use std::process::ExitCode;
use std::sync::Wait;
use std::thread::Threads;
use std::time::Clock;

/// The milliseconds between the times at which a connection is closed that moved no byte meanwhile.
const IDLE: u64 = 60_000;

/// How many threads serve.
const WORKERS: usize = 4;

/// The status of words that are no port.
const WRONG_WORDS: u8 = 1;

/// The status of a server that did not start, or that ended.
const ENDED: u8 = 2;

/// Which program it is, with its version and the kit that it is proved with.
const VERSION: &str = "echo 0.1.0, rattle-kit-13f";

/// How the program is called, and what it does.
const HELP: &str = "\
echo: a server on 127.0.0.1 that sends each connection back what it sends

usage: echo PORT
       echo --help | --version";

fn main(rt: HostRuntime) -> ExitCode {
    let Some(words) = given_words(&rt) else {
        return fail(&rt, "echo: out of memory", ENDED);
    };
    match asked_of(&words) {
        Some(Asks::Help) => tell(&rt, HELP),
        Some(Asks::Version) => tell(&rt, VERSION),
        None => match port_of(&words) {
            Some(port) => fail(&rt, serve(rt, rt.alloc(), port), ENDED),
            None => fail(&rt, "echo: usage\nusage: echo PORT", WRONG_WORDS),
        },
    }
}

/// The words after the program's name.
fn given_words(rt: &HostRuntime) -> Option<Vec<String>> {
    let args = env::args(rt).ok()?;
    let words: Result<Vec<String>, AllocError> = args.skip(1).collect(rt.alloc());
    words.ok()
}

/// The port that the one word says.
fn port_of(words: &[String]) -> Option<u16> {
    match words {
        [word] => word.parse::<u16>().ok(),
        _ => None,
    }
}

/// Serves on this port until a wait fails or there is no memory. Tells why it ended.
fn serve<R: Net + Clock + Threads + Wait + Copy + Send + Sync + 'static>(
    rt: R,
    alloc: Global,
    port: u16,
) -> &'static str {
    let mut host = MioHost::with_closer(rt, alloc);
    let Ok((net, listener, waker)) = host.listen(alloc, port) else {
        return "echo: the port could not be opened";
    };
    let Ok(core) = open(alloc, net, listener, IDLE) else {
        return "echo: the server did not start";
    };
    let (_ran, core) = run_pool(&rt, alloc, core, waker, WORKERS);
    finish(core);
    "echo: the server ended"
}

/// Writes a text to standard output, and ends with 0, or with 2 if the write failed.
fn tell(rt: &HostRuntime, text: &str) -> ExitCode {
    match println!(rt; "{text}") {
        Ok(()) => ExitCode::from(0),
        Err(_) => fail(rt, "echo: write failed", ENDED),
    }
}

/// Says why on standard error, and ends with this status.
fn fail(rt: &HostRuntime, why: &str, status: u8) -> ExitCode {
    let _ = eprintln!(rt; "{why}");
    ExitCode::from(status)
}

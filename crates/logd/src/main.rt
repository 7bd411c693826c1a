//! `logd`, the networked logging server: the top call over standard input and output, and sockets.
#![tactic(auto)]

use ace7_input::{Ace7Host, Ace7Source};
use cmd_aio::{AioServed, aio_main};
use cmd_forward::{Forwarded, forward_main};
use cmd_line::Command;
use cmd_pool::{Pooled, pool_main, read_words};
use demux_mio::{MioDialer, MioHost};
use ev_base::{Host, NoMemory, Sink, Source, StdSink, StdSource};
use exit_status::Status;
use logging_server::{Served, fault_line, logd_main};
use program_words::{Called, HELP, Own, USAGE, VERSION, call_of};
use reactor_model::DropVolumes;
use std::alloc::{AllocError, Global};
use std::io::Stdin;
use std::net::{IpAddr, Net};
use std::process::ExitCode;
use std::sync::Wait;
use std::thread::Threads;
use std::time::Clock;
use std::{env, io};

/// How large the block is that is taken and let go at the start, in bytes.
const LARGE_BLOCK: usize = 4 << 20;

fn main(rt: HostRuntime) -> ExitCode {
    keep_freed_memory(&rt);
    let (own, words) = match command_words(&rt) {
        Ok(called) => called,
        Err(code) => return code,
    };
    let input = StdSource::new(rt.stdin());
    let output = StdSink::new(rt.stdout());
    let (status, at) = match words.first().map(String::as_str) {
        Some("forward") => forward(rt, rt.alloc(), own.address, &words, input, output),
        _ => {
            let control = if own.control { Some(rt.stdin()) } else { None };
            let host = host_for(rt, rt.alloc(), own.address, control, &words);
            if own.ace7 {
                let (host, input) = (Ace7Host::new(host), Ace7Source::new(input));
                run(&rt, rt.alloc(), &words, host, input, output)
            } else {
                run(&rt, rt.alloc(), &words, host, input, output)
            }
        }
    };
    end_with(&rt, status, at)
}

/// Sends the records of an input to the peer at an address, and tells the status and its number.
fn forward<R: Net + Clock + Wait + Copy, S: Source + Drop, K: Sink + Drop>(
    rt: R,
    alloc: Global,
    address: IpAddr,
    words: &[String],
    input: S,
    output: K,
) -> (u8, u64) {
    let mut dialer = MioDialer::new(rt);
    dialer.set_address(address);
    let Forwarded { status, at, .. } = forward_main(&rt, alloc, words, &mut dialer, input, output);
    (status, at)
}

/// Does what the words of a command say over this host, input and output, and tells the status and
/// its number.
fn run<
    R: Clock + Threads + Wait + Copy + Send + Sync + 'static,
    H: Host + Drop,
    S: Source + Drop,
    K: Sink + Send + Drop + 'static,
>(rt: &R, alloc: Global, words: &[String], mut host: H, input: S, output: K) -> (u8, u64)
where
    H::End: Drop + Send,
    H::Net: Drop + Send,
    H::Waker: Drop + Sync,
{
    match words.first().map(String::as_str) {
        Some("aio") => {
            let AioServed { status, .. } = aio_main(rt, alloc, words, &mut host, output);
            (status, 0)
        }
        Some("pool") => {
            let Pooled { status, .. } = pool_main(rt, alloc, words, &mut host, output);
            (status, 0)
        }
        _ => {
            let Served { status, at, .. } = logd_main(
                rt,
                alloc,
                words,
                &mut host,
                input,
                output,
                DropVolumes,
            );
            (status, at)
        }
    }
}

/// The program's own options, and the words that a command sees. If the words ask for something
/// else it is done, and the program ends with this code.
fn command_words(rt: &HostRuntime) -> Result<(Own, Vec<String>), ExitCode> {
    let words = match given_words(rt) {
        Ok(words) => words,
        Err(status) => return Err(end_as(rt, status)),
    };
    match call_of(rt.alloc(), words) {
        Ok(Some(Called::Command { own, rest })) => Ok((own, rest)),
        Ok(Some(Called::Help)) => Err(show(rt, HELP)),
        Ok(Some(Called::Version)) => Err(show(rt, VERSION)),
        Ok(None) => Err(end_as(rt, Status::Usage)),
        Err(NoMemory) => Err(end_as(rt, Status::NoMemory)),
    }
}

/// Writes what the program says of itself.
fn show(rt: &HostRuntime, text: &str) -> ExitCode {
    match print!(rt; "{text}") {
        Ok(()) => ExitCode::SUCCESS,
        Err(_) => end_as(rt, Status::WriteFault),
    }
}

/// Takes a large block and lets it go. From then on the C library's allocator keeps up to twice as
/// much freed memory for what is taken next. Else it gives back to the system what each volume of a
/// journal took, and asks for it anew.
fn keep_freed_memory(rt: &HostRuntime) {
    let _ = Vec::<u8>::with_capacity(rt.alloc(), LARGE_BLOCK);
}

/// The words after the program's name, or the status with which to end if there are none to be
/// had: a word that is not UTF-8 is a faulty command line.
fn given_words(rt: &HostRuntime) -> Result<Vec<String>, Status> {
    let args = env::args(rt).map_err(|error| match error.kind() {
        io::ErrorKind::OutOfMemory => Status::NoMemory,
        _ => Status::Usage,
    })?;
    let words: Result<Vec<String>, AllocError> = args.skip(1).collect(rt.alloc());
    words.map_err(|_| Status::NoMemory)
}

/// Whether the words want a server with several workers. The top calls read the words again: the
/// host has to be made before them, and their contracts speak of the words themselves.
fn has_several_workers(alloc: Global, words: &[String]) -> bool {
    match Command::of(alloc, words) {
        Ok(Some(Command::Serve { options, .. })) => options.workers > 1,
        _ => match read_words(alloc, words) {
            Ok(Some(options)) => options.workers > 1,
            _ => false,
        },
    }
}

/// The host, which listens to an address and which the end of standard input ends if it is its
/// control: for several workers one that closes connections by a thread of its own.
fn host_for<R: Net + Clock + Threads + Wait + Copy + Send + 'static>(
    rt: R,
    alloc: Global,
    address: IpAddr,
    control: Option<Stdin>,
    words: &[String],
) -> MioHost<R> {
    let mut host = if has_several_workers(alloc, words) {
        MioHost::with_closer(rt, alloc)
    } else {
        MioHost::new(rt)
    };
    host.set_address(address);
    if let Some(input) = control {
        host.set_control(input);
    }
    host
}

/// Says on standard error what a status means, unless all is done, and ends with its code.
fn end_as(rt: &HostRuntime, status: Status) -> ExitCode {
    end_with(rt, status.code(), status.number())
}

/// Says on standard error what a code and its number mean, unless the code is 0, and ends with it.
/// With wrong words it says how the program is called, too.
fn end_with(rt: &HostRuntime, code: u8, number: u64) -> ExitCode {
    let _ = eprint!(rt; "{}", fault_line(code, number));
    if code == Status::Usage.code() {
        let _ = eprint!(rt; "{USAGE}");
    }
    ExitCode::from(code)
}

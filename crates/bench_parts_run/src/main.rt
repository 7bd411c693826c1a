//! Times the parts of the framework. Without an argument each part runs once, small, and prints
//! what it did; with the argument `time` it runs large and prints nanoseconds for each timer,
//! entry, message and so on. The names of parts (`timers`, `check`, `messages`, `sharing`,
//! `script`) pick those that run; with none all do, but if it is timed not `script`, which reads
//! its script from standard input.
#![tactic(auto)]

use bench_parts::{Picked, run_plain, run_script, run_threads};
use std::{env, io};

const NONE: Picked = Picked {
    timers: false,
    check: false,
    messages: false,
    sharing: false,
    script: false,
};

const ALL: Picked = Picked {
    timers: true,
    check: true,
    messages: true,
    sharing: true,
    script: true,
};

fn main(rt: HostRuntime) -> io::Result<()> {
    let (mut timed, mut picked) = (false, NONE);
    for word in env::args(&rt)? {
        match word.as_str() {
            "time" => timed = true,
            "timers" => picked.timers = true,
            "check" => picked.check = true,
            "messages" => picked.messages = true,
            "sharing" => picked.sharing = true,
            "script" => picked.script = true,
            _ => {}
        }
    }
    if picked == NONE {
        picked = ALL;
        picked.script = !timed;
    }
    run_plain(&rt, timed, picked)?;
    run_threads(&rt, rt.alloc(), timed, picked)?;
    run_script(&rt, timed, picked)
}

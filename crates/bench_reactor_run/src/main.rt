//! Times the reactor. Without an argument the one-thread reactor serves few events and prints how
//! many entries there were, and then the journal of a short run that makes every call; after that
//! pools serve few and print how each run ended. With `calls` that journal alone is printed. With
//! `time` the one-thread reactor serves about 1,000,000 events and prints nanoseconds for each;
//! with `long` about 1,000,000 of each kind with 4,000 handles, and with `longer` about 10,000,000,
//! and prints how many entries there were. With `pool` pools alone run, and with `pool time` they
//! are timed.
#![tactic(auto)]

use bench_reactor::{Asked, report_pools, report_runs};
use std::{env, io};

fn main(rt: HostRuntime) -> io::Result<()> {
    let (mut pool, mut asked) = (false, Asked::Few);
    for word in env::args(&rt)? {
        match word.as_str() {
            "pool" => pool = true,
            "calls" => asked = Asked::Calls,
            "time" => asked = Asked::Timed,
            "long" => asked = Asked::Long,
            "longer" => asked = Asked::Longer,
            _ => {}
        }
    }
    if !pool {
        report_runs(&rt, asked)?;
    }
    if pool || asked == Asked::Few {
        report_pools(&rt, rt.alloc(), asked == Asked::Timed)?;
    }
    Ok(())
}

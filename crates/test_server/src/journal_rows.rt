//! The journals of scripts, entry by entry.
use crate::played_rows::run;
use crate::running::see;
use std::alloc::Global;
use std::process::Abort;
use std::sync::Wait;
use std::test::Fail;
use std::thread::Threads;
use std::time::Clock;

/// Words, a script, and the text of the journal of its run. The first script has one connection
/// with one record; in the second a connection is refused; the third is stopped by a notice after
/// the first closing; in the fourth a connection is closed as idle before its input is read.
static JOURNALS: &[(&str, &str, &str)] = &[
    (
        "replay --journal",
        "open 0\ndata 0 000000000000001600000004000000070000000100000002000000026869\nshut 0\n",
        "most 1001\nopened 0 r--\npolled 0\nready 0 read\nstarted 2\n\
          returned 2 again accepted 0\nopened 1 r--\nstarted 4\nreturned 4 keep none\npolled 0\n\
          ready 1 read\nready 1 read\nstarted 9\nreturned 9 again piece 0 30 1 4:7:1:2:6869\n\
          started 10\nreturned 10 keep piece 0 0 0\nstarted 12\nreturned 12 close piece 0 0 0\n\
          closed 1 end 0 end\npolled 0\nended\nremoved 0\nclosed 0 shut\n",
    ),
    (
        "replay --journal --most 1",
        "open 0\nopen 1\nshut 0\n",
        "most 2\nopened 0 r--\npolled 0\nready 0 read\nready 0 read\nstarted 2\n\
          returned 2 again accepted 0\nopened 1 r--\nstarted 3\nreturned 3 keep none\nstarted 5\n\
          returned 5 again accepted 1\nrefused 2 no end 1 refused\nstarted 10\n\
          returned 10 keep none\npolled 0\nready 1 read\nstarted 15\n\
          returned 15 close piece 0 0 0\nclosed 1 end 0 end\npolled 0\nended\nremoved 0\n\
          closed 0 shut\n",
    ),
    (
        "replay --journal --until 1",
        "open 0\nshut 0\nat 5\nopen 1\n",
        "most 1001\nopened 0 r--\npolled 0\nready 0 read\nstarted 2\n\
          returned 2 again accepted 0\nopened 1 r--\nstarted 4\nreturned 4 keep none\npolled 0\n\
          ready 1 read\nstarted 9\nreturned 9 close piece 0 0 0\nclosed 1 end 0 end\n\
          posted 0 except 0 0\nstarted 13\nreturned 13 keep none\nended\nremoved 0\n\
          closed 0 shut\n",
    ),
    (
        "replay --journal --idle 100",
        "open 0\nat 100\ndata 0 000000000000001600000004000000070000000100000002000000026869\n",
        "most 1001\nopened 0 r--\npolled 0\nready 0 read\nstarted 2\n\
          returned 2 again accepted 0\nopened 1 r--\nscheduled 0 1 100 100\nstarted 4\n\
          returned 4 keep none\npolled 100\ndue 0\nready 1 read\nstarted 10\n\
          returned 10 close piece 0 0 0\nclosed 1 end 0 idle\npolled 100\nended\nremoved 0\n\
          closed 0 shut\n",
    ),
];

/// Sees the journal of a script by a queue of timers.
fn see_journal<R: Abort + Clock + Threads + Wait + Copy + Send + Sync + 'static>(
    rt: &R,
    alloc: Global,
    (words, script, journal): (&str, &str, &str),
    timers: &str,
) -> Result<(), Fail> {
    let line = format!(in alloc; "{words} --timers {timers}")?;
    let ran = run(rt, alloc, &line, script)?;
    see(rt, &line, &ran, (0, 0), journal.as_bytes());
    Ok(())
}

#[test]
fn any_queue_of_timers_gives_the_journal(rt: HostRuntime) -> Result<(), Fail> {
    let alloc = rt.alloc();
    for row in JOURNALS {
        see_journal(&rt, alloc, *row, "list")?;
        see_journal(&rt, alloc, *row, "heap")?;
        see_journal(&rt, alloc, *row, "wheel")?;
    }
    Ok(())
}

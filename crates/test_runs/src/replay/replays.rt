//! Words and scripts, with how each replay ends and what it writes.
use crate::asserts::assert_same_in;
use crate::replay::running::replay_line;
use cmd_replay::ReplayEnd;
use std::test::Fail;

/// Words that are parted by one space, a script, how its replay ends, and what it writes.
type Row = (&'static str, &'static str, ReplayEnd, &'static str);

/// A record that comes in two pieces is read whole, by any queue of timers and by two workers. Of
/// two connections the lines come in order, or the first one's first; of one, the journal is
/// written. A notice ends the run. A failed accept ends nothing, a connection may fail or be left
/// open; and a text that is none of a script's is served nobody.
static ROWS: [Row; 15] = [
    ("replay --workers=2", "", ReplayEnd::Done, ""),
    (
        "replay",
        "open 0\ndata 0 000000000000001600000004\ndata 0 000000070000000100000002000000026869\n\
          shut 0\n",
        ReplayEnd::Done,
        "0 1,2 7 LM_DEBUG: hi\n0 closed: end\n",
    ),
    (
        "replay --timers heap --workers 2",
        "open 0\ndata 0 000000000000001600000004\ndata 0 000000070000000100000002000000026869\n\
          shut 0\n",
        ReplayEnd::Done,
        "0 1,2 7 LM_DEBUG: hi\n0 closed: end\n",
    ),
    (
        "replay --idle 100 --timers wheel",
        "open 0\nat 60\ndata 0 000000000000001600000004000000070000000100000002000000026869\n\
          at 350\nquiet\n",
        ReplayEnd::Done,
        "0 1,2 7 LM_DEBUG: hi\n0 closed: idle\n",
    ),
    (
        "replay",
        "open 0\nopen 1\nshut 1\nat 5\nshut 0\n",
        ReplayEnd::Done,
        "1 closed: end\n0 closed: end\n",
    ),
    (
        "replay --grouped",
        "open 0\nopen 1\nshut 1\nat 5\nshut 0\n",
        ReplayEnd::Done,
        "0 closed: end\n1 closed: end\n",
    ),
    (
        "replay --most 1",
        "open 0\nopen 1\nshut 0",
        ReplayEnd::Done,
        "1 closed: refused\n0 closed: end\n",
    ),
    (
        "replay --until 1",
        "open 0\nshut 0\nat 5\nopen 1",
        ReplayEnd::Done,
        "0 closed: end\n",
    ),
    (
        "replay --journal",
        "open 0\ndata 0 000000000000001600000004000000070000000100000002000000026869\nshut 0\n",
        ReplayEnd::Done,
        "most 1001\nopened 0 r--\npolled 0\nready 0 read\nstarted 2\n\
          returned 2 again accepted 0\nopened 1 r--\nstarted 4\nreturned 4 keep none\npolled 0\n\
          ready 1 read\nready 1 read\nstarted 9\nreturned 9 again piece 0 30 1 4:7:1:2:6869\n\
          started 10\nreturned 10 keep piece 0 0 0\nstarted 12\nreturned 12 close piece 0 0 0\n\
          closed 1 end 0 end\npolled 0\nended\nremoved 0\nclosed 0 shut\n",
    ),
    (
        "replay",
        "open 0\nfail listener\n\
          data 0 000000000000001600000004000000070000000100000002000000026869\nfail 0\n",
        ReplayEnd::Done,
        "0 1,2 7 LM_DEBUG: hi\n0 closed: failed\n",
    ),
    (
        "replay --workers 4",
        "open 0\n",
        ReplayEnd::Done,
        "0 closed: stopped\n",
    ),
    (
        "replay",
        "open 0\ndata 0 000000000000001600000004000000070000000100000002000000026869\nshut 0\n",
        ReplayEnd::Done,
        "0 1,2 7 LM_DEBUG: hi\n0 closed: end\n",
    ),
    ("replay", "open 1\n", ReplayEnd::BadText { line: 1 }, ""),
    (
        "replay",
        "open 0\ndata 0 0\n",
        ReplayEnd::BadText { line: 2 },
        "",
    ),
    (
        "replay --journal",
        "open 0\nshut 0\ndata 0 00\n",
        ReplayEnd::BadText { line: 3 },
        "",
    ),
];

#[test]
fn scripts_are_replayed(rt: HostRuntime) -> Result<(), Fail> {
    let alloc = rt.alloc();
    for &(line, script, end, output) in &ROWS {
        let script = Vec::from_slice(alloc, script.as_bytes())?;
        let played = replay_line(&rt, alloc, line, script, 4_096)?;
        assert_same_in(&rt, line, played.output.bytes(), output.as_bytes());
        assert_same_in(&rt, line, played.end, end);
    }
    Ok(())
}

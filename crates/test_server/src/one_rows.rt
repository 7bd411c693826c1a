//! What `one` writes, by its input, with the status and the journal.
use crate::asserts::assert_same;
use crate::running::{
    LINES, Left, RECORD, Ran, long_record, room, run_line, run_short, run_words, see, source,
    volumes,
};
use ev_base::{MemSink, MemSource};
use journal_text::JournalSink;
use log_handler::ServerNote;
use reactor_model::{Entry, MemVolumes, Watch, check};
use script_net::ScriptHost;
use std::alloc::Global;
use std::process::Abort;
use std::sync::Wait;
use std::test::Fail;
use std::thread::Threads;
use std::time::Clock;

/// What is written for an input that does not begin with a record.
const MALFORMED: &[u8] = b"0 closed: malformed 0\n";

/// Runs `one` on some pieces, of which the reads of these numbers fail, with a sink that fails
/// after so many bytes.
fn run<R: Clock + Threads + Wait + Copy + Send + Sync + 'static>(
    rt: &R,
    alloc: Global,
    pieces: &[&[u8]],
    fails: &[u64],
    fail_after: Option<u64>,
) -> Result<Ran, Fail> {
    run_short(rt, alloc, "one", source(alloc, pieces, fails)?, fail_after)
}

/// Runs `one` on a source.
fn run_source<R: Clock + Threads + Wait + Copy + Send + Sync + 'static>(
    rt: &R,
    alloc: Global,
    input: MemSource,
) -> Result<Ran, Fail> {
    run_short(rt, alloc, "one", input, None)
}

/// Sees that pieces are served to their end, and what is written for them.
fn see_lines<R: Abort + Clock + Threads + Wait + Copy + Send + Sync + 'static>(
    rt: &R,
    alloc: Global,
    row: &str,
    pieces: &[&[u8]],
    lines: &[u8],
) -> Result<(), Fail> {
    let ran = run(rt, alloc, pieces, &[], None)?;
    see(rt, row, &ran, (0, 0), lines);
    Ok(())
}

/// Inputs in pieces, and what is written for them.
static INPUTS: &[(&[&[u8]], &[u8])] = &[
    (&[RECORD], LINES),
    (&[], b"0 closed: end\n"),
    // little-endian, and padding that is not zero
    (
        &[b"\x01\xaa\xbb\xcc\x16\0\0\0\x04\0\0\0\x07\0\0\0\x01\0\0\0\x02\0\0\0\x02\0\0\0hi"],
        LINES,
    ),
    // a closing NUL, and eight bytes of slack
    (
        &[b"\0\0\0\0\0\0\0\x17\0\0\0\x04\0\0\0\x07\0\0\0\x01\0\0\0\x02\0\0\0\x03hi\0"],
        LINES,
    ),
    (
        &[
            b"\0\0\0\0\0\0\0\x1e\0\0\0\x04\0\0\0\x07\0\0\0\x01\0\0\0\x02\0\0\0\x02hi\
              \xff\xff\xff\xff\xff\xff\xff\xff",
        ],
        LINES,
    ),
    // a header of version 2 whose length is too small
    (
        &[RECORD, b"\x02\0\0\0\0\0\0\x16", RECORD],
        b"0 1,2 7 LM_DEBUG: hi\n0 closed: malformed 30\n",
    ),
    // escapes, and a type that is no priority
    (
        &[b"\0\0\0\0\0\0\0\x17\0\0\0\x03\xff\xff\xff\xff\0\0\0\x01\0\0\0\x02\0\0\0\x03\x09\\\xe9"],
        b"0 1,2 -1 3: \\x09\\\\\\xe9\n0 closed: end\n",
    ),
    // version 2, both orders, and an unknown version
    (
        &[b"\x02\0\0\0\0\0\0\x1a\0\0\0\x04\0\0\0\x07\0\0\0\x01\0\0\0\x01\0\0\0\x02\0\0\0\x02hi"],
        b"0 4294967297,2 7 LM_DEBUG: hi\n0 closed: end\n",
    ),
    (
        &[b"\x03\0\0\0\x1a\0\0\0\x04\0\0\0\x07\0\0\0\x01\0\0\0\x01\0\0\0\x02\0\0\0\x02\0\0\0hi"],
        b"0 4294967297,2 7 LM_DEBUG: hi\n0 closed: end\n",
    ),
    (&[b"\x04"], b"0 closed: malformed 0\n"),
    // lengths out of their range, and a message longer than its payload
    (&[b"\0\0\0\0\0\x01\0\x15"], b"0 closed: malformed 0\n"),
    (&[b"\0\0\0\0\0\0\0\x13"], b"0 closed: malformed 0\n"),
    (
        &[b"\0\0\0\0\0\0\0\x16\0\0\0\x04\0\0\0\x07\0\0\0\x01\0\0\0\x02\0\0\0\x03hi"],
        b"0 closed: malformed 0\n",
    ),
    (
        &[RECORD, RECORD, b"\0\0\0\0\0\0\0"],
        b"0 1,2 7 LM_DEBUG: hi\n0 1,2 7 LM_DEBUG: hi\n0 closed: partial 7\n",
    ),
];

/// Sees the lines of the inputs' row of this number.
fn see_input<R: Abort + Clock + Threads + Wait + Copy + Send + Sync + 'static>(
    rt: &R,
    alloc: Global,
    number: usize,
    (pieces, lines): (&[&[u8]], &[u8]),
) -> Result<(), Fail> {
    let row = format!(in alloc; "input {number}")?;
    see_lines(rt, alloc, &row, pieces, lines)
}

#[test]
fn inputs_give_their_lines(rt: HostRuntime) -> Result<(), Fail> {
    let alloc = rt.alloc();
    for (number, row) in INPUTS.iter().enumerate() {
        see_input(&rt, alloc, number, *row)?;
    }
    Ok(())
}

/// The bytes of a record, each a piece.
fn bytewise(alloc: Global) -> Result<MemSource, Fail> {
    let mut bytes = Vec::new(alloc);
    for byte in RECORD {
        bytes.push(Vec::from_slice(alloc, &[*byte])?)?;
    }
    Ok(MemSource::new(bytes, Vec::new(alloc)))
}

/// Sees the lines of a record that is cut into two pieces, and those of the first alone.
fn see_cut<R: Abort + Clock + Threads + Wait + Copy + Send + Sync + 'static>(
    rt: &R,
    alloc: Global,
    front: &[u8],
    back: &[u8],
) -> Result<(), Fail> {
    let cut = front.len();
    let row = format!(in alloc; "cut after {cut}")?;
    see_lines(rt, alloc, &row, &[front, back], LINES)?;
    let partial = format!(in alloc; "0 closed: partial {cut}\n")?;
    see_lines(rt, alloc, &row, &[front], partial.as_bytes())
}

#[test]
fn cutting_does_not_matter(rt: HostRuntime) -> Result<(), Fail> {
    let alloc = rt.alloc();
    let ran = run_source(&rt, alloc, bytewise(alloc)?)?;
    see(&rt, "byte by byte", &ran, (0, 0), LINES);
    for cut in 1..30 {
        if cut < RECORD.len() {
            see_cut(&rt, alloc, &RECORD[..cut], &RECORD[cut..])?;
        }
    }
    Ok(())
}

/// Places of a record's bytes, and what is written if the byte is 255.
static CHANGED: &[(usize, &[u8])] = &[
    (0, MALFORMED),
    (1, LINES),
    (2, LINES),
    (3, LINES),
    (4, MALFORMED),
    (5, MALFORMED),
    (6, b"0 closed: partial 30\n"),
    (7, b"0 closed: partial 30\n"),
    (11, b"0 1,2 7 255: hi\n0 closed: end\n"),
    (24, MALFORMED),
    (25, MALFORMED),
    (26, MALFORMED),
    (27, MALFORMED),
    (29, b"0 1,2 7 LM_DEBUG: h\\xff\n0 closed: end\n"),
];

/// Sees the lines of a record one byte of which is 255.
fn see_changed<R: Abort + Clock + Threads + Wait + Copy + Send + Sync + 'static>(
    rt: &R,
    alloc: Global,
    at: usize,
    lines: &[u8],
) -> Result<(), Fail> {
    let row = format!(in alloc; "byte {at}")?;
    let mut changed = Vec::from_slice(alloc, RECORD)?;
    if at < changed.len() {
        changed[at] = 0xff;
    }
    see_lines(rt, alloc, &row, &[changed.as_slice()], lines)
}

#[test]
fn changed_bytes_are_told(rt: HostRuntime) -> Result<(), Fail> {
    let alloc = rt.alloc();
    for (at, lines) in CHANGED {
        see_changed(&rt, alloc, *at, lines)?;
    }
    Ok(())
}

/// Sees what is written when a read fails.
fn see_failed_read<R: Abort + Clock + Threads + Wait + Copy + Send + Sync + 'static>(
    rt: &R,
    alloc: Global,
    pieces: &[&[u8]],
    number: u64,
    lines: &[u8],
) -> Result<(), Fail> {
    let ran = run(rt, alloc, pieces, &[number], None)?;
    see(rt, "a failed read", &ran, (3, 0), lines);
    Ok(())
}

/// Sees what is written when the sink fails after so many bytes.
fn see_failed_write<R: Abort + Clock + Threads + Wait + Copy + Send + Sync + 'static>(
    rt: &R,
    alloc: Global,
    taken: usize,
) -> Result<(), Fail> {
    let ran = run(rt, alloc, &[RECORD], &[], Some(taken as u64))?;
    let lines = LINES.get(..taken).ok_or("behind the lines")?;
    let status = if taken < 35 { 4 } else { 0 };
    see(rt, "a failed write", &ran, (status, 0), lines);
    Ok(())
}

#[test]
fn faults_have_their_status(rt: HostRuntime) -> Result<(), Fail> {
    let alloc = rt.alloc();
    see_failed_read(&rt, alloc, &[RECORD], 0, b"0 closed: failed\n")?;
    let lines = b"0 1,2 7 LM_DEBUG: hi\n0 closed: failed\n";
    see_failed_read(&rt, alloc, &[RECORD, RECORD], 1, lines)?;
    for taken in 0..36 {
        see_failed_write(&rt, alloc, taken)?;
    }
    Ok(())
}

/// The lines of a record with a message of 65,536 bytes.
fn longest_lines(alloc: Global) -> Result<Vec<u8>, Fail> {
    let mut lines = Vec::from_slice(alloc, b"0 1,2 7 LM_DEBUG: ")?;
    for _ in 0..65_536 {
        lines.push(b'a')?;
    }
    lines.extend_from_slice(b"\n0 closed: end\n")?;
    Ok(lines)
}

/// Sees what is written for a header and a message of 65,536 bytes.
fn see_long<R: Abort + Clock + Threads + Wait + Copy + Send + Sync + 'static>(
    rt: &R,
    alloc: Global,
    header: &[u8],
    lines: &[u8],
) -> Result<(), Fail> {
    let ran = run_source(rt, alloc, long_record(alloc, header)?)?;
    see(rt, "a long record", &ran, (0, 0), lines);
    Ok(())
}

#[test]
fn the_longest_message_fits(rt: HostRuntime) -> Result<(), Fail> {
    let alloc = rt.alloc();
    let header = b"\0\0\0\0\0\x01\0\x14\0\0\0\x04\0\0\0\x07\0\0\0\x01\0\0\0\x02\0\x01\0\0";
    let longer = b"\0\0\0\0\0\x01\0\x14\0\0\0\x04\0\0\0\x07\0\0\0\x01\0\0\0\x02\0\x01\0\x01";
    see_long(&rt, alloc, longer, MALFORMED)?;
    let lines = longest_lines(alloc)?;
    see_long(&rt, alloc, header, &lines)
}

/// The journal of a run on one record, which is the only handler.
const ENTRIES: &str = "most 1\nopened 0 r--\npolled 0\nready 0 read\nstarted 2\n\
      returned 2 again piece 0 30 1 4:7:1:2:6869\nstarted 4\nreturned 4 close piece 0 0 0\n\
      closed 0 end 0 end\npolled 0\nended\n";

/// Whether the text of a journal is this.
fn is_told(journal: &[Entry<ServerNote>], output: MemSink, text: &str) -> bool {
    let mut watch = JournalSink::new(1, output);
    for entry in journal {
        watch.saw(entry);
    }
    watch.into_output().bytes() == text.as_bytes()
}

/// Sees that a journal is legal, and that its entries are these.
fn see_entries(rt: &impl Abort, alloc: Global, journal: &[Entry<ServerNote>]) -> Result<(), Fail> {
    let output = room(alloc, None)?;
    assert!(*rt; check(alloc, journal, 1).is_ok());
    assert!(*rt; is_told(journal, output, ENTRIES));
    Ok(())
}

/// Runs `one` on one record, and gives all that is left.
fn run_record<R: Clock + Threads + Wait + Copy + Send + Sync + 'static>(
    rt: &R,
    alloc: Global,
) -> Result<Left<MemSink, MemSource>, Fail> {
    let input = source(alloc, &[RECORD], &[])?;
    let output = room(alloc, None)?;
    run_line(rt, alloc, "one", input, output, volumes(alloc, &[])?)
}

#[test]
fn one_record_has_its_journal(rt: HostRuntime) -> Result<(), Fail> {
    let alloc = rt.alloc();
    let left = run_record(&rt, alloc)?;
    let (first, taken) = (left.first, left.volumes.entries().len());
    let seen = see_entries(&rt, alloc, left.journal.as_slice());
    drop(left);
    assert_same(&rt, (first, taken), (0, 0));
    seen
}

/// Words that are no command.
static OTHER_WORDS: &[&[&str]] = &[
    &[],
    &["one", "x"],
    &["two"],
    &["One"],
    &["--", "one"],
    &["serve"],
    &["display", "display"],
    &["Audit"],
    &["gen", "0", "1"],
];

/// Owned words.
fn owned(alloc: Global, words: &[&str]) -> Result<Vec<String>, Fail> {
    let mut owned = Vec::new(alloc);
    for word in words {
        owned.push(String::from_str(alloc, word)?)?;
    }
    Ok(owned)
}

/// Runs words on no input, and gives the status, and how many entries the journal and how many
/// bytes the output have.
fn run_idle<R: Clock + Threads + Wait + Copy + Send + Sync + 'static>(
    rt: &R,
    alloc: Global,
    words: &[String],
    output: MemSink,
    volumes: MemVolumes<ServerNote>,
) -> (u8, usize, usize) {
    let input = MemSource::new(Vec::new(alloc), Vec::new(alloc));
    let mut host = ScriptHost::new(None, true);
    let ran = run_words(rt, alloc, words, &mut host, input, output, volumes).ran();
    (ran.status, ran.entries, ran.output.bytes().len())
}

/// Sees that words are refused, and that nothing is done.
fn see_refused<R: Abort + Clock + Threads + Wait + Copy + Send + Sync + 'static>(
    rt: &R,
    alloc: Global,
    words: &[&str],
) -> Result<(), Fail> {
    let words = owned(alloc, words)?;
    let output = room(alloc, None)?;
    let left = run_idle(rt, alloc, &words, output, volumes(alloc, &[])?);
    drop(words);
    assert_same(rt, left, (1, 0, 0));
    Ok(())
}

#[test]
fn other_words_are_refused(rt: HostRuntime) -> Result<(), Fail> {
    let alloc = rt.alloc();
    for words in OTHER_WORDS {
        see_refused(&rt, alloc, words)?;
    }
    Ok(())
}

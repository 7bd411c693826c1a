//! Texts of journals that are read, and texts that are none with their first bad line.
use crate::asserts::assert_in;
use ev_base::MemSink;
use journal_reader::{JournalRefused, read_journal};
use journal_text::write_journal;
use log_handler::ServerNote;
use reactor_model::Journal;
use std::alloc::Global;
use std::test::Fail;

/// The worked journals: of one connection; of an acceptor and one connection; of a connection that
/// is refused; of a run that ends by a notice; of a connection that is idle. Each with the number
/// of its first line.
static JOURNALS: &[(u64, &str)] = &[
    (
        1,
        "most 1\nopened 0 r--\npolled 0\nready 0 read\nstarted 2\n\
          returned 2 again piece 0 30 1 4:7:1:2:6869\nstarted 4\nreturned 4 close piece 0 0 0\n\
          closed 0 end 0 end\npolled 0\nended\n",
    ),
    (
        1001,
        "most 1001\nopened 0 r--\npolled 0\nready 0 read\nstarted 2\n\
          returned 2 again accepted 0\nopened 1 r--\nstarted 4\nreturned 4 keep none\npolled 0\n\
          ready 1 read\nready 1 read\nstarted 9\nreturned 9 again piece 0 30 1 4:7:1:2:6869\n\
          started 10\nreturned 10 keep piece 0 0 0\nstarted 12\nreturned 12 close piece 0 0 0\n\
          closed 1 end 0 end\npolled 0\nended\nremoved 0\nclosed 0 shut\n",
    ),
    (
        2,
        "most 2\nopened 0 r--\npolled 0\nready 0 read\nready 0 read\nstarted 2\n\
          returned 2 again accepted 0\nopened 1 r--\nstarted 3\nreturned 3 keep none\nstarted 5\n\
          returned 5 again accepted 1\nrefused 2 no end 1 refused\nstarted 10\n\
          returned 10 keep none\npolled 0\nready 1 read\nstarted 15\n\
          returned 15 close piece 0 0 0\nclosed 1 end 0 end\npolled 0\nended\nremoved 0\n\
          closed 0 shut\n",
    ),
    (
        1001,
        "most 1001\nopened 0 r--\npolled 0\nready 0 read\nstarted 2\n\
          returned 2 again accepted 0\nopened 1 r--\nstarted 4\nreturned 4 keep none\npolled 0\n\
          ready 1 read\nstarted 9\nreturned 9 close piece 0 0 0\nclosed 1 end 0 end\n\
          posted 0 except 0 0\nstarted 13\nreturned 13 keep none\nended\nremoved 0\n\
          closed 0 shut\n",
    ),
    (
        1001,
        "most 1001\nopened 0 r--\npolled 0\nready 0 read\nstarted 2\n\
          returned 2 again accepted 0\nopened 1 r--\nscheduled 0 1 100 100\nstarted 4\n\
          returned 4 keep none\npolled 100\ndue 0\nready 1 read\nstarted 10\n\
          returned 10 close piece 0 0 0\nclosed 1 end 0 idle\npolled 100\nended\nremoved 0\n\
          closed 0 shut\n",
    ),
];

/// Texts of first lines and of the ends of lines, each with the number of its first bad line, or 0
/// if it is a journal's.
static FIRST_LINES: &[(&str, u64)] = &[
    ("", 1),
    ("\n", 1),
    ("most 1", 1),
    ("most 1\n", 0),
    ("most 4097\n", 0),
    ("most 4098\n", 1),
    ("most 0\n", 1),
    ("most 01\n", 1),
    ("most 1 \n", 1),
    ("most  1\n", 1),
    (" most 1\n", 1),
    ("Most 1\n", 1),
    ("most x\n", 1),
    ("most\n", 1),
    ("most 1 1\n", 1),
    ("ended\n", 1),
    ("most 1\nmost 1\n", 2),
    ("most 1\n\n", 2),
    ("most 1\nended", 2),
    ("most 1\nended\n", 0),
    ("most 1\nended \n", 2),
    ("most 1\nended 0\n", 2),
    ("most 1\nended\r\n", 2),
    ("most 1\nended\n\n", 3),
    ("most 1\npolled 0\nx\nended\n", 3),
    ("most 1\nx\ny\n", 2),
];

/// The same of entries without pieces.
static ENTRIES: &[(&str, u64)] = &[
    ("most 1\npolled 18446744073709551615\n", 0),
    ("most 1\npolled 18446744073709551616\n", 2),
    ("most 1\npolled 99999999999999999999\n", 2),
    ("most 1\npolled 00\n", 2),
    ("most 1\npolled 01\n", 2),
    ("most 1\npolled +1\n", 2),
    ("most 1\npolled -1\n", 2),
    ("most 1\npolled\n", 2),
    ("most 1\npolled \n", 2),
    ("most 1\npolled  1\n", 2),
    ("most 1\npolled 1 2\n", 2),
    ("most 1\npolled\t1\n", 2),
    ("most 1\npoll 1\n", 2),
    ("most 1\nopened 0 rwe\n", 0),
    ("most 1\nopened 0 ---\n", 0),
    ("most 1\nopened 0 wr-\n", 2),
    ("most 1\nopened 0 rw\n", 2),
    ("most 1\nopened 0 rwe-\n", 2),
    ("most 1\nopened 0 R--\n", 2),
    ("most 1\nmasked 0 r-e\n", 0),
    ("most 1\nready 0 write\n", 0),
    ("most 1\nready 0 Read\n", 2),
    ("most 1\nready 0 input\n", 2),
    ("most 1\nposted 0 except 0 0\n", 0),
    ("most 1\nposted 0 except 0\n", 2),
    ("most 1\nstale 7 0 0\n", 0),
    ("most 1\nstale 7 0\n", 2),
    ("most 1\nscheduled 0 1 100 0\n", 0),
    ("most 1\nscheduled 0 1 100\n", 2),
    ("most 1\ncancelled 3\n", 0),
    ("most 1\nsuspended 3\n", 0),
    ("most 1\nresumed 3\n", 0),
    ("most 1\nremoved 3\n", 0),
    ("most 1\ndue 3\n", 0),
    ("most 1\nstarted 3\n", 0),
    ("most 1\nreturned 0 keep none\n", 0),
    ("most 1\nreturned 0 keep\n", 2),
    ("most 1\nreturned 0 keep none none\n", 2),
    ("most 1\nreturned 0 stay none\n", 2),
    ("most 1\nreturned 0 keep listenerfailed\n", 0),
    ("most 1\nreturned 0 keep shut\n", 0),
    ("most 1\nreturned 0 keep accepted 5\n", 0),
    ("most 1\nreturned 0 keep accepted\n", 2),
    ("most 1\nrefused 1 yes shut\n", 0),
    ("most 1\nrefused 1 true shut\n", 2),
    ("most 1\nclosed 0 end 0 end\n", 0),
    ("most 1\nclosed 0 end 0 failed\n", 0),
    ("most 1\nclosed 0 end 0 nomemory\n", 0),
    ("most 1\nclosed 0 end 0 no memory\n", 2),
    ("most 1\nclosed 0 end 0 idle\n", 0),
    ("most 1\nclosed 0 end 0 stopped\n", 0),
    ("most 1\nclosed 0 end 0 refused\n", 0),
    ("most 1\nclosed 0 end 0 partial:1\n", 0),
    ("most 1\nclosed 0 end 0 malformed:18446744073709551615\n", 0),
    ("most 1\nclosed 0 end 0 malformed:18446744073709551616\n", 2),
    ("most 1\nclosed 0 end 0 partial:01\n", 2),
    ("most 1\nclosed 0 end 0 partial:\n", 2),
    ("most 1\nclosed 0 end 0 partial\n", 2),
    ("most 1\nclosed 0 end 0 partial:1:\n", 2),
    ("most 1\nclosed 0 end 0\n", 2),
];

/// The same of pieces.
static PIECES: &[(&str, u64)] = &[
    ("most 1\nreturned 0 keep piece 0 30 1 4:7:1:2:6869\n", 0),
    ("most 1\nreturned 0 keep piece 0 30 1 4:7:1:2:\n", 0),
    ("most 1\nreturned 0 keep piece 0 30 0\n", 0),
    ("most 1\nreturned 0 keep piece 0 30 0 4:7:1:2:\n", 2),
    ("most 1\nreturned 0 keep piece 0 30 2 4:7:1:2:\n", 2),
    (
        "most 1\nreturned 0 keep piece 0 30 2 4:7:1:2: -4:-7:-1:-2:00\n",
        0,
    ),
    ("most 1\nreturned 0 keep piece 0 30 1  4:7:1:2:\n", 2),
    ("most 1\nreturned 0 keep piece 0 30 1 4:7:1:2: \n", 2),
    ("most 1\nreturned 0 keep piece 0 30 1 -0:7:1:2:\n", 2),
    ("most 1\nreturned 0 keep piece 0 30 1 04:7:1:2:\n", 2),
    ("most 1\nreturned 0 keep piece 0 30 1 4:7:1:-0:\n", 2),
    ("most 1\nreturned 0 keep piece 0 30 1 -:7:1:2:\n", 2),
    ("most 1\nreturned 0 keep piece 0 30 1 -04:7:1:2:\n", 2),
    ("most 1\nreturned 0 keep piece 0 30 1 +4:7:1:2:\n", 2),
    ("most 1\nreturned 0 keep piece 0 30 1 --4:7:1:2:\n", 2),
    (
        "most 1\nreturned 0 keep piece 0 30 1 2147483647:-2147483648:922337203685477580\
          7:2147483647:\n",
        0,
    ),
    (
        "most 1\nreturned 0 keep piece 0 30 1 4:7:-9223372036854775808:2:\n",
        0,
    ),
    (
        "most 1\nreturned 0 keep piece 0 30 1 2147483648:7:1:2:\n",
        2,
    ),
    (
        "most 1\nreturned 0 keep piece 0 30 1 4:-2147483649:1:2:\n",
        2,
    ),
    (
        "most 1\nreturned 0 keep piece 0 30 1 4:7:9223372036854775808:2:\n",
        2,
    ),
    (
        "most 1\nreturned 0 keep piece 0 30 1 4:7:-9223372036854775809:2:\n",
        2,
    ),
    (
        "most 1\nreturned 0 keep piece 0 30 1 4:7:1:2147483648:\n",
        2,
    ),
    ("most 1\nreturned 0 keep piece 0 30 1 4:7:1:2:6\n", 2),
    ("most 1\nreturned 0 keep piece 0 30 1 4:7:1:2:6A\n", 2),
    ("most 1\nreturned 0 keep piece 0 30 1 4:7:1:2:6a\n", 0),
    ("most 1\nreturned 0 keep piece 0 30 1 4:7:1:2:0g\n", 2),
    (
        "most 1\nreturned 0 keep piece 0 30 1 4:7:1:2:0123456789abcdef\n",
        0,
    ),
    ("most 1\nreturned 0 keep piece 0 30 1 4:7:1:2\n", 2),
    ("most 1\nreturned 0 keep piece 0 30 1 4:7:1:2:68:69\n", 2),
    ("most 1\nreturned 0 keep piece 0 30 1 LM_DEBUG:7:1:2:\n", 2),
];

/// What a reader answers of a text: the number of the bad line, or 0 for a journal.
fn bad_line(alloc: Global, text: &[u8]) -> u64 {
    match read_journal(alloc, text) {
        Ok(_) => 0,
        Err(JournalRefused::BadLine { line }) => line,
        Err(JournalRefused::NoMemory) => u64::MAX,
    }
}

/// Whether a journal of at most so many handlers is written as this text.
fn is_written(journal: &Journal<ServerNote>, most: u64, text: &[u8], sink: &mut MemSink) -> bool {
    write_journal(most, journal, sink).is_ok() && sink.bytes() == text
}

/// Whether a text spells a journal with this number in its first line, and the journal is written
/// as it.
fn is_written_again(alloc: Global, number: u64, text: &[u8]) -> Result<bool, Fail> {
    let mut sink = MemSink::new(alloc, 1_024, None).map_err(|_| Fail::from("no room"))?;
    match read_journal(alloc, text) {
        Ok((most, journal)) => Ok(is_written(&journal, most, text, &mut sink) && most == number),
        Err(_) => Err(Fail::from("not read")),
    }
}

#[test]
fn journals_are_written_as_they_were_read(rt: HostRuntime) -> Result<(), Fail> {
    for (most, text) in JOURNALS {
        assert_in(
            &rt,
            text,
            is_written_again(rt.alloc(), *most, text.as_bytes())?,
        );
    }
    Ok(())
}

/// The number of the last line of a text if it has no line feed, or else 0; an empty text is bad at
/// line 1.
fn unfinished(text: &[u8]) -> u64 {
    match text {
        [.., b'\n'] => 0,
        _ => text.iter().filter(|byte| **byte == b'\n').count() as u64 + 1,
    }
}

/// Whether each front of a text is bad at its unfinished line.
fn are_fronts_bad(alloc: Global, text: &[u8]) -> bool {
    let mut are_bad = true;
    for at in 0..text.len() {
        let front = &text[..at];
        are_bad &= bad_line(alloc, front) == unfinished(front);
    }
    are_bad
}

#[test]
fn a_front_is_bad_at_its_unfinished_line(rt: HostRuntime) -> Result<(), Fail> {
    for (_, text) in JOURNALS {
        assert_in(&rt, text, are_fronts_bad(rt.alloc(), text.as_bytes()));
    }
    Ok(())
}

#[test]
fn the_first_bad_line_is_named(rt: HostRuntime) -> Result<(), Fail> {
    for texts in [FIRST_LINES, ENTRIES, PIECES] {
        for (text, line) in texts {
            assert_in(&rt, text, bad_line(rt.alloc(), text.as_bytes()) == *line);
        }
    }
    Ok(())
}

/// A journal with one message of so many digits.
fn with_digits(alloc: Global, digits: usize) -> Result<Vec<u8>, Fail> {
    let mut text = Vec::from_slice(alloc, b"most 1\nreturned 0 keep piece 0 0 1 4:7:1:2:")?;
    for _ in 0..digits {
        text.push(b'6')?;
    }
    text.push(b'\n')?;
    Ok(text)
}

/// The bad line of a journal with one message of so many digits.
fn bad_line_of(alloc: Global, digits: usize) -> Result<u64, Fail> {
    let text = with_digits(alloc, digits)?;
    Ok(bad_line(alloc, text.as_slice()))
}

#[test]
fn messages_have_a_limit(rt: HostRuntime) -> Result<(), Fail> {
    for (digits, line) in [(131_072, 0), (131_073, 2), (131_074, 2)] {
        assert_in(&rt, digits, bad_line_of(rt.alloc(), digits)? == line);
    }
    Ok(())
}

/// Whether the write of a journal that finds no room fails, and leaves its front.
fn leaves_a_front(alloc: Global) -> Result<bool, Fail> {
    let journal = Journal::new(alloc);
    let mut sink = MemSink::new(alloc, 9, None).map_err(|_| Fail::from("no room"))?;
    let has_failed = write_journal(4_098, &journal, &mut sink).is_err();
    Ok(has_failed && sink.bytes() == b"most 4098".as_slice())
}

#[test]
fn a_failed_write_leaves_a_front(rt: HostRuntime) -> Result<(), Fail> {
    assert!(rt; leaves_a_front(rt.alloc())?);
    Ok(())
}

//! Rows of the scripts of network events: which texts are scripts, and which are not.
use crate::asserts::assert_same_in;
use script_text::{ScriptRefused, parse_script};

/// A script with each kind of line: connection 0 comes and brings two pieces at moments 0 and 5; a
/// moment passes; it is shut, and the listener fails; connection 1 comes, brings a byte and fails.
const EACH_LINE: &str =
    "open 0\ndata 0 00fF\nat 5\ndata 0 68\nquiet\nshut 0\nat 5\nfail listener\nopen 1\n\
      data 1 Aa\nat 4294967295\nfail 1\n";

/// Texts, each with the number of its first bad line, or 0 if it is a script.
static TEXTS: [(&str, u64); 64] = [
    ("", 0),
    (EACH_LINE, 0),
    ("quiet", 0),
    ("quiet\n", 0),
    ("at 0", 0),
    ("at 7\nat 7\nat 8", 0),
    ("fail listener\nfail listener", 0),
    ("open 0\nopen 1\nopen 2\nshut 1\nfail 0\ndata 2 00", 0),
    ("open 0\ndata 0 0123456789abcdefABCDEF", 0),
    // empty lines
    ("\n", 1),
    ("quiet\n\n", 2),
    ("\nquiet", 1),
    ("quiet\n\nquiet", 2),
    // words
    ("quiet ", 1),
    (" quiet", 1),
    ("quiet 0", 1),
    ("Quiet", 1),
    ("quie", 1),
    ("quiets", 1),
    ("quiet\r\n", 1),
    ("at", 1),
    ("at ", 1),
    ("at  5", 1),
    ("at 5 ", 1),
    ("at\t5", 1),
    ("at 5 5", 1),
    ("open", 1),
    ("open 0 ", 1),
    ("pause 0", 1),
    ("fail Listener", 1),
    ("shut listener", 1),
    ("open listener", 1),
    ("open 0\ndata 0", 2),
    ("open 0\ndata 0 00 00", 2),
    ("open 0\ndata 0 00 ", 2),
    ("open 0\nclose 0 00", 2),
    // numbers
    ("at 05", 1),
    ("at 00", 1),
    ("at +5", 1),
    ("at -5", 1),
    ("at 5a", 1),
    ("at 1.5", 1),
    ("at 4294967295", 0),
    ("at 4294967296", 1),
    ("at 18446744073709551616", 1),
    ("at 18446744073709551617", 1),
    ("open 00", 1),
    ("open 18446744073709551616", 1),
    // moments
    ("at 5\nat 4", 2),
    ("at 5\nquiet\nat 6\nat 5", 4),
    // bytes
    ("open 0\ndata 0 ", 2),
    ("open 0\ndata 0 0", 2),
    ("open 0\ndata 0 000", 2),
    ("open 0\ndata 0 0g", 2),
    ("open 0\ndata 0 0x00", 2),
    // connections
    ("open 1", 1),
    ("open 0\nopen 0", 2),
    ("open 0\nopen 2", 2),
    ("data 0 00", 1),
    ("open 0\nshut 1", 2),
    ("open 0\nshut 0\ndata 0 00", 3),
    ("open 0\nshut 0\nfail 0", 3),
    ("open 0\nfail 0\nshut 0\nat x", 3),
    ("open 0\nshut 0\nopen 0", 3),
];

#[test]
fn names_the_first_bad_line(rt: HostRuntime) {
    for &(text, bad) in &TEXTS {
        let found = match parse_script(rt.alloc(), text.as_bytes(), 0) {
            Ok(_) => Some(0),
            Err(ScriptRefused::BadScript { line }) => Some(line),
            Err(ScriptRefused::NoMemory) => None,
        };
        assert_same_in(&rt, text, found, Some(bad));
    }
}

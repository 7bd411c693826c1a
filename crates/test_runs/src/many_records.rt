//! A script of many connections that send many records, and the lines that are to come of it,
//! whoever plays it.

use std::alloc::{AllocError, Global};
use std::fmt::Write;

/// How many connections there are.
pub const CONNECTIONS: u64 = 40;

/// How many records each of them sends.
const RECORDS: u64 = 125;

/// A script in which each connection sends its records round by round. A record is little-endian,
/// its padding is not zero, its message has a closing zero byte, and it comes in two pieces.
pub fn script(alloc: Global) -> Result<String, AllocError> {
    let mut text = String::new(alloc);
    for conn in 0..CONNECTIONS {
        write!(text, "open {conn}\n")?;
    }
    for round in 0..RECORDS {
        write!(text, "at {round}\n")?;
        for conn in 0..CONNECTIONS {
            write!(text, "data {conn} 01aabbcc17\n")?;
        }
        for conn in 0..CONNECTIONS {
            write!(
                text,
                "data {conn} 0000000400000007000000010000000200000003000000686900\n"
            )?;
        }
    }
    for conn in 0..CONNECTIONS {
        write!(text, "shut {conn}\n")?;
    }
    Ok(text)
}

/// The lines that are to come of it, connection after connection.
pub fn wanted(alloc: Global) -> Result<String, AllocError> {
    let mut text = String::new(alloc);
    for conn in 0..CONNECTIONS {
        for _ in 0..RECORDS {
            write!(text, "{conn} 1,2 7 LM_DEBUG: hi\n")?;
        }
        write!(text, "{conn} closed: end\n")?;
    }
    Ok(text)
}

/// Puts the lines that begin so after a text, in their order.
fn put_lines(text: &mut String, lines: &str, beginning: &str) -> Result<(), AllocError> {
    for line in lines.lines() {
        if line.starts_with(beginning) {
            write!(text, "{line}\n")?;
        }
    }
    Ok(())
}

/// The lines of each connection, connection after connection.
pub fn grouped(alloc: Global, lines: &str) -> Result<String, AllocError> {
    let mut text = String::new(alloc);
    for conn in 0..CONNECTIONS {
        let beginning = format!(in alloc; "{conn} ")?;
        put_lines(&mut text, lines, &beginning)?;
    }
    Ok(text)
}

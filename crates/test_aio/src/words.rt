//! What the words after `aio` say.
use aio_words::{AioWords, aio_words};
use std::alloc::Global;
use std::process::Abort;
use std::test::Fail;

struct Row {
    words: &'static [&'static str],
    says: Option<AioWords>,
}

static ROWS: [Row; 9] = [
    Row {
        words: &["--port", "7000"],
        says: Some(AioWords {
            port: 7000,
            until: None,
        }),
    },
    Row {
        words: &["--until=3", "--port=1"],
        says: Some(AioWords {
            port: 1,
            until: Some(3),
        }),
    },
    Row {
        words: &[],
        says: None,
    },
    Row {
        words: &["--until", "3"],
        says: None,
    },
    Row {
        words: &["--port", "0"],
        says: None,
    },
    Row {
        words: &["--port", "07000"],
        says: None,
    },
    Row {
        words: &["--port", "7000", "--port", "7000"],
        says: None,
    },
    Row {
        words: &["--port", "7000", "--until", "4294967296"],
        says: None,
    },
    Row {
        words: &["--port", "7000", "--"],
        says: None,
    },
];

fn see(rt: &impl Abort, alloc: Global, row: &Row) -> Result<(), Fail> {
    let mut words = Vec::new(alloc);
    for word in row.words {
        words.push(String::from_str(alloc, word)?)?;
    }
    let says = aio_words(alloc, &words)?;
    assert!(*rt; says == row.says);
    Ok(())
}

#[test]
fn words_say_a_port_and_a_number(rt: HostRuntime) -> Result<(), Fail> {
    for row in &ROWS {
        see(&rt, rt.alloc(), row)?;
    }
    Ok(())
}

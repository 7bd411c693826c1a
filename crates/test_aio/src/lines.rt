//! Lines of connections.
use aio_lines::ConnectionLines;
use ev_base::{Answer, Handle, MemSink};
use proactor::{AioNote, AsynchNote};
use reactor_model::{Entry, Watch};
use std::test::Fail;

/// What a connection noted when it was closed.
const LAST: AsynchNote = AsynchNote {
    conn: 7,
    read: 3,
    wrote: 2,
    completed: 5,
    cancelled: 1,
    no_memory: false,
};

/// What one noted that was refused before its first turn.
const REFUSED: AsynchNote = AsynchNote {
    conn: 8,
    read: 0,
    wrote: 0,
    completed: 1,
    cancelled: 1,
    no_memory: false,
};

/// Entries of a turn, of a connection that was closed, of an acceptor, and of a refusal.
static ENTRIES: [Entry<AioNote>; 4] = [
    Entry::Returned {
        event: 3,
        answer: Answer::Again,
        note: AioNote::End(LAST),
    },
    Entry::Closed {
        handle: Handle(1),
        note: AioNote::End(LAST),
    },
    Entry::Closed {
        handle: Handle(0),
        note: AioNote::Listening,
    },
    Entry::Refused {
        live: 1_001,
        fault: false,
        note: AioNote::End(REFUSED),
    },
];

#[test]
fn closed_and_refused_connections_have_a_line(rt: HostRuntime) -> Result<(), Fail> {
    let mut watch = ConnectionLines::new(MemSink::new(rt.alloc(), 200, None)?);
    for entry in &ENTRIES {
        watch.saw(entry);
    }
    let wanted = b"7 read 3 wrote 2 cancelled 1\n8 read 0 wrote 0 cancelled 1\n";
    assert!(rt; !watch.broken());
    assert!(rt; watch.into_output().bytes() == wanted.as_slice());
    Ok(())
}

use ev_base::{Handle, Mask};
use reactor_journal::*;
use std::alloc::Global;
use std::test::Fail;

// A journal of a handle that is opened and closed.
fn of_two(alloc: Global) -> Result<Journal<u64>, Fail> {
    let mut journal = Journal::new(alloc);
    journal.reserve(2)?;
    journal.append(Entry::Opened {
        handle: Handle(0),
        mask: Mask::READ,
    });
    journal.append(Entry::Closed {
        handle: Handle(0),
        note: 7,
    });
    journal.reserve(0)?;
    Ok(journal)
}

// Whether a journal has two entries, and the second one is the closing.
fn has_two(journal: &Journal<u64>) -> bool {
    let closed = Entry::Closed {
        handle: Handle(0),
        note: 7,
    };
    journal.len() == 2 && *journal.entry(1) == closed && journal.as_slice().len() == 2
}

fn call_laws() {
    laws::one_open_upcall::<u64>();
    laws::one_fate::<u64>();
    laws::closed_for_good::<u64>();
    laws::no_turn_meanwhile::<u64>();
    laws::one_pick::<u64>();
    laws::reports_are_events::<u64>();
    laws::armed_in_order::<u64>();
    laws::next_is_least();
}

#[test]
fn appends_in_order(rt: HostRuntime) -> Result<(), Fail> {
    let empty: Journal<u64> = Journal::new(rt.alloc());
    assert!(rt; empty.is_empty());
    let journal = of_two(rt.alloc())?;
    assert!(rt; has_two(&journal));
    call_laws();
    Ok(())
}

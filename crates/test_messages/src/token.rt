//! A token that keeps a log which two threads write, and one that keeps a desk whose events begin
//! and end.
use crate::asserts::assert_same;
use leader_token::Token;
use std::test::*;
use test_token::{Desk, begin, settle, two_writers};

#[test]
fn two_writers_add_two_thousand(rt: HostRuntime) -> Result<(), Fail> {
    let log = two_writers(&rt, rt.alloc()).ok_or("no memory")?;
    assert_same(&rt, log.entries.len(), 2000);
    for by in 0..2 {
        let own = log.entries.iter().filter(|entry| entry.by == by);
        assert_same(&rt, own.count(), 1000);
        let mut own = log
            .entries
            .iter()
            .filter(|entry| entry.by == by)
            .enumerate();
        assert!(rt; own.all(|(seq, entry)| entry.seq == seq as u64));
    }
    Ok(())
}

#[test]
fn passes_begin_and_settle_events(rt: HostRuntime) -> Result<(), Fail> {
    let desk = Desk {
        notes: Vec::new(rt.alloc()),
        faults: 0,
    };
    let (token, mut root) = match Token::new(rt.alloc(), desk) {
        Ok(made) => made,
        Err(_) => return Err("no memory".into()),
    };
    let mut other = token.split(&mut root);
    let Some(first) = begin(&rt, &token, &mut root) else {
        return Err("no memory".into());
    };
    let Some(second) = begin(&rt, &token, &mut other) else {
        return Err("no memory".into());
    };
    assert!(rt; first == 0 && second == 1);
    if !settle(&rt, &token, &mut other, second) {
        return Err("no memory".into());
    }
    token.join(&mut root, other);
    let desk = token.close(root);
    assert_same(&rt, desk.notes.len(), 3);
    assert_same(&rt, desk.faults, 0);
    Ok(())
}

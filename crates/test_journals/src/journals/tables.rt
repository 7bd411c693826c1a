//! Names and codes that are looked up in the tables.
use journal_text::{entry_kinds, priorities};
use std::test::Fail;

fn are_kinds_found() -> bool {
    let kinds = entry_kinds();
    kinds.code_of(b"stale") == Some(7) && kinds.code_of(b"staled").is_none()
}

fn are_priorities_found() -> bool {
    let priorities = priorities();
    priorities.code_of(b"LM_DEBUG") == Some(4)
        && priorities.name_of(1_024) == Some("LM_EMERGENCY")
        && priorities.name_of(3).is_none()
}

#[test]
fn names_are_looked_up(rt: HostRuntime) -> Result<(), Fail> {
    assert!(rt; are_kinds_found());
    assert!(rt; are_priorities_found());
    Ok(())
}

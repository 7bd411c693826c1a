use crate::asserts::assert_same;
use ev_base::{Handle, Kind, Upcall};
use reactor_summary::*;
use std::test::Fail;

#[test]
fn laws_at_a_note_type(rt: HostRuntime) -> Result<(), Fail> {
    laws::summary_tells::<u64>();
    laws::summary_picks::<u64>();
    laws::summary_rules::<u64>();
    let waiting = WaitingEvent {
        event: 3,
        handle: Handle(1),
        upcall: Upcall::Notice { kind: Kind::Read },
        due: None,
    };
    assert_same(&rt, waiting.handle, Handle(1));
    Ok(())
}

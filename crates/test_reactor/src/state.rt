ghost use Rattle.reactor_summary.specs.Summary as S;
ghost use Rattle.reactor_state.specs.State.{Shows};

use ev_base::{Kind, Mask};
use reactor_state::*;
use std::alloc::Global;
use std::test::Fail;
use timer_queue::{SortedTimers, TimerQueue};

const ROOM: Places = Places {
    handles: 1,
    timers: 1,
    timeouts: 1,
    events: 1,
    opens: 1,
};

// A handle is opened and reported on, and its upcall begins, through the bound. Answers whether all
// counts are right.
fn one_upcall<Q: TimerQueue>(state: &mut ReactorState<Q>) -> Result<bool, Fail>
    requires { Shows Q.timers state.old S.nothing }
{
    state.reserve(ROOM)?;
    let handle = state.open(Mask::READ);
    state.ready(handle, Kind::Read);
    let owed = state.owed();
    match state.find_pick() {
        None => Ok(false),
        Some(pick) => {
            state.start(pick);
            let is_owed = (owed, state.owed()) == (3, 8);
            let is_live = (state.entries(), state.live()) == (3, 1);
            Ok(pick.event.event == 1 && is_owed && is_live)
        }
    }
}

fn calls_back(alloc: Global) -> Result<bool, Fail> {
    let mut state = ReactorState::new(alloc, SortedTimers::new(alloc));
    one_upcall(&mut state)
}

#[test]
fn a_report_is_called(rt: HostRuntime) -> Result<(), Fail> {
    assert!(rt; calls_back(rt.alloc())?);
    Ok(())
}

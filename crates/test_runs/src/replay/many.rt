//! Long scripts.
use crate::asserts::{assert_in, assert_same_in};
use crate::many_records::{script, wanted};
use crate::replay::running::replay_line;
use cmd_audit::{AuditEnd, audit};
use cmd_replay::ReplayEnd;
use ev_base::{MemSink, SteadySource};
use script_generator::gen_script;
use std::test::Fail;

#[test]
fn many_connections_are_grouped(rt: HostRuntime) -> Result<(), Fail> {
    let alloc = rt.alloc();
    let wanted = wanted(alloc)?;
    for line in [
        "replay --grouped",
        "replay --grouped --workers 2",
        "replay --grouped --workers 8",
        "replay --grouped --workers 64",
    ] {
        let played = replay_line(&rt, alloc, line, script(alloc)?.into_bytes(), 200_000)?;
        assert_same_in(&rt, line, played.end, ReplayEnd::Done);
        assert_in(&rt, line, played.output.bytes() == wanted.as_bytes());
    }
    Ok(())
}

/// The journal of a run of 80 connections with 125 records each, by one worker and by four, is
/// legal as `logd audit` reads it.
#[test]
fn a_long_journal_is_audited(rt: HostRuntime) -> Result<(), Fail> {
    let alloc = rt.alloc();
    for line in ["replay --journal", "replay --journal --workers 4"] {
        let text = gen_script(alloc, 80, 7)?.into_vec();
        let played = replay_line(&rt, alloc, line, text, 1 << 23)?;
        assert_same_in(&rt, line, played.end, ReplayEnd::Done);
        let journal = SteadySource::new(Vec::from_slice(alloc, played.output.bytes())?);
        let output = MemSink::new(alloc, 64, None).map_err(|_| Fail::from("no room"))?;
        let audited = audit(alloc, journal, output, 1 << 24);
        assert_same_in(&rt, line, audited.end, AuditEnd::Legal);
        assert_in(&rt, line, audited.output.bytes().starts_with(b"legal 1"));
        assert_in(
            &rt,
            line,
            audited.output.bytes().len() >= b"legal 100000\n".len(),
        );
    }
    Ok(())
}

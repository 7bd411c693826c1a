//! Rows of the net, the ends and the host that play a script. They show what no contract says.
use crate::asserts::assert_same;
use ev_base::{Got, Handle, Host, ListenRefused, Mask, Net, PeerEnd, Sent, Taken, Waited};
use script_net::{ScriptEnd, ScriptHost, ScriptNet};
use script_text::parse_script;
use std::alloc::Global;
use std::fmt::Write;
use std::process::Abort;
use std::test::Fail;

/// What a wait without a limit answers, as text.
fn wait_text(text: &mut String, net: &mut ScriptNet) -> Result<(), Fail> {
    match net.wait(None) {
        Waited::Reports { now, count } => write!(text, "{count} at {now}; ")?,
        Waited::Quiet { now } => write!(text, "quiet {now}; ")?,
        Waited::Over { now } => write!(text, "over {now}; ")?,
        Waited::Failed => write!(text, "failed; ")?,
    }
    Ok(())
}

/// What so many waits answer, as text.
fn waits_text(alloc: Global, net: &mut ScriptNet, waits: usize) -> Result<String, Fail> {
    let mut text = String::new(alloc);
    for _ in 0..waits {
        wait_text(&mut text, net)?;
    }
    Ok(text)
}

#[test]
fn moments_pass_and_named_waits_fail(rt: HostRuntime) -> Result<(), Fail> {
    let named = Vec::from_slice(rt.alloc(), &[1])?;
    let script = parse_script(rt.alloc(), b"open 0\nat 5\nquiet\nat 7\nfail listener", 10)?;
    let (mut net, _, _) = script.parts();
    net.fail_waits(named);
    let text = waits_text(rt.alloc(), &mut net, 5);
    drop(net);
    assert_same(
        &rt,
        text?.as_str(),
        "quiet 0; failed; quiet 5; quiet 7; over 7; ",
    );
    Ok(())
}

#[test]
fn named_attaches_fail(rt: HostRuntime) -> Result<(), Fail> {
    let named = Vec::from_slice(rt.alloc(), &[0])?;
    let script = parse_script(rt.alloc(), b"open 0", 10)?;
    let (mut net, mut listener, _) = script.parts();
    net.fail_attaches(named);
    let mut failed = false;
    if net.reserve(1).is_ok() {
        failed = net.attach(&mut listener, Handle(0), Mask::READ).is_err();
    }
    assert!(rt; failed);
    Ok(())
}

/// A script of so many connections.
fn opens(alloc: Global, connections: u64) -> Result<String, Fail> {
    let mut lines = String::new(alloc);
    for number in 0..connections {
        write!(lines, "open {number}\n")?;
    }
    Ok(lines)
}

#[test]
fn a_wait_gives_256_reports_and_the_next_the_others(rt: HostRuntime) -> Result<(), Fail> {
    let lines = opens(rt.alloc(), 300)?;
    let script = parse_script(rt.alloc(), lines.as_bytes(), 10)?;
    let (mut net, mut listener, _) = script.parts();
    let mut attached = false;
    if net.reserve(1).is_ok() {
        attached = net.attach(&mut listener, Handle(0), Mask::READ).is_ok();
    }
    assert!(rt; attached);
    let text = waits_text(rt.alloc(), &mut net, 3);
    drop(net);
    drop(listener);
    assert_same(&rt, text?.as_str(), "256 at 0; 44 at 0; over 0; ");
    Ok(())
}

/// What the reads of an end answer, with room for 8 bytes.
fn reads(rt: &impl Abort, end: &mut ScriptEnd, answers: &[Got], into: &mut [u8; 8]) {
    for want in answers {
        assert!(rt; !end.is_listener());
        assert_same(rt, end.read(into), *want);
    }
}

/// An end gives two bytes and is shut, and takes three.
fn says_hi(rt: &impl Abort, end: &mut ScriptEnd) {
    let mut buf = [0; 8];
    reads(rt, end, &[Got::Bytes(2), Got::Pause, Got::Over], &mut buf);
    assert!(rt; buf.starts_with(b"hi"));
    assert!(rt; !end.is_listener());
    assert_same(rt, end.write(b"four"), Sent::Bytes(3));
    assert!(rt; !end.is_listener());
    assert_same(rt, end.write(b"more"), Sent::Pause);
    assert_same(rt, end.held(), b"fou".as_slice());
}

/// Whether a host listens, and the first connection says hi.
fn serves_one(rt: &impl Abort, alloc: Global, host: &mut ScriptHost) -> bool {
    let Ok((_, mut listener, _)) = host.listen(alloc, 7000) else {
        return false;
    };
    let Taken::One(mut end) = listener.accept() else {
        return false;
    };
    says_hi(rt, &mut end);
    true
}

#[test]
fn a_host_gives_its_script_once(rt: HostRuntime) -> Result<(), Fail> {
    let script = parse_script(rt.alloc(), b"open 0\ndata 0 6869\nshut 0", 3)?;
    let mut host = ScriptHost::new(Some(script), false);
    assert!(rt; serves_one(&rt, rt.alloc(), &mut host));
    let again = host.listen(rt.alloc(), 7000);
    assert!(rt; matches!(&again, Err(ListenRefused::Failed)));
    Ok(())
}

//! A dialler in memory.
use dial_memory::{MemDialEnd, MemDialNet, MemDialer};
use ev_base::{DialRefused, Dialer, Net, Waited};
use std::test::Fail;

#[test]
fn a_dialler_gives_its_end_once(rt: HostRuntime) -> Result<(), Fail> {
    let alloc = rt.alloc();
    let end = MemDialEnd::new(alloc, 8, Vec::new(alloc), Vec::new(alloc), Vec::new(alloc))?;
    let mut dialer = MemDialer::new(MemDialNet::new(alloc, Vec::new(alloc)), end);
    let Ok((mut net, end)) = dialer.dial(alloc, 7000) else {
        return Err("no connection is made".into());
    };
    assert!(rt; net.wait(None) == Waited::Over { now: 0 });
    assert!(rt; end.held().is_empty());
    assert!(rt; dialer.dial(alloc, 7000).err() == Some(DialRefused::Failed));
    Ok(())
}

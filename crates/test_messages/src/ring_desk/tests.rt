use super::*;
use ev_base::{Handle, Kind};
use leader_token::Token;
use notify_ring::Ring;
use std::test::*;

#[test]
fn a_posting_goes_into_the_journal(rt: HostRuntime) -> Result<(), Fail> {
    let (ring, mut root, drainer) = Ring::new(rt.alloc())?;
    let posted = ring.post(&mut root, Handle(3), Kind::Write);
    assert!(rt; posted == Ok(0));
    let desk = Desk {
        journal: Vec::new(rt.alloc()),
        drainer,
    };
    let Ok((token, mut pass)) = Token::new(rt.alloc(), desk) else {
        return Err("no memory".into());
    };
    assert!(rt; drain_one(&rt, &token, &ring, &mut pass));
    Ok(())
}

//! What comes out of a ring is what was posted, and a full ring refuses.
ghost use Rattle.std.specs.Prelude.{◌≡◌};
ghost use Rattle.notify_ring.specs.Words.{id_of, poster_ring, poster_view, drainer_ring};
ghost use Rattle.test_messages.specs.Rows.{HasKinOf};

use crate::asserts::assert_same;
use crate::ring::rows::{Outcome, four_posters};
use ev_base::{Handle, Kind};
use notify_ring::{Drainer, Full, Poster, Posting, Ring};
use std::process::Abort;
use std::test::Fail;

#[test]
fn what_comes_is_what_was_posted(rt: HostRuntime) -> Result<(), Fail> {
    let outcome = four_posters(&rt, rt.alloc(), 5_000, 2_000_000).ok_or("no memory")?;
    assert!(rt; is_numbered(&outcome));
    for (from, made) in outcome.each.iter().enumerate() {
        assert!(rt; has_own(&outcome.taken, from as u64, *made));
    }
    for posting in &outcome.taken {
        assert!(rt; is_as_posted(posting));
    }
    Ok(())
}

/// Whether as many postings were taken as were made, each at the place of its number.
fn is_numbered(outcome: &Outcome) -> bool {
    let mut all = outcome.taken.iter().enumerate();
    outcome.taken.len() as u64 == outcome.made && all.all(|(at, x)| x.number == at as u64)
}

/// Whether there are so many postings of this poster, in order.
fn has_own(taken: &[Posting], from: u64, made: u64) -> bool {
    let mut seq = 0;
    for posting in taken {
        if posting.from == from {
            if posting.seq != seq {
                return false;
            }
            seq = seq.wrapping_add(1);
        }
    }
    seq == made
}

/// Whether a posting has the handle and the kind that its poster gave it.
fn is_as_posted(x: &Posting) -> bool {
    let is_read = x.kind == Kind::Read;
    x.handle.0 >> 60 == x.from && x.handle.0 & 0xFFFF == x.seq && is_read == (x.seq % 2 == 0)
}

#[test]
fn a_ring_holds_256_postings(rt: HostRuntime) -> Result<(), Fail> {
    let (ring, mut root, mut drainer) = Ring::new(rt.alloc())?;
    for number in 0..256 {
        posts(&rt, &ring, &mut root, number, Ok(number));
    }
    posts(&rt, &ring, &mut root, 256, Err(Full { held: 256 }));
    comes(&rt, &ring, &mut drainer, Some(posting(0)));
    posts(&rt, &ring, &mut root, 256, Ok(256));
    for number in 1..257 {
        comes(&rt, &ring, &mut drainer, Some(posting(number)));
    }
    comes(&rt, &ring, &mut drainer, None);
    let mut other = ring.split(&mut root);
    posts(&rt, &ring, &mut other, 7, Ok(257));
    ring.join(&mut root, other);
    let last = Posting {
        from: 1,
        seq: 0,
        handle: Handle(7),
        ..posting(257)
    };
    comes(&rt, &ring, &mut drainer, Some(last));
    assert_same(&rt, ring.close(root, drainer), 258);
    Ok(())
}

/// The posting of the root poster that has this number, if no other poster made one before.
fn posting(number: u64) -> Posting {
    Posting {
        number,
        handle: Handle(number),
        kind: Kind::Read,
        from: 0,
        seq: number,
    }
}

/// What a post for this handle answers.
fn posts(rt: &impl Abort, ring: &Ring, poster: &mut Poster, handle: u64, wanted: Result<u64, Full>)
    requires ring { poster_ring poster.old ≡ id_of ring.now }
    ensures ring { poster_ring poster.new ≡ poster_ring poster.old }
    ensures kin { HasKinOf (poster_view poster.old) (poster_view poster.new) }
{
    assert!(rt; poster.made() < 1_000);
    assert_same(rt, ring.post(poster, Handle(handle), Kind::Read), wanted);
}

/// What the next look gives.
fn comes(rt: &impl Abort, ring: &Ring, drainer: &mut Drainer, wanted: Option<Posting>)
    requires ring { drainer_ring drainer.old ≡ id_of ring.now }
    ensures ring { drainer_ring drainer.new ≡ drainer_ring drainer.old }
{
    assert_same(rt, ring.next(drainer), wanted);
}

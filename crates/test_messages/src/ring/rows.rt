// Posting from four threads and draining in a fifth.
ghost use Rattle.std.specs.Prelude.{◌≡◌, ◌+◌, ◌^◌, ◌<◌, ◌≤◌, true, false, IfSome};
ghost use Rattle.notify_ring.specs.Words.{id_of, poster_ring, poster_view, drainer_ring};
ghost use Rattle.notify_ring.specs.Words.{drainer_view};
ghost use Rattle.test_messages.specs.Rows.{IsTaken, HasKinOf};

use ev_base::{Handle, Kind};
use notify_ring::{Drainer, Poster, Posting, Ring};
use std::alloc::Global;
use std::thread::{Threads, join, yield_now};

/// What came out, and how many postings each poster made.
#[derive(Drop)]
pub struct Outcome {
    pub taken: Vec<Posting>,
    pub made: u64,
    pub each: [u64; 4],
}

/// Posts for the handles `base`, `base + 1` .., one for each of the poster's postings, until it has
/// made `count` or has tried so many times.
pub fn post_many(ring: &Ring, mut poster: Poster, base: u64, count: u64, tries: u64) -> Poster
    requires ring { poster_ring poster ≡ id_of ring.now }
    requires count { (count ≤ 2 ^ 56) × (base + count < 2 ^ 64) }
    ensures ring { poster_ring result ≡ id_of ring.now }
    ensures kin { HasKinOf (poster_view poster) (poster_view result) }
{
    for _ in 0..tries {
        let made = poster.made();
        if made >= count {
            break;
        }
        let kind = if made % 2 == 0 {
            Kind::Read
        } else {
            Kind::Write
        };
        if ring.post(&mut poster, Handle(base + made), kind).is_err() {
            yield_now();
        }
    }
    poster
}

/// Takes postings until it has looked so many times or there is no memory.
pub fn drain(
    ring: &Ring,
    mut drainer: Drainer,
    mut taken: Vec<Posting>,
    looks: u64,
) -> (Drainer, Vec<Posting>)
    requires ring { drainer_ring drainer ≡ id_of ring.now }
    requires taken { taken.items ≡ (drainer_view drainer).got }
    ensures ring { drainer_ring result.0 ≡ id_of ring.now }
    ensures taken { result.1.items ≡ (drainer_view result.0).got }
{
    for _ in 0..looks {
        if taken.reserve(1).is_err() {
            break;
        }
        if let Some(posting) = ring.next(&mut drainer) {
            taken.push_reserved(posting);
        }
    }
    (drainer, taken)
}

// Two posters post in two threads.
fn post_both<R: Threads + Sync>(
    rt: &R,
    ring: &Ring,
    one: Poster,
    other: Poster,
    bases: (u64, u64),
    count: u64,
    tries: u64,
) -> (Poster, Poster)
    requires ring { (poster_ring one ≡ id_of ring.now) × (poster_ring other ≡ id_of ring.now) }
    requires count { (count ≤ 2 ^ 56) × (bases.0 + count < 2 ^ 64) × (bases.1 + count < 2 ^ 64) }
    ensures ring { (poster_ring result.0 ≡ id_of ring.now)
        × (poster_ring result.1 ≡ id_of ring.now) }
    ensures one { HasKinOf (poster_view one) (poster_view result.0) }
    ensures other { (poster_view result.1).root ≡ (poster_view other).root }
{
    let (first, second) = bases;
    join(
        rt,
        move || -> Poster
            requires { (poster_ring one ≡ id_of ring.now) × (count ≤ 2 ^ 56)
                × (first + count < 2 ^ 64) }
            ensures { (poster_ring result ≡ id_of ring.entry.now)
                × HasKinOf (poster_view one) (poster_view result) }
        { post_many(ring, one, first, count, tries) },
        move || -> Poster
            requires { (poster_ring other ≡ id_of ring.now) × (count ≤ 2 ^ 56)
                × (second + count < 2 ^ 64) }
            ensures { (poster_ring result ≡ id_of ring.entry.now)
                × ((poster_view result).root ≡ (poster_view other).root) }
        { post_many(ring, other, second, count, tries) },
    )
}

type Four = (Poster, Poster, Poster, Poster);

// Four posters post in four threads, each for handles of its own.
fn post_four<R: Threads + Sync>(rt: &R, ring: &Ring, posters: Four, count: u64, tries: u64) -> Four
    requires ring { (poster_ring posters.0 ≡ id_of ring.now)
        × (poster_ring posters.1 ≡ id_of ring.now) × (poster_ring posters.2 ≡ id_of ring.now)
        × (poster_ring posters.3 ≡ id_of ring.now) }
    requires count { count ≤ 2 ^ 56 }
    ensures ring { (poster_ring result.0 ≡ id_of ring.now) × (poster_ring result.1 ≡ id_of ring.now)
        × (poster_ring result.2 ≡ id_of ring.now) × (poster_ring result.3 ≡ id_of ring.now) }
    ensures root { HasKinOf (poster_view posters.0) (poster_view result.0) }
    ensures children { ((poster_view result.1).root ≡ (poster_view posters.1).root)
        × ((poster_view result.2).root ≡ (poster_view posters.2).root)
        × ((poster_view result.3).root ≡ (poster_view posters.3).root) }
{
    let (a, b, c, d) = posters;
    let (left, right) = join(
        rt,
        move || -> (Poster, Poster)
            requires { (poster_ring a ≡ id_of ring.now) × (poster_ring b ≡ id_of ring.now)
                × (count ≤ 2 ^ 56) }
            ensures { (poster_ring result.0 ≡ id_of ring.entry.now)
                × (poster_ring result.1 ≡ id_of ring.entry.now)
                × HasKinOf (poster_view a) (poster_view result.0)
                × ((poster_view result.1).root ≡ (poster_view b).root) }
        { post_both(rt, ring, a, b, (0, 1 << 60), count, tries) },
        move || -> (Poster, Poster)
            requires { (poster_ring c ≡ id_of ring.now) × (poster_ring d ≡ id_of ring.now)
                × (count ≤ 2 ^ 56) }
            ensures { (poster_ring result.0 ≡ id_of ring.entry.now)
                × (poster_ring result.1 ≡ id_of ring.entry.now)
                × ((poster_view result.0).root ≡ (poster_view c).root)
                × ((poster_view result.1).root ≡ (poster_view d).root) }
        { post_both(rt, ring, c, d, (2 << 60, 3 << 60), count, tries) },
    );
    (left.0, left.1, right.0, right.1)
}

/// Four posters post `count` times each in four threads while a fifth drains, each with so many
/// turns. What is left is drained at the end. None is for want of memory.
pub fn four_posters<R: Threads + Sync>(
    rt: &R,
    alloc: Global,
    count: u64,
    turns: u64,
) -> Option<Outcome>
    requires { count ≤ 2 ^ 56 }
    ensures { IfSome result (λ outcome. IsTaken 4 outcome.made outcome.taken.items) }
{
    let Ok((ring, mut root, drainer)) = Ring::new(alloc) else {
        return None;
    };
    let one = ring.split(&mut root);
    let two = ring.split(&mut root);
    let three = ring.split(&mut root);
    let shared = &ring;
    let taken = Vec::new(alloc);
    let (posters, drained) = join(
        rt,
        move || -> Four
            requires { (poster_ring root ≡ id_of shared.now) × (poster_ring one ≡ id_of shared.now)
                × (poster_ring two ≡ id_of shared.now) × (poster_ring three ≡ id_of shared.now)
                × (count ≤ 2 ^ 56) }
            ensures { (poster_ring result.0 ≡ id_of shared.entry.now)
                × (poster_ring result.1 ≡ id_of shared.entry.now)
                × (poster_ring result.2 ≡ id_of shared.entry.now)
                × (poster_ring result.3 ≡ id_of shared.entry.now)
                × HasKinOf (poster_view root) (poster_view result.0)
                × ((poster_view result.1).root ≡ (poster_view one).root)
                × ((poster_view result.2).root ≡ (poster_view two).root)
                × ((poster_view result.3).root ≡ (poster_view three).root) }
        { post_four(rt, shared, (root, one, two, three), count, turns) },
        move || -> (Drainer, Vec<Posting>)
            requires { (drainer_ring drainer ≡ id_of shared.now)
                × (taken.items ≡ (drainer_view drainer).got) }
            ensures { (drainer_ring result.0 ≡ id_of shared.entry.now)
                × (result.1.items ≡ (drainer_view result.0).got) }
        { drain(shared, drainer, taken, turns) },
    );
    let (mut root, one, two, three) = posters;
    let (drainer, taken) = drained;
    let (drainer, taken) = drain(&ring, drainer, taken, 257);
    let each = [root.made(), one.made(), two.made(), three.made()];
    ring.join(&mut root, one);
    ring.join(&mut root, two);
    ring.join(&mut root, three);
    let made = ring.close(root, drainer);
    Some(Outcome { taken, made, each })
}

// Postings through a ring.
ghost use Rattle.std.specs.Prelude.{◌≡◌, ◌^◌, ◌≤◌};
ghost use Rattle.notify_ring.specs.Words.{id_of, poster_ring, drainer_ring};

use ev_types::{Handle, Kind};
use notify_ring::{Drainer, Poster, Ring};
use std::alloc::Global;
use std::thread::{Threads, join, yield_now};

/// Who posts and who takes.
#[derive(Clone, Copy)]
pub enum Way {
    /// One thread posts and takes in turn.
    Alone,
    /// One thread posts and another takes.
    OneToOne,
    /// Four threads post, a quarter each, and a fifth takes.
    FourToOne,
}

/// So many postings are made and taken. The answer is how many were taken.
pub fn post_by<R: Threads + Sync>(rt: &R, alloc: Global, way: Way, count: u64) -> u64
    requires { count ≤ 2 ^ 56 }
{
    match way {
        Way::Alone => post_and_take(alloc, count),
        Way::OneToOne => one_to_one(rt, alloc, count),
        Way::FourToOne => four_to_one(rt, alloc, count / 4),
    }
}

// One thread posts and takes in turn. The answer is how many postings were taken.
fn post_and_take(alloc: Global, turns: u64) -> u64
    requires { turns ≤ 2 ^ 56 }
{
    let Ok((ring, mut poster, mut drainer)) = Ring::new(alloc) else {
        return 0;
    };
    let mut taken: u64 = 0;
    for _ in 0..turns {
        if poster.made() >= turns {
            break;
        }
        let _ = ring.post(&mut poster, Handle(0), Kind::Read);
        if ring.next(&mut drainer).is_some() {
            taken = taken.saturating_add(1);
        }
    }
    taken
}

// So many postings are made, each time again if the ring is full.
fn post_many(ring: &Ring, mut poster: Poster, count: u64) -> Poster
    requires ring { poster_ring poster ≡ id_of ring.now }
    requires count { count ≤ 2 ^ 56 }
    ensures { poster_ring result ≡ id_of ring.now }
{
    for _ in 0..u64::MAX {
        if poster.made() >= count {
            break;
        }
        if ring.post(&mut poster, Handle(0), Kind::Read).is_err() {
            yield_now();
        }
    }
    poster
}

// One thread posts and another takes.
fn one_to_one<R: Threads + Sync>(rt: &R, alloc: Global, count: u64) -> u64
    requires { count ≤ 2 ^ 56 }
{
    let Ok((ring, poster, drainer)) = Ring::new(alloc) else {
        return 0;
    };
    let shared = &ring;
    let (_, taken) = join(
        rt,
        move || -> Poster
            requires { (poster_ring poster ≡ id_of shared.now) × (count ≤ 2 ^ 56) }
        { post_many(shared, poster, count) },
        move || -> u64
            requires { drainer_ring drainer ≡ id_of shared.now }
        { take(shared, drainer, count) },
    );
    taken
}

// Four threads post so many each, and a fifth takes.
fn four_to_one<R: Threads + Sync>(rt: &R, alloc: Global, count: u64) -> u64
    requires { count ≤ 2 ^ 56 }
{
    let Ok((ring, mut root, drainer)) = Ring::new(alloc) else {
        return 0;
    };
    let b = ring.split(&mut root);
    let c = ring.split(&mut root);
    let d = ring.split(&mut root);
    let total = count * 4;
    let shared = &ring;
    let (_, taken) = join(
        rt,
        move || -> ((), ())
            requires { (poster_ring root ≡ id_of shared.now) × (poster_ring b ≡ id_of shared.now)
                × (poster_ring c ≡ id_of shared.now) × (poster_ring d ≡ id_of shared.now)
                × (count ≤ 2 ^ 56) }
        {
            join(
                rt,
                move || -> ()
                    requires { (poster_ring root ≡ id_of shared.now)
                        × (poster_ring b ≡ id_of shared.now) × (count ≤ 2 ^ 56) }
                { post_both(rt, shared, root, b, count) },
                move || -> ()
                    requires { (poster_ring c ≡ id_of shared.now)
                        × (poster_ring d ≡ id_of shared.now) × (count ≤ 2 ^ 56) }
                { post_both(rt, shared, c, d, count) },
            )
        },
        move || -> u64
            requires { drainer_ring drainer ≡ id_of shared.now }
        { take(shared, drainer, total) },
    );
    taken
}

fn post_both<R: Threads + Sync>(rt: &R, ring: &Ring, a: Poster, b: Poster, count: u64)
    requires { (poster_ring a ≡ id_of ring.now) × (poster_ring b ≡ id_of ring.now)
        × (count ≤ 2 ^ 56) }
{
    join(
        rt,
        move || -> Poster
            requires { (poster_ring a ≡ id_of ring.now) × (count ≤ 2 ^ 56) }
        { post_many(ring, a, count) },
        move || -> Poster
            requires { (poster_ring b ≡ id_of ring.now) × (count ≤ 2 ^ 56) }
        { post_many(ring, b, count) },
    );
}

// Takes so many postings.
fn take(ring: &Ring, mut drainer: Drainer, count: u64) -> u64
    requires { drainer_ring drainer ≡ id_of ring.now }
{
    let mut taken: u64 = 0;
    for _ in 0..u64::MAX {
        if taken >= count {
            break;
        }
        if ring.next(&mut drainer).is_some() {
            taken = taken.saturating_add(1);
        } else {
            yield_now();
        }
    }
    taken
}

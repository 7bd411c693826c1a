//! Two upcalls of a pool that wait for each other: a body that makes all upcalls on one thread runs
//! out of turns.
ghost use Rattle.test_pool.specs.Callers.{IsFree, SameRank};

use crate::steps::{PlayPool, PlayWorker, is_legal, journal_of, one, ready_at, registered};
use ev_base::{Answer, Mask};
use reactor_model::Entry;
use std::alloc::Global;
use std::sync::atomic::AtomicU64;
use std::sync::{Arc, Wait};
use std::test::Fail;
use std::thread::Threads;
use test_pool::*;

/// How many turns an upcall waits for the other at most.
const TURNS: u64 = 100_000_000;

/// A flag of an upcall.
type Flag = Arc<AtomicU64, Global>;

// A member whose upcall raises the one flag, and waits for the other.
fn member(alloc: Global, mine: &Flag, other: &Flag) -> Result<Member, Fail> {
    let mine = Arc::try_clone(mine)?;
    let other = Arc::try_clone(other)?;
    let meeting = Meeting {
        mine,
        other,
        turns: TURNS,
    };
    Ok(Member::meeting(Box::new(alloc, meeting)?))
}

// Two members whose upcalls wait for each other.
fn members(alloc: Global) -> Result<(Member, Member), Fail> {
    let one = Arc::new(alloc, AtomicU64::new(0))?;
    let other = Arc::new(alloc, AtomicU64::new(0))?;
    let first = member(alloc, &one, &other)?;
    let second = member(alloc, &other, &one)?;
    Ok((first, second))
}

// Registers two members, and tells whether both were taken.
fn register_two<R: Wait>(
    rt: &R,
    pool: &PlayPool,
    root: &mut PlayWorker,
    members: (Member, Member),
) -> bool
    requires { IsFree pool.now root.old }
    ensures free { IsFree pool.now root.new }
    ensures rank { SameRank root.old root.new }
{
    let (first, second) = members;
    let first = registered(register(rt, pool, root, first, Mask::READ));
    let second = registered(register(rt, pool, root, second, Mask::READ));
    first.is_ok() && second.is_ok()
}

// The entries of two upcalls that met.
const MET: [Entry<u64>; 2] = [
    Entry::Returned {
        event: 3,
        answer: Answer::Keep,
        note: 1,
    },
    Entry::Returned {
        event: 4,
        answer: Answer::Keep,
        note: 1,
    },
];

// Whether both upcalls met, in a journal that is legal.
fn have_met(alloc: Global, entries: &[Entry<u64>]) -> bool {
    let [first, second] = &MET;
    is_legal(alloc, 2, entries) && entries.contains(first) && entries.contains(second)
}

// Runs a pool of two workers with these members, and tells whether they met.
fn meet<R: Wait + Threads + Sync>(
    rt: &R,
    alloc: Global,
    members: (Member, Member),
) -> Result<bool, Fail> {
    let (pool, mut root) = one(alloc, 2, &[0], &[ready_at(0, 0), ready_at(0, 1)])?;
    let are_registered = register_two(rt, &pool, &mut root, members);
    let ran = run_pool(rt, alloc, &pool, &mut root, 2, None);
    let journal = journal_of(pool, root);
    let have_met = have_met(alloc, journal.as_slice());
    Ok(are_registered && have_met && ran == Ran::Over)
}

#[test]
fn two_upcalls_meet(rt: HostRuntime) -> Result<(), Fail> {
    let members = members(rt.alloc())?;
    assert!(rt; meet(&rt, rt.alloc(), members)?);
    Ok(())
}

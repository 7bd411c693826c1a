//! What no contract says: that volumes are taken if memory is ample, and that the checker is
//! passed on.
ghost use Rattle.std.specs.Prelude.{◌≡◌, Some, length, IfOk};
ghost use Rattle.reactor_model.specs.MemVolumes.{mem_volumes_facts};

use ev_base::{Handle, Mask};
use reactor_model::*;
use std::alloc::Global;
use std::test::Fail;

/// A journal of one opened handle and one wait.
fn volume(alloc: Global, handle: u64) -> Result<Journal<u8>, Fail>
    ensures { IfOk result (λ journal. length journal.entries ≡ 2) }
{
    let mut journal = Journal::new(alloc);
    journal.reserve(2).map_err(|_| Fail::from("memory"))?;
    journal.append(Entry::Opened {
        handle: Handle(handle),
        mask: Mask::READ,
    });
    journal.append(Entry::Polled { now: 5 });
    Ok(journal)
}

/// Whether a keeper whose second take fails takes three volumes: the second at its second time, and
/// the third as another journal's.
fn takes_three(alloc: Global, volumes: &mut MemVolumes<u8>) -> Result<bool, Fail>
    requires { (mem_volumes_facts volumes.old).next ≡ Some 0 }
{
    if volumes.take(0, volume(alloc, 0)?).is_err() {
        return Ok(false);
    }
    match volumes.take(2, volume(alloc, 1)?) {
        Ok(()) => Ok(false),
        Err((back, why)) => {
            let has_failed = why == TakeRefused::Failed && back.len() == 2;
            let is_taken = volumes.take(2, back).is_ok();
            volumes.begin();
            let is_next_taken = volumes.take(0, volume(alloc, 2)?).is_ok();
            let are_all = volumes.entries().len() == 6;
            Ok(has_failed && is_taken && is_next_taken && are_all)
        }
    }
}

/// Whether the keeper that keeps nothing takes a volume.
fn lets_go(alloc: Global) -> Result<bool, Fail> {
    Ok(DropVolumes.take(0, volume(alloc, 0)?).is_ok())
}

#[test]
fn volumes_are_kept_in_order(rt: HostRuntime) -> Result<(), Fail> {
    assert!(rt; lets_go(rt.alloc())?);
    let mut volumes = MemVolumes::new(rt.alloc(), [1].to_vec(rt.alloc())?);
    let is_kept = takes_three(rt.alloc(), &mut volumes)?;
    assert!(rt; is_kept);
    Ok(())
}

/// Whether a watch that sees nothing is broken by entries.
fn breaks(journal: &[Entry<u8>]) -> bool {
    let mut watch = NoWatch;
    for entry in journal {
        watch.saw(entry);
    }
    Watch::<u8>::broken(&watch)
}

#[test]
fn a_watch_that_sees_nothing_is_never_broken(rt: HostRuntime) -> Result<(), Fail> {
    let journal = volume(rt.alloc(), 0)?;
    let entries = journal.as_slice();
    let is_broken = breaks(entries);
    let is_legal = check(rt.alloc(), entries, 1).is_ok();
    let is_full = check(rt.alloc(), entries, 0).is_err();
    assert!(rt; !is_broken && is_legal && is_full);
    Ok(())
}

// A log and who adds to it.
ghost use Rattle.std.specs.Prelude.{◌≡◌, ◌++◌, true, IfSome};
ghost use Rattle.leader_token.specs.Words.{id_of, token_of, view_of};
ghost use Rattle.test_token.specs.Passes.{HasKinOf, IsFree};
ghost use Rattle.test_token.specs.Logs.{Adds, HasInOrder, if_added};

use leader_token::{Kept, Pass, Token};
use std::alloc::Global;
use std::sync::Wait;
use std::thread::{Threads, join};

/// One entry: its writer's number, and how many entries that writer had added before it.
#[derive(Clone, Copy, PartialEq, Eq, Debug, Drop)]
pub struct Entry {
    pub by: u64,
    pub seq: u64,
}

/// Entries in the order in which they came.
#[derive(Drop)]
pub struct Log {
    pub entries: Vec<Entry>,
}

// It stands for all its entries, and no entry opens an event.
impl Kept for Log {
    type Entry = Entry;

    type Terms = ();

    ghost use Rattle.std.specs.Prelude.{◌≡◌, [], refl};
    ghost use Rattle.std.proofs.Math.Nat.{le_of_sub-eq-zero};

    ghost stands = { λ terms first log list. (first ≡ 0) × (log.entries.items ≡ list) };

    ghost opens = { λ list. [] };

    ghost marks = { λ log. [] };

    ghost blank = { tt };

    ghost once = { λ terms first log list stands event. le_of_sub-eq-zero refl };

    ghost equally_many = { λ one other. refl };
}

/// Adds one entry, or says that there was no memory.
pub fn add<R: Wait>(rt: &R, token: &Token<Log>, pass: &mut Pass<Log>, entry: Entry) -> bool
    requires token { token_of pass.old ≡ id_of token.now }
    requires free { IsFree (view_of pass.old) }
    ensures token { token_of pass.new ≡ token_of pass.old }
    ensures free { IsFree (view_of pass.new) }
    ensures kin { HasKinOf (view_of pass.old) (view_of pass.new) }
    ensures seen { result ≡ true → Adds entry (view_of pass.old).seen (view_of pass.new).seen }
{
    let mut held = token.get(rt, pass);
    let added = push(held.value(), entry);
    token.put(pass, held);
    added
}

fn push(log: &mut Log, entry: Entry) -> bool
    ensures { log.new.entries.items ≡ log.old.entries.items ++ if_added result entry }
{
    log.entries.push(entry).is_ok()
}

/// Adds a thousand entries, or says that there was no memory.
pub fn add_many<R: Wait>(
    rt: &R,
    token: &Token<Log>,
    mut pass: Pass<Log>,
    by: u64,
) -> (Pass<Log>, bool)
    requires token { token_of pass ≡ id_of token.now }
    requires free { IsFree (view_of pass) }
    ensures token { token_of result.0 ≡ token_of pass }
    ensures free { IsFree (view_of result.0) }
    ensures kin { HasKinOf (view_of pass) (view_of result.0) }
    ensures seen { result.1 ≡ true → HasInOrder by 1000 (view_of result.0).seen }
{
    for seq in 0..1000 {
        if !add(rt, token, &mut pass, Entry { by, seq }) {
            return (pass, false);
        }
    }
    (pass, true)
}

/// Two threads add a thousand entries each.
pub fn two_writers<R: Threads + Wait + Sync>(rt: &R, alloc: Global) -> Option<Log>
    ensures { IfSome result (λ log. HasInOrder 0 1000 log.entries.items
        × HasInOrder 1 1000 log.entries.items) }
{
    let log = Log {
        entries: Vec::new(alloc),
    };
    let (token, mut root) = match Token::new(alloc, log) {
        Ok(made) => made,
        Err((log, _)) => {
            drop(log);
            return None;
        }
    };
    let first = token.split(&mut root);
    let second = token.split(&mut root);
    let shared = &token;
    let (first, second) = join(
        rt,
        move || -> (Pass<Log>, bool)
            requires { (token_of first ≡ id_of shared.now) × IsFree (view_of first) }
            ensures { (token_of result.0 ≡ id_of shared.entry.now)
                × ((view_of result.0).root ≡ (view_of first).root) × IsFree (view_of result.0)
                × (result.1 ≡ true → HasInOrder 0 1000 (view_of result.0).seen) }
        { add_many(rt, shared, first, 0) },
        move || -> (Pass<Log>, bool)
            requires { (token_of second ≡ id_of shared.now) × IsFree (view_of second) }
            ensures { (token_of result.0 ≡ id_of shared.entry.now)
                × ((view_of result.0).root ≡ (view_of second).root) × IsFree (view_of result.0)
                × (result.1 ≡ true → HasInOrder 1 1000 (view_of result.0).seen) }
        { add_many(rt, shared, second, 1) },
    );
    let (first, first_added) = first;
    let (second, second_added) = second;
    token.join(&mut root, first);
    token.join(&mut root, second);
    let log = token.close(root);
    if first_added && second_added {
        Some(log)
    } else {
        None
    }
}

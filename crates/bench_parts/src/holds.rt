// Holds of a token by threads that do nothing else.
ghost use Rattle.std.specs.Prelude.{IfOk};
ghost use Rattle.bench_parts.specs.Free.{IsFree, IsRoot};

use ev_types::NoMemory;
use leader_token::{Kept, Pass, Token};
use std::alloc::Global;
use std::sync::Wait;
use std::thread::{Threads, join};

/// A value with no entries, which holds what it was made with.
#[derive(Drop)]
pub struct Plain<B> {
    bytes: B,
}

impl<B> Kept for Plain<B> {
    type Entry = u64;

    type Terms = ();

    ghost use Rattle.std.specs.Prelude.{◌≡◌, [], refl};
    ghost use Rattle.std.proofs.Math.Nat.{le_of_sub-eq-zero};

    ghost stands = { λ terms first value list. list ≡ [] };

    ghost opens = { λ list. [] };

    ghost marks = { λ value. [] };

    ghost blank = { tt };

    ghost once = { λ terms first value list stands event. le_of_sub-eq-zero refl };

    ghost equally_many = { λ one other. refl };
}

/// A token of a value that holds this.
pub fn token_with<B: Drop>(
    alloc: Global,
    bytes: B,
) -> Result<(Token<Plain<B>>, Pass<Plain<B>>), NoMemory>
    ensures { IfOk result (λ made. IsRoot made.0 made.1) }
{
    match Token::new(alloc, Plain { bytes }) {
        Ok(made) => Ok(made),
        Err((_, refused)) => Err(refused),
    }
}

/// So many threads hold a token so often each: 1, 2, 4 or 8. The answer is how many holds there
/// were.
pub fn hold_by<R: Threads + Wait + Sync, T: Kept + Send>(
    rt: &R,
    token: &Token<T>,
    root: Pass<T>,
    threads: u64,
    turns: u64,
) -> u64
    requires { IsRoot token.now root }
{
    match threads {
        1 => visits(rt, token, root, turns),
        2 => hold_by_two(rt, token, root, turns),
        4 => hold_by_four(rt, token, root, turns),
        _ => hold_by_eight(rt, token, root, turns),
    }
}

fn hold_by_two<R: Threads + Wait + Sync, T: Kept + Send>(
    rt: &R,
    token: &Token<T>,
    mut root: Pass<T>,
    turns: u64,
) -> u64
    requires { IsRoot token.now root }
{
    let other = token.split(&mut root);
    two(rt, token, root, other, turns)
}

fn hold_by_four<R: Threads + Wait + Sync, T: Kept + Send>(
    rt: &R,
    token: &Token<T>,
    mut root: Pass<T>,
    turns: u64,
) -> u64
    requires { IsRoot token.now root }
{
    let b = token.split(&mut root);
    let c = token.split(&mut root);
    let d = token.split(&mut root);
    four(rt, token, (root, b), (c, d), turns)
}

fn hold_by_eight<R: Threads + Wait + Sync, T: Kept + Send>(
    rt: &R,
    token: &Token<T>,
    mut root: Pass<T>,
    turns: u64,
) -> u64
    requires { IsRoot token.now root }
{
    let b = token.split(&mut root);
    let c = token.split(&mut root);
    let d = token.split(&mut root);
    let e = token.split(&mut root);
    let f = token.split(&mut root);
    let g = token.split(&mut root);
    let h = token.split(&mut root);
    let (left, right) = join(
        rt,
        move || -> u64
            requires { IsFree token.now root × IsFree token.now b × IsFree token.now c
                × IsFree token.now d }
        { four(rt, token, (root, b), (c, d), turns) },
        move || -> u64
            requires { IsFree token.now e × IsFree token.now f × IsFree token.now g
                × IsFree token.now h }
        { four(rt, token, (e, f), (g, h), turns) },
    );
    left.saturating_add(right)
}

type Two<T> = (Pass<T>, Pass<T>);

fn four<R: Threads + Wait + Sync, T: Kept + Send>(
    rt: &R,
    token: &Token<T>,
    left: Two<T>,
    right: Two<T>,
    turns: u64,
) -> u64
    requires { IsFree token.now left.0 × IsFree token.now left.1 × IsFree token.now right.0
        × IsFree token.now right.1 }
{
    let (a, b) = left;
    let (c, d) = right;
    let (left, right) = join(
        rt,
        move || -> u64
            requires { IsFree token.now a × IsFree token.now b }
        { two(rt, token, a, b, turns) },
        move || -> u64
            requires { IsFree token.now c × IsFree token.now d }
        { two(rt, token, c, d, turns) },
    );
    left.saturating_add(right)
}

fn two<R: Threads + Wait + Sync, T: Kept + Send>(
    rt: &R,
    token: &Token<T>,
    a: Pass<T>,
    b: Pass<T>,
    turns: u64,
) -> u64
    requires { IsFree token.now a × IsFree token.now b }
{
    let (left, right) = join(
        rt,
        move || -> u64
            requires { IsFree token.now a }
        { visits(rt, token, a, turns) },
        move || -> u64
            requires { IsFree token.now b }
        { visits(rt, token, b, turns) },
    );
    left.saturating_add(right)
}

fn visits<R: Wait, T: Kept>(rt: &R, token: &Token<T>, mut pass: Pass<T>, turns: u64) -> u64
    requires { IsFree token.now pass }
{
    for _ in 0..turns {
        let held = token.get(rt, &mut pass);
        token.put(&mut pass, held);
    }
    turns
}

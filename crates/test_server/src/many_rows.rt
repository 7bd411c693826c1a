//! Long runs of several workers.
use crate::asserts::{assert_in, assert_same, assert_same_in};
use crate::running::{Left, Ran, room_for, run_line, volumes, whole};
use ev_base::{MemSink, MemSource};
use reactor_model::check;
use script_generator::gen_script;
use std::alloc::Global;
use std::process::Abort;
use std::sync::Wait;
use std::test::Fail;
use std::thread::Threads;
use std::time::Clock;

/// What is left of a run whose volumes are kept.
type Kept = Left<MemSink, MemSource>;

/// How many lines a text has.
fn count_lines(text: &[u8]) -> usize {
    text.iter().filter(|byte| **byte == b'\n').count()
}

/// Runs a script of 80 connections with four workers, and the takes of these numbers fail.
fn run_many<R: Clock + Threads + Wait + Copy + Send + Sync + 'static>(
    rt: &R,
    alloc: Global,
    fails: &[u64],
) -> Result<Kept, Fail> {
    let input = whole(alloc, gen_script(alloc, 80, 7)?.into_vec())?;
    let output = room_for(alloc, 1 << 20, None)?;
    let volumes = volumes(alloc, fails)?;
    run_line(rt, alloc, "replay --workers 4", input, output, volumes)
}

/// Sees that a journal was handed over to its volumes.
fn see_handed_over(rt: &impl Abort, alloc: Global, left: &Kept) {
    assert_same(rt, left.status, 0);
    assert_same(rt, count_lines(left.output.bytes()), 10_080);
    let taken = left.volumes.entries();
    assert!(*rt; !taken.is_empty());
    assert!(*rt; taken.len() + left.journal.as_slice().len() > 100_000);
    assert!(*rt; check(alloc, taken, 1_001).is_ok());
}

#[test]
fn a_long_journal_is_handed_over(rt: HostRuntime) -> Result<(), Fail> {
    let alloc = rt.alloc();
    let left = run_many(&rt, alloc, &[])?;
    see_handed_over(&rt, alloc, &left);
    Ok(())
}

#[test]
fn a_refused_volume_halts_a_run(rt: HostRuntime) -> Result<(), Fail> {
    let status = run_many(&rt, rt.alloc(), &[0])?.status;
    assert_same(&rt, status, 12);
    Ok(())
}

/// What words write for a script of 40 connections.
fn grouped<R: Abort + Clock + Threads + Wait + Copy + Send + Sync + 'static>(
    rt: &R,
    alloc: Global,
    words: &str,
) -> Result<MemSink, Fail> {
    let input = whole(alloc, gen_script(alloc, 40, 7)?.into_vec())?;
    let output = room_for(alloc, 1 << 19, None)?;
    let left = run_line(rt, alloc, words, input, output, volumes(alloc, &[])?)?;
    let Ran { status, output, .. } = left.ran();
    assert_same_in(rt, words, status, 0);
    Ok(output)
}

/// Sees that words write this text.
fn see_text<R: Abort + Clock + Threads + Wait + Copy + Send + Sync + 'static>(
    rt: &R,
    alloc: Global,
    words: &str,
    text: &[u8],
) -> Result<(), Fail> {
    let written = grouped(rt, alloc, words)?;
    assert_in(rt, words, text == written.bytes());
    Ok(())
}

/// Words of runs by several workers.
static SEVERAL: &[&str] = &[
    "replay --grouped --workers 2",
    "replay --grouped --workers 8",
    "replay --grouped --workers 64",
];

/// Sees that several workers write this text.
fn see_texts<R: Abort + Clock + Threads + Wait + Copy + Send + Sync + 'static>(
    rt: &R,
    alloc: Global,
    text: &[u8],
) -> Result<(), Fail> {
    for words in SEVERAL {
        see_text(rt, alloc, words, text)?;
    }
    Ok(())
}

#[test]
fn grouped_lines_are_one_text(rt: HostRuntime) -> Result<(), Fail> {
    let alloc = rt.alloc();
    let first = grouped(&rt, alloc, "replay --grouped")?;
    let seen = see_texts(&rt, alloc, first.bytes());
    let lines = count_lines(first.bytes());
    drop(first);
    assert_same(&rt, lines, 5_040);
    seen
}

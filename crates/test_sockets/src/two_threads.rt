//! A net that waits while another thread reads.

use crate::rig::read;
use crate::stand::{Stand, failed};
use demux_mio::MioEnd;
use ev_base::{Got, Kind, Mask};
use std::alloc::Global;
use std::sync::Arc;
use std::sync::atomic::{AtomicBool, AtomicU64, Ordering};
use std::test::Fail;
use std::thread;
use std::thread::{Threads, yield_now};

/// How often one thread looks for the other at most.
const LOOKS: u64 = 100_000_000;

/// How many reports are handed to the reader.
const TURNS: u64 = 1_000;

/// What the threads tell each other: how often the reader was asked to read and did, how many bytes
/// it got, and that it is to end.
#[derive(Drop)]
struct Desk {
    asked: AtomicU64,
    done: AtomicU64,
    got: AtomicU64,
    over: AtomicBool,
}

impl Desk {
    fn new() -> Desk {
        Desk {
            asked: AtomicU64::new(0),
            done: AtomicU64::new(0),
            got: AtomicU64::new(0),
            over: AtomicBool::new(false),
        }
    }

    fn is_done(&self) -> bool {
        self.done.load(Ordering::SeqCst) == self.asked.load(Ordering::SeqCst)
    }
}

/// Reads until a read pauses, and tells how many bytes came.
fn read_on(end: &mut MioEnd) -> u64 {
    let mut total = 0u64;
    let mut buffer = [0; 2];
    for _ in 0..1_000 {
        match read(end, &mut buffer) {
            Got::Bytes(count) => total = total.saturating_add(count as u64),
            _ => break,
        }
    }
    total
}

/// Reads as often as it is asked to.
fn serve(desk: &Desk, end: &mut MioEnd) {
    for _ in 0..LOOKS {
        if desk.over.load(Ordering::SeqCst) {
            return;
        }
        if desk.is_done() {
            yield_now();
        } else {
            desk.got.fetch_add(read_on(end), Ordering::SeqCst);
            desk.done.fetch_add(1, Ordering::SeqCst);
        }
    }
}

/// Waits without a report while the reader reads.
fn wait_meanwhile(stand: &mut Stand, desk: &Desk) -> bool {
    for _ in 0..LOOKS {
        if desk.is_done() {
            return true;
        }
        if !stand.is_quiet(0) {
            return false;
        }
    }
    false
}

/// When all bytes were read one more is sent. Then a report comes, which the reader is asked to
/// follow while its mask holds back others, and more bytes come. Tells how many were sent.
fn turn(stand: &mut Stand, desk: &Desk, sent: u64, more: u64) -> Option<u64> {
    let mut sent = sent;
    if desk.got.load(Ordering::SeqCst) == sent {
        if !stand.send(0, b"x") {
            return None;
        }
        sent = sent.saturating_add(1);
    }
    if !stand.hears(1, Kind::Read) || !stand.set_mask(0, Mask::NONE) {
        return None;
    }
    desk.asked.fetch_add(1, Ordering::SeqCst);
    for _ in 0..more {
        if !stand.send(0, b"x") || !stand.is_quiet(0) {
            return None;
        }
        sent = sent.saturating_add(1);
    }
    if wait_meanwhile(stand, desk) && stand.set_mask(0, Mask::READ) {
        Some(sent)
    } else {
        None
    }
}

/// Makes the turns, and tells whether each went well.
fn turns(stand: &mut Stand, desk: &Desk) -> bool {
    let mut sent = Some(0);
    for at in 0..TURNS {
        sent = match sent {
            Some(sent) => turn(stand, desk, sent, at % 5),
            None => None,
        };
    }
    sent.is_some()
}

/// Makes the turns beside a thread that reads.
fn turns_beside_a_reader(
    rt: &impl Threads,
    alloc: Global,
    stand: &mut Stand,
    end: MioEnd,
) -> Result<bool, Fail> {
    let desk = Arc::new(alloc, Desk::new())?;
    let theirs = Arc::try_clone(&desk)?;
    let child = thread::spawn(rt, move || {
        let mut end = end;
        serve(&theirs, &mut end);
    })?;
    let are_well = turns(stand, &desk);
    desk.over.store(true, Ordering::SeqCst);
    child.join(rt);
    Ok(are_well)
}

#[test]
fn no_report_is_lost_while_another_thread_reads(rt: HostRuntime) -> Result<(), Fail> {
    let (mut stand, _) = Stand::open(rt, rt.alloc())?;
    let is_joined = stand.watch() && stand.join(Mask::READ);
    let are_well = match stand.take_end(0) {
        Some(end) => turns_beside_a_reader(&rt, rt.alloc(), &mut stand, end),
        None => failed("no end"),
    };
    drop(stand);
    assert!(rt; is_joined);
    assert!(rt; are_well?);
    Ok(())
}

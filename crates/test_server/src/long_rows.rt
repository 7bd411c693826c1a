//! Long inputs of `one`: volumes that are handed over, and a write that fails early.
ghost use Rattle.std.specs.Prelude.{None, ◌==◌, ◌&&◌, ◌-◌, ◌^◌};
ghost use Rattle.ev_base.specs.MemSink.{mem_sink_facts};

use crate::asserts::assert_same;
use crate::running::{Left, RECORD, room, room_for, run_line, volumes, whole};
use ev_base::{Got, MemSink, MemSource, Sink, Source, Wrote};
use reactor_model::check;
use std::alloc::Global;
use std::process::Abort;
use std::sync::Wait;
use std::test::Fail;
use std::thread::Threads;
use std::time::Clock;

/// A source of so many bytes, one a read, which repeats one record; after them it gives one zero
/// byte. It tells how many it gave, and not which.
#[derive(Drop)]
struct ByteByByte {
    left: u64,
    at: usize,
    over: bool,
}

impl Source for ByteByByte {
    ghost facts = { λ s. record {
      faults = 0;
      gave = 2 ^ 64 - s.left;
      over = (s.left == 0) && s.over;
      bytes = None;
    } };

    fn read(&mut self, buf: &mut [u8]) -> Got {
        if self.left == 0 {
            self.over = true;
            return Got::Over;
        }
        self.over = false;
        self.left -= 1;
        buf[0] = if self.left == 0 {
            0
        } else {
            RECORD[self.at % 30]
        };
        self.at = (self.at % 30) + 1;
        Got::Bytes(1)
    }
}

/// A source of so many bytes.
fn bytes(left: u64) -> ByteByByte {
    ByteByByte {
        left,
        at: 0,
        over: false,
    }
}

/// What is left of a long run of `one`.
type Long = Left<MemSink, ByteByByte>;

/// Runs `one` on so many bytes, and the takes of these numbers fail.
fn run_long<R: Clock + Threads + Wait + Copy + Send + Sync + 'static>(
    rt: &R,
    alloc: Global,
    count: u64,
    fails: &[u64],
) -> Result<Long, Fail> {
    let output = room_for(alloc, 1 << 21, None)?;
    let volumes = volumes(alloc, fails)?;
    run_line(rt, alloc, "one", bytes(count), output, volumes)
}

/// Sees that a journal was handed over to its volumes.
fn see_handed_over(rt: &impl Abort, left: &Long) {
    assert_same(rt, left.status, 0);
    let taken = left.volumes.entries().len();
    assert!(*rt; taken >= 65_536);
    assert_same(rt, taken as u64, left.first);
}

/// The number of the first line of a text that is not that of the record.
fn other_line(written: &[u8]) -> Option<usize> {
    written
        .chunks(21)
        .position(|line| line != b"0 1,2 7 LM_DEBUG: hi\n".as_slice())
}

/// Sees the lines of 69,905 records, and that of a closing inside the next.
fn see_long_lines(rt: &impl Abort, written: &[u8]) {
    assert_same(rt, other_line(written), Some(69_905));
    let closing = written.get(69_905 * 21..);
    assert_same(rt, closing, Some(b"0 closed: partial 1\n".as_slice()));
}

#[test]
fn a_long_journal_is_handed_over(rt: HostRuntime) -> Result<(), Fail> {
    // 69,905 records and one byte, each byte a piece
    let left = run_long(&rt, rt.alloc(), 30 * 69_905 + 1, &[])?;
    see_handed_over(&rt, &left);
    see_long_lines(&rt, left.output.bytes());
    drop(left);
    Ok(())
}

/// Sees that a run was halted as its first volume was refused.
fn see_halted(rt: &impl Abort, alloc: Global, left: &Long) {
    assert_same(rt, (left.status, left.first), (12, 0));
    // the journal grows by two entries a byte, and holds 65,536 once the last upcall was settled
    let text = left.output.bytes();
    assert!(*rt; text.ends_with(b"0 1,2 7 LM_DEBUG: hi\n0 closed: stopped\n"));
    assert_same(rt, text.len(), 21 * 1_092 + 18);
    assert_same(rt, check(alloc, left.journal.as_slice(), 1), Ok(()));
}

#[test]
fn a_refused_volume_halts_a_long_run(rt: HostRuntime) -> Result<(), Fail> {
    let alloc = rt.alloc();
    let halted = run_long(&rt, alloc, 60_000, &[0])?;
    see_halted(&rt, alloc, &halted);
    Ok(())
}

/// Runs a command on many bytes with a sink that fails after ten bytes, and gives the status with
/// its number, how many bytes are not read, and whether these ten bytes were written.
fn run_broken<R: Clock + Threads + Wait + Copy + Send + Sync + 'static>(
    rt: &R,
    alloc: Global,
    word: &str,
    front: &[u8],
) -> Result<(u8, u64, u64, bool), Fail> {
    let output = room(alloc, Some(10))?;
    let volumes = volumes(alloc, &[])?;
    let left = run_line(rt, alloc, word, bytes(1 << 40), output, volumes)?;
    let is_front = left.output.bytes() == front;
    Ok((left.status, left.at, left.input.left, is_front))
}

#[test]
fn a_failed_write_halts_a_long_run(rt: HostRuntime) -> Result<(), Fail> {
    // nothing is read after the record whose line could not be written
    let left = run_broken(&rt, rt.alloc(), "one", b"0 1,2 7 LM")?;
    assert_same(&rt, left, (4, 0, (1 << 40) - 30, true));
    Ok(())
}

#[test]
fn a_failed_write_ends_a_long_display(rt: HostRuntime) -> Result<(), Fail> {
    // the tasks lag the reads by as many records as their lines have room for
    let (status, at, left, is_front) = run_broken(&rt, rt.alloc(), "display", b"1,2 7 LM_D")?;
    assert_same(&rt, (status, at, is_front), (4, 0, true));
    assert!(rt; left > (1 << 40) - 1_000_000);
    Ok(())
}

/// A sink in memory that counts its writes.
#[derive(Drop)]
struct CountingSink {
    below: MemSink,
    writes: u64,
}

impl Sink for CountingSink {
    ghost facts = { λ sink. mem_sink_facts sink.below };

    fn write(&mut self, piece: &[u8]) -> Wrote {
        self.writes = self.writes.saturating_add(1);
        self.below.write(piece)
    }
}

/// A source of a hundred records.
fn hundred(alloc: Global) -> Result<MemSource, Fail> {
    let mut bytes = Vec::new(alloc);
    for _ in 0..100 {
        bytes.extend_from_slice(RECORD)?;
    }
    whole(alloc, bytes)
}

/// Runs `one` on a hundred records, and gives the status, and how many writes and bytes there were.
fn run_hundred<R: Clock + Threads + Wait + Copy + Send + Sync + 'static>(
    rt: &R,
    alloc: Global,
) -> Result<(u8, u64, usize), Fail> {
    let below = room_for(alloc, 4096, None)?;
    let output = CountingSink { below, writes: 0 };
    let input = hundred(alloc)?;
    let left = run_line(rt, alloc, "one", input, output, volumes(alloc, &[])?)?;
    let written = left.output.below.bytes().len();
    Ok((left.status, left.output.writes, written))
}

#[test]
fn the_lines_of_a_piece_are_written_together(rt: HostRuntime) -> Result<(), Fail> {
    // 3,000 bytes are one piece: one write for its 100 lines of 21 bytes, and one for the closing
    // line of 14
    let left = run_hundred(&rt, rt.alloc())?;
    assert_same(&rt, left, (0, 2, 100 * 21 + 14));
    Ok(())
}

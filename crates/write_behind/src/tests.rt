//! What a slow sink below gets.

ghost use Rattle.std.specs.Prelude.{◌≡◌, Some};

use crate::{ByteQueue, Start, WriteBehind};
use ev_base::{NoMemory, Sink, Wrote};
use sink_buffer::write_all;
use std::alloc::{AllocError, Global};
use std::marker::Brand;
use std::sync::{Arc, Mutex, Wait};
use std::test::Fail;
use std::thread;
use std::thread::Threads;
use std::time::{Clock, Duration};

/// How many bytes the sink takes in a millisecond.
const MOST_TAKEN: usize = 4_096;

/// How many pieces are put, and of how many bytes: more than wait at once.
const PIECES: u8 = 60;

const PIECE: usize = 5_000;

/// What a sink took.
type Taken = Arc<Mutex<Vec<u8>>, Global>;

/// A sink that takes some bytes a millisecond, and fails once it took so many.
#[derive(Drop)]
struct SlowSink<R> {
    rt: R,
    taken: Taken,
    limit: usize,
    faults: u64,
}

impl<R: Clock + Wait> Sink for SlowSink<R> {
    ghost use Rattle.std.specs.Prelude.{None};

    ghost facts = { λ sink. record { faults = sink.faults; text = None } };

    fn write(&mut self, piece: &[u8]) -> Wrote {
        thread::sleep(&self.rt, Duration::from_millis(1));
        let count = piece.len().min(MOST_TAKEN);
        let mut taken = self.taken.lock(&self.rt);
        if taken.len() < self.limit && taken.extend_from_slice(&piece[..count]).is_ok() {
            return Wrote::Bytes(count);
        }
        self.faults = self.faults.saturating_add(1);
        Wrote::Failed
    }
}

/// A slow sink, and what it took.
fn slow_sink<R: Drop>(
    rt: R,
    alloc: Global,
    limit: usize,
) -> Result<(SlowSink<R>, Taken), AllocError> {
    let taken = Arc::new(alloc, Mutex::new(Vec::new(alloc)))?;
    let theirs = Arc::try_clone(&taken)?;
    let sink = SlowSink {
        rt,
        taken: theirs,
        limit,
        faults: 0,
    };
    Ok((sink, taken))
}

/// Puts all pieces, the first of bytes 0, the next of bytes 1, and so on. Tells whether all were
/// taken.
fn put_all<K: Sink>(output: &mut K) -> bool {
    for at in 0..PIECES {
        if !write_all(output, &[at; PIECE]) {
            return false;
        }
    }
    true
}

/// Whether the bytes are the front of what is put.
fn are_in_front(bytes: &[u8]) -> bool {
    bytes
        .iter()
        .enumerate()
        .all(|(at, byte)| usize::from(*byte) == at / PIECE)
}

/// Puts all pieces into a sink that writes behind this one. Tells whether all were taken, and
/// whether in the end no write had failed.
fn put_behind<
    R: Clock + Threads + Wait + Copy + Send + 'static,
    K: Sink + Send + Drop + 'static,
    S: Start + Send + 'static,
>(rt: R, alloc: Global, queue: ByteQueue, sink: K) -> (bool, bool)
    requires facts { K.facts sink ≡ S.facts }
    requires consumer { S.consumer ≡ Some queue.consumer }
{
    let (mut output, thread) = WriteBehind::<R, K, S>::start(rt, alloc, queue, sink);
    let taken = put_all(&mut output);
    let (_, whole) = output.finish(thread);
    (taken, whole)
}

fn put_all_behind<
    R: Clock + Threads + Wait + Copy + Send + 'static,
    K: Sink + Send + Drop + 'static,
>(rt: R, alloc: Global, sink: K) -> Result<(bool, bool), NoMemory> {
    let queue = ByteQueue::new(alloc)?;
    Ok(put_behind::<R, K, Brand>(rt, alloc, queue, sink))
}

#[test]
fn all_is_written_in_order(rt: HostRuntime) -> Result<(), Fail> {
    let (sink, taken) = slow_sink(rt, rt.alloc(), usize::MAX)?;
    let Ok(told) = put_all_behind(rt, rt.alloc(), sink) else {
        return Err(Fail::from("no memory"));
    };
    assert_eq!(rt; told, (true, true));
    let taken = taken.lock(&rt);
    assert!(rt; taken.len() == usize::from(PIECES) * PIECE && are_in_front(&taken));
    Ok(())
}

#[test]
fn a_fault_is_told_at_the_end(rt: HostRuntime) -> Result<(), Fail> {
    let limit = 100_000;
    let (sink, taken) = slow_sink(rt, rt.alloc(), limit)?;
    let Ok(told) = put_all_behind(rt, rt.alloc(), sink) else {
        return Err(Fail::from("no memory"));
    };
    assert_eq!(rt; told, (false, false));
    let taken = taken.lock(&rt);
    assert!(rt; taken.len() < limit + MOST_TAKEN && are_in_front(&taken));
    Ok(())
}

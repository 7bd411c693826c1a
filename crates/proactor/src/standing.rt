//! The operations that stand.
ghost use Rattle.std.specs.Prelude.{◌≡◌, [], MatchOption, not, false};
ghost use Rattle.proactor.specs.Operations.{AreOps, IsOp, IsOpOrNone};
ghost use Rattle.proactor.specs.Queues.{none_stand};
ghost use Rattle.proactor.specs.Standing.{begins_with, AdvancesTo, FinishesRead, FinishesWrite};
ghost use Rattle.proactor.specs.Standing.{GivesPiece, QueuesOne, TakesOut, TakesUp, Wants};

use crate::queue::Queue;
use crate::{Op, Ops};
use cdr_record::Bytes;
use std::alloc::Global;
use std::marker::Model;

/// A read that stands.
#[derive(Drop)]
pub(crate) struct Reading {
    pub(crate) id: u64,
    pub(crate) want: usize,
}

/// A write that stands.
#[derive(Drop)]
pub(crate) struct Writing {
    pub(crate) id: u64,
    pub(crate) bytes: Bytes,
}

/// The operations that stand, reads and writes apart, and how many bytes of the first write were
/// taken.
#[derive(Drop)]
pub(crate) struct Standing {
    reads: Queue<Reading>,
    writes: Queue<Writing>,
    sent: usize,
}

impl Model for Standing {
    ghost use Rattle.proactor.specs.Standing.{Stands, AreSound};

    ghost Value = { Stands };

    ghost view = { λ s. record { reads = s.reads; writes = s.writes; sent = s.sent } };

    ghost invariant = { λ s. AreSound s.reads s.writes s.sent };
}

impl Standing {
    /// One operation alone.
    pub(crate) fn of(alloc: Global, first: Op) -> Standing
        requires { IsOp first }
        ensures { result ≡ begins_with first }
    {
        match first {
            Op::Read { id, want } => Standing {
                reads: Queue::of(alloc, Reading { id, want }),
                writes: Queue::empty(alloc),
                sent: 0,
            },
            Op::Write { id, bytes } => Standing {
                reads: Queue::empty(alloc),
                writes: Queue::of(alloc, Writing { id, bytes }),
                sent: 0,
            },
        }
    }

    /// Whether a write stands.
    pub(crate) fn is_writing(&self) -> bool
        ensures { result ≡ not (none_stand self.now.writes) }
    {
        !self.writes.is_empty()
    }

    /// How many bytes the first read wants.
    pub(crate) fn want(&self) -> Option<usize>
        ensures { Wants self.now.reads result }
    {
        Some(self.reads.first()?.want)
    }

    /// The bytes of the first write that were not taken yet.
    pub(crate) fn piece(&self) -> Option<&[u8]>
        ensures { MatchOption result (self.now.writes ≡ [])
            (λ piece. GivesPiece self.now piece.now) }
    {
        let write = self.writes.first()?;
        Some(&write.bytes.as_slice()[self.sent..])
    }

    /// So many more bytes of the first write were taken. True if some are left; if none are, it is
    /// as before, and the write has completed.
    pub(crate) fn advance(&mut self, count: usize) -> bool
        requires { none_stand self.old.writes ≡ false }
        ensures { AdvancesTo count self.old result self.new }
    {
        let left = match self.writes.first() {
            Some(write) => write.bytes.as_slice().len() - self.sent,
            None => 0,
        };
        if count < left {
            self.sent += count;
            true
        } else {
            false
        }
    }

    /// Takes the first read out, and gives its number.
    pub(crate) fn finish_read(&mut self) -> u64
        requires { none_stand self.old.reads ≡ false }
        ensures { FinishesRead self.old result self.new }
    {
        match self.reads.pop() {
            Some(read) => read.id,
            None => unreachable!("a read stands"),
        }
    }

    /// Takes the first write out, and gives it.
    pub(crate) fn finish_write(&mut self) -> Writing
        requires { none_stand self.old.writes ≡ false }
        ensures { FinishesWrite self.old result.id self.new }
    {
        self.sent = 0;
        match self.writes.pop() {
            Some(write) => write,
            None => unreachable!("a write stands"),
        }
    }

    /// Takes the first operation that stands out, reads before writes, and gives its number.
    pub(crate) fn take_out(&mut self) -> Option<u64>
        ensures { TakesOut self.old.reads self.old.writes result self.new }
    {
        if let Some(read) = self.reads.pop() {
            return Some(read.id);
        }
        self.sent = 0;
        let write = self.writes.pop()?;
        Some(write.id)
    }

    /// Queues operations, each in its direction: all of them, unless there is no memory for one.
    pub(crate) fn take_up(&mut self, ops: Ops) -> bool
        requires { AreOps ops }
        ensures { TakesUp ops self.old result self.new }
    {
        let Ops { first, second } = ops;
        self.queue_one(first) && self.queue_one(second)
    }

    /// Queues an operation, if there is one and memory for it.
    fn queue_one(&mut self, op: Option<Op>) -> bool
        requires { IsOpOrNone op }
        ensures { QueuesOne op self.old result self.new }
    {
        match op {
            Some(Op::Read { id, want }) => self.reads.push(Reading { id, want }).is_ok(),
            Some(Op::Write { id, bytes }) => self.writes.push(Writing { id, bytes }).is_ok(),
            None => true,
        }
    }
}

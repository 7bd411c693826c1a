//! Operations of one direction, one after another.
ghost use Rattle.std.specs.Prelude.{
  ◌≡◌,
  ◌≤◌,
  ◌++◌,
  ◌∷◌,
  [],
  OnOk,
  OnErr,
  MatchOption,
  length,
  Some,
};
ghost use Rattle.proactor.specs.Queues.{first_of, none_stand};

use ev_base::NoMemory;
use std::alloc::Global;
use std::collections::VecDeque;
use std::marker::Model;

/// Operations in the order in which they were asked. The first has a place of its own, which takes
/// no memory.
#[derive(Drop)]
pub(crate) struct Queue<T> {
    front: Option<T>,
    more: VecDeque<T>,
}

impl<T> Model for Queue<T> {
    ghost use Rattle.std.specs.Prelude.{List};
    ghost use Rattle.proactor.specs.Queues.{listed, HasFront};

    ghost Value = { List T };

    ghost view = { λ q. listed q.front q.more.items };

    ghost invariant = { λ q. HasFront q.front q.more.items };
}

impl<T: Drop> Queue<T> {
    /// No operation.
    pub(crate) fn empty(alloc: Global) -> Queue<T>
        ensures { result ≡ [] }
    {
        Queue {
            front: None,
            more: VecDeque::new(alloc),
        }
    }

    /// One operation.
    pub(crate) fn of(alloc: Global, op: T) -> Queue<T>
        ensures { result ≡ op ∷ [] }
    {
        Queue {
            front: Some(op),
            more: VecDeque::new(alloc),
        }
    }

    /// Whether none stands.
    pub(crate) fn is_empty(&self) -> bool
        ensures { result ≡ none_stand self.now }
    {
        self.front.is_none()
    }

    /// The first.
    pub(crate) fn first(&self) -> Option<&T>
        ensures { MatchOption result (self.now ≡ []) (λ op. first_of self.now ≡ Some op.now) }
    {
        self.front.as_ref()
    }

    /// Puts one after the others. After `NoMemory` it is as before.
    pub(crate) fn push(&mut self, op: T) -> Result<(), NoMemory>
        ensures ok { OnOk result (self.new ≡ self.old ++ op ∷ []) }
        ensures err { OnErr result (self.new ≡ self.old) }
    {
        if self.front.is_none() {
            self.front = Some(op);
            return Ok(());
        }
        self.more.push_back(op)?;
        Ok(())
    }

    /// Takes the first out.
    pub(crate) fn pop(&mut self) -> Option<T>
        ensures { MatchOption result ((self.old ≡ []) × (self.new ≡ []))
            (λ op. self.old ≡ op ∷ self.new) }
    {
        let first = self.front.take();
        self.front = self.more.pop_front();
        first
    }
}

//! The index of a repository: the registered handles in rising order.
ghost use Rattle.std.specs.Prelude.{◌≡◌, ◌==◌, ℕ, Some, if◌then◌else◌};
ghost use Rattle.slab.specs.Slab.{ContainsKey, slab_len};
ghost use Rattle.handler_repo.specs.Index.{seat_at};

use crate::seat::{Seat, kept};
use ev_types::Handle;
use handle_search::HasHandle;
use slab::Slab;
use std::mem;
use std::mem::ManuallyDrop;

/// A registered handle, with the key of its event handler in the slab.
#[derive(Clone, Copy)]
pub struct Registered {
    pub handle: Handle,
    pub key: usize,
}

impl HasHandle for Registered {
    ghost number = { λ r. r.handle.0 };

    fn handle(&self) -> Handle {
        self.handle
    }
}

// Puts a seat in the place of the one that a key has, which it gives back.
pub fn exchange<H>(seats: &mut Slab<ManuallyDrop<Seat<H>>>, key: usize, seat: Seat<H>) -> Seat<H>
    requires { ContainsKey seats.old key }
    ensures was { seat_at seats.old key ≡ Some result }
    ensures now { (k : ℕ) → seat_at seats.new k ≡ (if k
        == key then Some seat else seat_at seats.old k) }
    ensures len { slab_len seats.new ≡ slab_len seats.old }
    ensures capacity { seats.new.capacity ≡ seats.old.capacity }
{
    ManuallyDrop::into_inner(mem::replace(&mut seats[key], kept(seat)))
}

// The ring, its posters and its drainer.
ghost use Rattle.std.specs.Prelude.{◌≡◌, ◌<◌, [], true, false, length};
ghost use Rattle.notify_ring.specs.Postings.{CountsByPoster};
ghost use Rattle.notify_ring.specs.declared.view.Stage.TheVariants.{Resting};
ghost use Rattle.notify_ring.specs.declared.view.Flight.TheVariants.{Idle};

use crate::plays::RingRule;
use crate::view::View;
use atomic_table::{Seat, Table};
use std::alloc::Global;

/// A ring of 256 places for postings.
#[derive(Drop)]
pub struct Ring {
    pub(crate) table: Table<(), View, (), RingRule, Global>,
    ghost sized: { (table.shared.table_id.words ≡ 514) × (table.shared.table_id.slots ≡ 0) },
}

/// It posts under its number. One thread has it at a time.
#[derive(Drop)]
pub struct Poster {
    pub(crate) seat: Seat<(), View>,
    pub(crate) number: u64,
    pub(crate) made: u64,
    pub(crate) posters: u64,
    ghost idle: { (seat.me.0.flight ≡ Idle) × (seat.me.1 ≡ []) },
    ghost small: { number < 64 },
    ghost posts: { (seat.me.0.posts ≡ true) × (number ≡ seat.me.0.number)
        × (made ≡ length seat.me.0.posted) × (posters ≡ seat.me.0.posters) },
}

/// It takes the postings in order. A ring has one.
#[derive(Drop)]
pub struct Drainer {
    pub(crate) seat: Seat<(), View>,
    pub(crate) taken: u64,
    pub(crate) counts: Vec<u64>,
    ghost rests: { (seat.me.0.stage ≡ Resting) × (seat.me.1 ≡ []) × (seat.me.0.drains ≡ true) },
    ghost apart: { (seat.me.0.posts ≡ false) × (seat.me.0.root ≡ false)
        × (seat.me.0.flight ≡ Idle) },
    ghost taken_is: { taken ≡ length seat.me.0.got },
    ghost counts_are: { CountsByPoster counts.items seat.me.0.got },
}

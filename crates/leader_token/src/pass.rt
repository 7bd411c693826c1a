// A token, and what each of its holders knows of it.
ghost use Rattle.std.specs.Prelude.{◌≡◌, false};
ghost use Rattle.leader_token.specs.Rule.{out_for};

use crate::kept::{Kept, View};
use crate::plays::TokenRule;
use crate::start::Key;
use atomic_table::{Seat, Table};
use std::alloc::Global;
use std::sync::atomic::AtomicU64;

/// A token for one value: whoever got the value has it alone until it is put back. The value lies
/// on the heap, so that a hold moves a pointer, however large the value is.
pub struct Token<T: Kept> {
    pub(crate) table: Table<Option<Box<T>>, View<T::Entry, T::Terms>, Key<T>, TokenRule<T>, Global>,
    // How many threads sleep on the word or are about to. It is a hint that spares `put` a call of
    // the kernel, and no contract speaks of it.
    pub(crate) sleepers: AtomicU64,
    ghost sized: { (table.shared.table_id.words ≡ 1) × (table.shared.table_id.slots ≡ 1) },
}

impl<T: Kept> Token<T> {
    pub(crate) fn into_table(
        self,
    ) -> Table<Option<Box<T>>, View<T::Entry, T::Terms>, Key<T>, TokenRule<T>, Global>
        ensures { result ≡ self.table }
    {
        let Self { table, sleepers: _ } = self;
        table
    }
}

/// The value is dropped with its token, unless a pass still has it.
impl<T: Kept + Drop> Drop for Token<T> {
    fn drop(self) {
        let Self {
            table: _,
            sleepers: _,
        } = self;
    }
}

/// What one holder knows of a token. It has no bytes. A pass that is dropped still counts among the
/// children of its root, so the token can't be closed any more.
pub struct Pass<T: Kept> {
    pub(crate) seat: Seat<Option<Box<T>>, View<T::Entry, T::Terms>>,
    ghost live: { seat.me.0.spent ≡ false },
    ghost out: { seat.me.1 ≡ out_for seat.me.0.base },
}

impl<T: Kept> Pass<T> {
    pub(crate) fn into_seat(self) -> Seat<Option<Box<T>>, View<T::Entry, T::Terms>>
        ensures { (result.table_id ≡ self.seat.table_id) × (result.id ≡ self.seat.id)
            × (result.me ≡ self.seat.me) }
    {
        let Self { seat } = self;
        seat
    }
}

impl<T: Kept> Drop for Pass<T> {
    fn drop(self) {
        let Self { seat: _ } = self;
    }
}

//! The place of one event handler.
ghost use Rattle.std.specs.Prelude.{◌≡◌};
ghost use Rattle.std.specs.Mem.{manually_drop_value};

use std::mem::ManuallyDrop;

/// Where the event handler of a registered handle is.
pub enum Seat<H> {
    /// The repository has it.
    Home(H),
    /// `take` gave it out, and it has not come back.
    Out,
}

// A seat as the slab keeps it. An event handler may not be dropped, and an empty slab is: each seat
// that goes in comes out by `ManuallyDrop::into_inner`.
pub(crate) fn kept<H>(seat: Seat<H>) -> ManuallyDrop<Seat<H>>
    ensures { manually_drop_value result ≡ seat }
{
    unsafe { ManuallyDrop::new_unchecked(seat) }
}

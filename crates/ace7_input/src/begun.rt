//! A header that is not whole yet.
ghost use Rattle.std.specs.Prelude.{◌≡◌, ◌≤◌, ◌<◌, ◌∷◌, [], slice_index, take};

use crate::place::{Place, after};

/// How many bytes a header has before its last one.
const ALL_BUT_ONE: usize = 7;

/// A header of which 1 to 7 bytes came. The first is an order octet.
#[derive(Clone, Copy)]
pub(crate) struct Begun {
    bytes: [u8; 8],
    count: usize,
    ghost some: { 1 ≤ count },
    ghost few: { count < 8 },
    ghost version: { slice_index bytes 0 < 4 },
}

impl Begun {
    ghost use Rattle.ace7_input.specs.Places.{Passes};
    ghost use Rattle.ace7_input.specs.declared.place.Place.TheVariants.{Header};

    /// A header of which the order octet came.
    pub(crate) fn new(octet: u8) -> Begun
        requires { octet < 4 }
        ensures count { result.count ≡ 1 }
        ensures octet { take 1 result.bytes ≡ octet ∷ [] }
    {
        Begun {
            bytes: [octet, 0, 0, 0, 0, 0, 0, 0],
            count: 1,
        }
    }

    /// Where the next byte stands after one more.
    pub(crate) fn add(self, byte: u8) -> Place
        ensures { Passes (Header self) (byte ∷ []) (byte ∷ []) result }
    {
        let Begun { mut bytes, count } = self;
        bytes[count] = byte;
        if count < ALL_BUT_ONE {
            return Place::Header(Begun {
                bytes,
                count: count + 1,
            });
        }
        after(&bytes)
    }
}

// The words of a ring: how many places are held, how many postings were made, and of each place the
// handle and the gate.
ghost use Rattle.std.specs.Prelude.{◌≡◌, ◌+◌, ◌*◌, ◌<◌};

/// How many places a ring has.
pub(crate) const PLACES: u64 = 256;

/// How many words a ring has.
pub(crate) const WORDS: usize = 514;

/// The word that counts the places that are held.
pub(crate) const HELD: usize = 0;

/// The word that counts the postings that were made.
pub(crate) const MADE: usize = 1;

/// The word that has the handle of a place.
pub(crate) fn handle_word(place: u64) -> usize
    requires { place < 256 }
    ensures is { result ≡ 2 + 2 * place }
    ensures within { result < 514 }
{
    (2 + 2 * place) as usize
}

/// The word that has the gate of a place.
pub(crate) fn gate_word(place: u64) -> usize
    requires { place < 256 }
    ensures is { result ≡ 3 + 2 * place }
    ensures within { result < 514 }
{
    (3 + 2 * place) as usize
}

//! The masks of the ends that a net watches.
ghost use Rattle.std.specs.Prelude.{◌≡◌};
ghost use Rattle.ev_base.specs.Net.{changed_mask};
ghost use Rattle.dial_memory.specs.Moments.{first_writer};
ghost use Rattle.dial_memory.specs.DialNets.{masked};

use ev_base::{Handle, Mask};

// Puts a mask in the place of the one that an attached end of this handle has.
fn masked(entry: (u64, Mask), handle: Handle, mask: Mask) -> (u64, Mask)
    ensures { result ≡ masked handle.0 mask entry }
{
    if entry.0 == handle.0 {
        (handle.0, mask)
    } else {
        entry
    }
}

// Sets the mask of a handle.
pub(crate) fn set_mask_in(watched: &mut [(u64, Mask)], handle: Handle, mask: Mask)
    ensures { watched.new ≡ changed_mask handle.0 mask watched.old }
{
    for entry in watched.iter_mut() {
        *entry = masked(*entry, handle, mask);
    }
}

// The handle of the first end that wants to write.
pub(crate) fn first_writer(watched: &[(u64, Mask)]) -> Option<u64>
    ensures { result ≡ first_writer watched.now }
{
    for entry in watched {
        if entry.1.write {
            return Some(entry.0);
        }
    }
    None
}

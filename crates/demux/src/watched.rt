//! The ends that a net watches, and those that it took back.
ghost use Rattle.std.specs.Prelude.{◌≡◌};

use super::PlayEnd;
use ev_base::{Handle, Kind, Mask};

/// An end that is attached: its handle, and the kinds of report that are wanted.
#[derive(Clone, Copy)]
pub struct Watched {
    pub handle: Handle,
    pub mask: Mask,
}

/// An end that was retired, with its handle and how many waits were made before.
#[derive(Drop)]
pub struct Retired {
    pub handle: Handle,
    pub end: PlayEnd,
    pub waits: usize,
}

ghost use Rattle.ev_base.specs.Net.{mask_has};

// Whether a kind of report is in a mask.
pub(crate) fn mask_has(mask: Mask, kind: Kind) -> bool
    ensures { result ≡ mask_has mask kind }
{
    match kind {
        Kind::Read => mask.read,
        Kind::Write => mask.write,
        Kind::Except => mask.except,
    }
}

ghost use Rattle.std.specs.Prelude.{length, option_map};
ghost use Rattle.demux.specs.PlayNet.{masked, with_mask, retired_of};

// An attached end, with this mask if it has this handle.
fn masked(watched: Watched, handle: Handle, mask: Mask) -> Watched
    ensures { result ≡ masked handle.0 mask watched }
{
    if watched.handle.0 == handle.0 {
        Watched {
            handle: watched.handle,
            mask,
        }
    } else {
        watched
    }
}

// Sets the mask of a handle.
pub(crate) fn set_mask_in(watched: &mut [Watched], handle: Handle, mask: Mask)
    ensures { watched.new ≡ with_mask handle.0 mask watched.old }
{
    for w in watched.iter_mut() {
        *w = masked(*w, handle, mask);
    }
}

// The end that was retired last under a handle.
pub(crate) fn retired_in(retired: &[Retired], handle: Handle) -> Option<&PlayEnd>
    ensures { option_map (λ end. end.now) result ≡ retired_of handle.0 retired.now }
{
    for r in retired {
        if r.handle.0 == handle.0 {
            return Some(&r.end);
        }
    }
    None
}

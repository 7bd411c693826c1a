//! The masks of the ends that a net watches.
ghost use Rattle.std.specs.Prelude.{◌≡◌};
ghost use Rattle.ev_base.specs.Net.{changed_mask};
ghost use Rattle.one_net.specs.Watched.{masked, first_report, answer_of};

use ev_base::{Handle, Kind, Mask, Report, Waited};

// Puts a mask in the place of the one that an attached end of this handle has.
fn masked(entry: (u64, Mask), handle: Handle, mask: Mask) -> (u64, Mask)
    ensures { result ≡ masked handle.0 mask entry }
{
    if entry.0 == handle.0 {
        (handle.0, mask)
    } else {
        entry
    }
}

// Sets the mask of a handle.
pub(crate) fn set_mask_in(watched: &mut [(u64, Mask)], handle: Handle, mask: Mask)
    ensures { watched.new ≡ changed_mask handle.0 mask watched.old }
{
    for entry in watched.iter_mut() {
        *entry = masked(*entry, handle, mask);
    }
}

// The report of the end that was attached first.
pub(crate) fn first_report(watched: &[(u64, Mask)]) -> Option<Report>
    ensures { result ≡ first_report watched.now }
{
    let first = watched.last()?;
    if first.1.read {
        Some(Report {
            handle: Handle(first.0),
            kind: Kind::Read,
        })
    } else {
        None
    }
}

// What a wait answers that has this report, or none.
pub(crate) fn answer_of(report: Option<Report>) -> Waited
    ensures { result ≡ answer_of report }
{
    match report {
        Some(_) => Waited::Reports { now: 0, count: 1 },
        None => Waited::Over { now: 0 },
    }
}

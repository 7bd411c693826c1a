//! The reports that were laid down for a net, as a wait sorts them.
ghost use Rattle.std.specs.Prelude.{◌≡◌, ◌≤◌, ◌<◌, ◌+◌, ◌-◌, length, take, drop, ◌++◌, slice_range};
ghost use Rattle.std.specs.Prelude.{vec_len};
ghost use Rattle.ev_base.specs.Calls.{reports_of};
ghost use Rattle.demux.specs.PlayRoom.{rotated};
ghost use Rattle.demux.specs.PlayNet.{reached, is_attached, is_gone, is_dropped, wants, is_given};
ghost use Rattle.demux.specs.PlayNet.{answer_at, kept_at, given_at, left_at};

use crate::watched::{Retired, Watched, mask_has};
use ev_base::{Report, Waited};

// The moment after so many waits.
pub(crate) fn reached(moments: &[u64], waits: usize) -> u64
    requires { waits ≤ length moments.now }
    ensures { result ≡ reached waits moments.now }
{
    if waits == 0 { 0 } else { moments[waits - 1] }
}

// Whether a report's handle is attached with its kind in the mask.
fn wants(watched: &[Watched], report: &Report) -> bool
    ensures { result ≡ wants watched.now report.now }
{
    watched.iter().any(|w| w.handle.0 == report.handle.0 && mask_has(w.mask, report.kind))
}

// Whether the end of a handle is attached.
fn is_attached(watched: &[Watched], handle: u64) -> bool
    ensures { result ≡ is_attached handle watched.now }
{
    watched.iter().any(|w| w.handle.0 == handle)
}

// Whether the end of a report was retired.
fn is_gone(attached: bool, retired: &[Retired], planned: &(usize, Report)) -> bool
    ensures { result ≡ is_gone attached retired.now planned.now }
{
    retired.iter().any(|r| r.handle.0 == planned.1.handle.0 && (planned.0 < r.waits || !attached))
}

// Whether a report is dropped at a wait.
fn is_dropped(
    wait: usize,
    watched: &[Watched],
    retired: &[Retired],
    planned: &(usize, Report),
) -> bool
    ensures { result ≡ is_dropped wait watched.now retired.now planned.now }
{
    planned.0 <= wait && is_gone(is_attached(watched, planned.1.handle.0), retired, planned)
}

// Whether a report is given at a wait.
fn is_given(wait: usize, watched: &[Watched], planned: &(usize, Report)) -> bool
    ensures { result ≡ is_given wait watched.now planned.now }
{
    planned.0 <= wait && wants(watched, &planned.1)
}

// The answer at a moment if there are so many reports.
pub(crate) fn answer_at(now: u64, given: &[(usize, Report)]) -> Waited
    ensures { result ≡ answer_at now (reports_of given.now) }
{
    if given.is_empty() {
        Waited::Quiet { now }
    } else {
        Waited::Reports {
            now,
            count: given.len(),
        }
    }
}

// Drops the reports that are to be dropped at a wait.
fn drop_gone(
    wait: usize,
    watched: &[Watched],
    retired: &[Retired],
    planned: &mut Vec<(usize, Report)>,
)
    ensures bound { vec_len planned.new ≤ vec_len planned.old }
    ensures kept { planned.new.items ≡ kept_at wait watched.now retired.now planned.old.items }
{
    planned.retain(|p| !is_dropped(wait, watched, retired, p));
}

// Moves one report before others.
fn bring(planned: &mut [(usize, Report)], from: usize, to: usize)
    requires before { to ≤ from }
    requires within { from < length planned.old }
    ensures { planned.new ≡ take to planned.old ++ rotated (from - to)
        (slice_range planned.old to (from + 1)) ++ drop (from + 1) planned.old }
{
    planned[to..from + 1].rotate_right(1);
}

// Moves the reports that are given at a wait to the places after the others, each part in its
// order, and tells how many the others are.
fn part(wait: usize, watched: &[Watched], planned: &mut Vec<(usize, Report)>) -> usize
    ensures len { vec_len planned.new ≡ vec_len planned.old }
    ensures left { result ≡ length (left_at wait watched.now planned.old.items) }
    ensures parted { planned.new.items ≡ left_at wait watched.now planned.old.items
        ++ given_at wait watched.now planned.old.items }
{
    let mut left = 0;
    for at in 0..planned.len() {
        if !is_given(wait, watched, &planned[at]) {
            bring(planned, at, left);
            left += 1;
        }
    }
    left
}

// Sorts the reports as a wait does: drops those to be dropped, and moves those to be given to the
// places after the others. It tells how many the others are.
pub(crate) fn sort_out(
    wait: usize,
    watched: &[Watched],
    retired: &[Retired],
    planned: &mut Vec<(usize, Report)>,
) -> usize
    ensures bound { vec_len planned.new ≤ vec_len planned.old }
    ensures left { result ≡ length (left_at wait watched.now
        (kept_at wait watched.now retired.now planned.old.items)) }
    ensures parted { planned.new.items ≡ left_at wait watched.now
        (kept_at wait watched.now retired.now planned.old.items)
        ++ given_at wait watched.now (kept_at wait watched.now retired.now planned.old.items) }
{
    drop_gone(wait, watched, retired, planned);
    part(wait, watched, planned)
}

//! What a wait comes to at moments that were laid down.
ghost use Rattle.std.specs.Prelude.{◌≡◌, ◌≤◌, ◌<◌, ◌+◌, Some, true, length};
ghost use Rattle.ev_base.specs.Playing.{is_late};
ghost use Rattle.dial_memory.specs.Moments.{given_now, given_new, held_new, answer_with, came_of};

use ev_base::{MOST_REPORTS, Waited};

/// What a wait comes to: its answer, how many reports it gives, and where it leaves the net.
#[derive(Clone, Copy)]
pub struct Came {
    pub answer: Waited,
    pub given: usize,
    pub now: u64,
    pub next: usize,
    pub held: usize,
}

// How many of the reports that are held back are given now.
fn given_now(writer: Option<u64>, held: usize) -> usize
    ensures { result ≡ given_now writer held }
{
    match writer {
        Some(_) => held.min(MOST_REPORTS),
        None => 0,
    }
}

// How many reports a new one comes to that are given, and that are held back.
fn given_new(gone: bool, writer: Option<u64>) -> usize
    ensures same { result ≡ given_new gone writer }
    ensures few { result ≤ 1 }
{
    match (gone, writer) {
        (false, Some(_)) => 1,
        _ => 0,
    }
}

fn held_new(gone: bool, writer: Option<u64>) -> usize
    ensures same { result ≡ held_new gone writer }
    ensures few { result ≤ 1 }
{
    match (gone, writer) {
        (false, None) => 1,
        _ => 0,
    }
}

// The answer at a moment with so many reports.
fn answer_with(now: u64, given: usize) -> Waited
    ensures { result ≡ answer_with now given }
{
    match given {
        0 => Waited::Quiet { now },
        count => Waited::Reports { now, count },
    }
}

// Whether a moment comes later than a wait may last.
fn is_late(most: u64, now: u64, moment: u64) -> bool
    ensures late { result ≡ true → now + most < moment }
    ensures same { result ≡ is_late (Some most) now moment }
{
    match moment.checked_sub(now) {
        Some(time) => most < time,
        None => false,
    }
}

/// What a wait comes to: `writer` is the handle of the end that is reported, if one wants that,
/// `held` how many reports are held back, and `gone` tells whether an end is gone for good.
pub(crate) fn come(
    moments: &[u64],
    next: usize,
    now: u64,
    held: usize,
    gone: bool,
    writer: Option<u64>,
    most_ms: Option<u64>,
) -> Came
    requires held { held ≤ next }
    requires next { next ≤ length moments.now }
    ensures { result ≡ came_of moments.now next now held gone writer most_ms }
{
    let given = given_now(writer, held);
    if given > 0 {
        return Came {
            answer: Waited::Reports { now, count: given },
            given,
            now,
            next,
            held: held - given,
        };
    }
    let Some(moment) = moments.get(next).copied() else {
        return Came {
            answer: Waited::Over { now },
            given: 0,
            now,
            next,
            held,
        };
    };
    match most_ms {
        Some(most) if is_late(most, now, moment) => Came {
            answer: Waited::Quiet { now: now + most },
            given: 0,
            now: now + most,
            next,
            held,
        },
        _ => {
            let given = given_new(gone, writer);
            Came {
                answer: answer_with(moment, given),
                given,
                now: moment,
                next: next + 1,
                held: held + held_new(gone, writer),
            }
        }
    }
}

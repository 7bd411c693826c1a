//! How a wait sorts steps.
ghost use Rattle.std.specs.Prelude.{◌≡◌, ◌≤◌, ◌<◌, ◌+◌, ◌-◌, [], length, drop, vec_len};
ghost use Rattle.std.specs.Prelude.{vec_capacity};
ghost use Rattle.ev_base.specs.Playing.{report_at, most_reports};
ghost use Rattle.script_net.specs.Scripts.{end_view, step_at, steps_at};
ghost use Rattle.script_net.specs.Playable.{IsWithin, AreWithin};
ghost use Rattle.script_net.specs.Seating.{is_marked};
ghost use Rattle.script_net.specs.Sorting.{TakesStep, WaitSorts};

use crate::script::End;
use crate::seats::Seats;
use ev_base::{MOST_REPORTS, Report};

// Takes one step: drops it if its end is gone, reports it if that is wanted, or passes it
// over. It is not taken if it is to be reported and there are as many reports as a wait gives.
fn take_step(seats: &Seats, end: End, reports: &mut Vec<Report>, passed: &mut Vec<End>) -> bool
    requires within { IsWithin (length seats.now.marks.connections) (end_view end) }
    requires room { vec_len passed.old < vec_capacity passed.old }
    requires report_room { most_reports ≤ vec_capacity reports.old }
    ensures taken { TakesStep (is_marked seats.now.marks (end_view end))
        (report_at seats.now.seats (step_at end)) end reports.old.items passed.old.items result
        reports.new.items passed.new.items }
    ensures passed_room { vec_capacity passed.old ≤ vec_capacity passed.new }
    ensures report_room { vec_capacity reports.old ≤ vec_capacity reports.new }
{
    if seats.is_gone(end) {
        return true;
    }
    let Some(report) = seats.report(end) else {
        match passed.push(end) {
            Ok(()) => return true,
            Err(_) => unreachable!(),
        }
    };
    if reports.len() >= MOST_REPORTS {
        return false;
    }
    match reports.push(report) {
        Ok(()) => true,
        Err(_) => unreachable!(),
    }
}

/// Goes through steps from a place on, until there are as many reports as a wait gives. It answers
/// the place of the first step that it did not come to. The steps that it passed over are put into
/// a list that is empty and has room for them.
pub(crate) fn sort_out(
    seats: &Seats,
    steps: &[End],
    from: usize,
    reports: &mut Vec<Report>,
    passed: &mut Vec<End>,
) -> usize
    requires start { from ≤ length steps.now }
    requires within { AreWithin (length seats.now.marks.connections)
        (steps_at (drop from steps.now)) }
    requires no_report { reports.old.items ≡ [] }
    requires report_room { most_reports ≤ vec_capacity reports.old }
    requires none_passed { passed.old.items ≡ [] }
    requires room { length steps.now ≤ from + vec_capacity passed.old }
    ensures sorted { WaitSorts seats.now (drop from steps.now) reports.new.items passed.new.items
        (drop result steps.now) }
    ensures within { AreWithin (length seats.now.marks.connections) (steps_at passed.new.items) }
    ensures few { from + length passed.new.items ≤ result }
    ensures stops { result ≤ length steps.now }
    ensures passed_room { vec_capacity passed.old ≤ vec_capacity passed.new }
    ensures report_room { vec_capacity reports.old ≤ vec_capacity reports.new }
{
    for at in from..steps.len() {
        if !take_step(seats, steps[at], reports, passed) {
            return at;
        }
    }
    steps.len()
}
